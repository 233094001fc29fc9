ghost use Rattle.std.specs.Prelude.{◌≡◌, ◌++◌, ◌<◌, ℕ, All, List, flat_map, length};
ghost use Rattle.std.specs.List.Sorted.{IsStrictlyIncreasing};
ghost use Rattle.dv_model.specs.Effects.{keywords_after};
ghost use Rattle.dv_model.specs.declared.types.How.{How};
ghost use Rattle.dv_formats.specs.Snapshots.{keyword_text};
ghost use Rattle.dv_keywords.specs.Tables.{IsTable, IsTableAt};

/// The text of a table is read as that table, whatever follows it.
pub fn written_is_read()
    ensures { (names : List (List ℕ)) (rest : List ℕ) → IsTable names →
        IsTableAt (length names) names (length (flat_map keyword_text names))
        (flat_map keyword_text names ++ rest) }
{}

/// At most one table of a count begins any bytes.
pub fn one_table()
    ensures { (count : ℕ) (names others : List (List ℕ)) (n m : ℕ) (b : List ℕ) →
        IsTableAt count names n b → IsTableAt count others m b → (names ≡ others) × (n ≡ m) }
{}

/// A row's keywords stay places of the table, in rising order, whatever is done with one of them.
pub fn places_stay_places()
    ensures rising { (how : How) (place : ℕ) (places : List ℕ) → IsStrictlyIncreasing places →
        IsStrictlyIncreasing (keywords_after how place places) }
    ensures below { (how : How) (place count : ℕ) (places : List ℕ) → place < count →
        All (λ p. p < count) places → All (λ p. p < count) (keywords_after how place places) }
{}
