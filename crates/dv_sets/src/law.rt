ghost use Rattle.std.specs.Prelude.{◌≡◌, ℕ, List};
ghost use Rattle.dv_model.specs.declared.types.Span.{Span};
ghost use Rattle.dv_formats.specs.Printing.{flags_text, set_text};
ghost use Rattle.dv_formats.specs.Scripts.{AreFlags, IsSet};

/// A text is of one set.
pub fn one_set()
    ensures { (set other : List Span) (b : List ℕ) → IsSet set b → IsSet other b
        → set ≡ other }
{}

/// What is printed of a set that has a text is a text of that set, so that it is read back.
pub fn written_set_is_read()
    ensures { (set : List Span) (b : List ℕ) → IsSet set b → IsSet set (set_text set) }
{}

/// A text names one value of the flags and one list of keywords.
pub fn one_flags()
    ensures { (flags bits : ℕ) (keywords names : List (List ℕ)) (b : List ℕ)
        → AreFlags flags keywords b
        → AreFlags bits names b
        → (flags ≡ bits) × (keywords ≡ names) }
{}

/// What is printed of flags and keywords that a text names is a text of the same, so that they are
/// read back.
pub fn written_flags_are_read()
    ensures { (flags : ℕ) (keywords : List (List ℕ)) (b : List ℕ) → AreFlags flags keywords b
        → AreFlags flags keywords (flags_text flags keywords) }
{}
