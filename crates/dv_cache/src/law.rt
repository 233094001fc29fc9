ghost use Rattle.std.specs.Prelude.{◌≡◌, ◌+◌, ◌*◌, ◌<◌, ◌^◌, ℕ, List, Option, None, Some, slice_get, Contains};
ghost use Rattle.dv_cache.specs.Caches.{cache_text, kept};
ghost use Rattle.dv_cache.specs.Finding.{IsRowAt};
ghost use Rattle.dv_cache.specs.Written.{place_of, AreWritable};
ghost use Rattle.dv_cache.specs.declared.row.CacheRow.{CacheRow};
ghost use Rattle.dv_cache.specs.declared.row.Known.{Known};

/// At most one row stands at an offset.
pub fn one_row()
    ensures { (b : List ℕ) (indexid seq uid offset : ℕ) (row other : CacheRow)
        → IsRowAt b indexid seq uid offset row
        → IsRowAt b indexid seq uid offset other
        → row ≡ other }
{}

/// Row i of a written file stands at the offset 32 + 16 i where it is kept, and no row does where
/// it isn't.
pub fn written_is_found()
    ensures kept { (indexid seq : ℕ) (rows : List CacheRow) (i : ℕ) (row : CacheRow) (known : Known)
        → indexid < 2 ^ 32
        → seq < 2 ^ 32
        → AreWritable rows
        → slice_get rows i ≡ Some row
        → kept (place_of rows i) row.known ≡ Some known
        → IsRowAt (cache_text indexid seq rows) indexid seq row.uid (32 + 16 * i) row }
    ensures none { (indexid seq : ℕ) (rows : List CacheRow) (i uid : ℕ) (row other : CacheRow)
        → AreWritable rows
        → slice_get rows i ≡ Some row
        → kept (place_of rows i) row.known ≡ None
        → IsRowAt (cache_text indexid seq rows) indexid seq uid (32 + 16 * i) other
        → ⊥ }
{}

/// What is found in a written file is a row that was written, whatever indexid and sequence are
/// asked for.
pub fn found_is_written()
    ensures { (indexid seq asked number uid offset : ℕ) (rows : List CacheRow) (row : CacheRow)
        → indexid < 2 ^ 32
        → seq < 2 ^ 32
        → AreWritable rows
        → IsRowAt (cache_text indexid seq rows) asked number uid offset row
        → Contains rows row }
{}
