ghost use Rattle.std.specs.Prelude.{◌≡◌};
ghost use Rattle.dv_keywords.specs.declared.end.TableEnd.TheVariants as end;

use dv_model::OutOfMemory;

/// Why a table wasn't read.
#[derive(Clone, Copy, PartialEq, Eq, Debug)]
pub enum TableEnd {
    /// No table of so many names begins the bytes.
    Bad,
    NoMemory,
}

impl<E: OutOfMemory> From<E> for TableEnd {
    ghost from_gives = { λ _ e. e ≡ end.NoMemory };

    fn from(_: E) -> TableEnd {
        TableEnd::NoMemory
    }
}
