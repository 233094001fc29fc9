ghost use Rattle.std.specs.Prelude.{◌≡◌};
ghost use Rattle.dv_sets.specs.declared.end.ParseEnd.TheVariants as parse_end;
ghost use Rattle.dv_sets.specs.declared.end.SetEnd.TheVariants as set_end;

use dv_model::OutOfMemory;

/// Why a set names no messages of a view.
#[derive(Clone, Copy, PartialEq, Eq, Debug)]
pub enum SetEnd {
    /// The first end of a range that is no message number.
    NoMessage(u32),
    NoMemory,
}

/// Why a text wasn't read.
#[derive(Clone, Copy, PartialEq, Eq, Debug)]
pub enum ParseEnd {
    /// The text is not of this form.
    Bad,
    NoMemory,
}

impl<E: OutOfMemory> From<E> for SetEnd {
    ghost from_gives = { λ _ e. e ≡ set_end.NoMemory };

    fn from(_: E) -> SetEnd {
        SetEnd::NoMemory
    }
}

impl<E: OutOfMemory> From<E> for ParseEnd {
    ghost from_gives = { λ _ e. e ≡ parse_end.NoMemory };

    fn from(_: E) -> ParseEnd {
        ParseEnd::NoMemory
    }
}
