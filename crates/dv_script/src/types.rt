use dv_model::{Bytes, Command, OutOfMemory};

/// A line of a script: a session's name, and the command that it gives.
#[derive(Drop)]
pub struct Line {
    /// 1 to 16 bytes of `a` to `z` and `0` to `9`.
    pub session: Bytes,
    pub command: Command,
}

/// Why a script is refused. Lines are counted from 1, by their line feeds.
#[derive(Clone, Copy, PartialEq, Eq, Debug)]
pub enum ScriptEnd {
    /// This line has no command's form, or is too long.
    BadLine { line: u32 },
    /// The script has more than 67,108,864 bytes.
    TooLong,
    /// The literal that this line announces has fewer bytes.
    ShortLiteral { line: u32 },
    /// Memory ran out.
    NoMemory,
}

impl<E: OutOfMemory> From<E> for ScriptEnd {
    ghost use Rattle.std.specs.Prelude.{◌≡◌};
    ghost use Rattle.dv_script.specs.declared.types.ScriptEnd.TheVariants.{NoMemory};

    ghost from_gives = { λ _ end. end ≡ NoMemory };

    fn from(_: E) -> ScriptEnd {
        ScriptEnd::NoMemory
    }
}
