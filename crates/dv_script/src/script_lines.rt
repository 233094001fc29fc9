ghost use Rattle.std.specs.Prelude.{◌≡◌, true};
ghost use Rattle.dv_script.specs.Rests.{is_good};

use crate::script::{LineEnd, first_line, read_line, skip};
use crate::{Line, Lines};
use dv_model::{Bytes, List, NoMemory};
use std::alloc::Global;

/// The lines of a script without a fault, each read when it is asked for.
#[derive(Drop)]
pub struct ScriptLines<'a> {
    pub(crate) alloc: Global,
    /// What is left of the script.
    pub(crate) rest: &'a [u8],
    /// The sessions so far.
    pub(crate) names: List<Bytes>,
    ghost good: { is_good names rest.now ≡ true },
}

/// A script without a fault.
#[derive(Drop)]
pub struct Script<'a> {
    pub lines: ScriptLines<'a>,
    /// The number of sessions that its lines name.
    pub sessions: u32,
}

impl<'a> Lines for ScriptLines<'a> {
    ghost use Rattle.dv_script.specs.Opened.{lines_left};

    ghost left = { lines_left };

    fn next(&mut self) -> Result<Option<Line>, NoMemory> {
        let rest = skip(self.rest);
        // Nothing is left behind an error.
        self.rest = &[];
        if rest.is_empty() {
            return Ok(None);
        }
        let (text, end) = first_line(rest);
        match read_line(self.alloc, &mut self.names, text, end) {
            Ok((line, next)) => {
                self.rest = next;
                Ok(line)
            }
            Err(LineEnd::NoMemory) => Err(NoMemory),
            Err(LineEnd::Bad) => unreachable!(),
            Err(LineEnd::Short) => unreachable!(),
        }
    }
}
