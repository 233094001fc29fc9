ghost use Rattle.std.specs.Prelude.{◌≤◌};

use crate::commands::{command_drawn, line_of};
use dv_model::{Command, NoMemory};
use dv_script::{Line, Lines};
use std::alloc::Global;

/// The lines of a generated script, each made when it is asked for.
#[derive(Drop)]
pub struct GeneratedLines {
    pub(crate) alloc: Global,
    pub(crate) sessions: u32,
    pub(crate) count: u32,
    /// The SELECTs that were given.
    pub(crate) selects: u32,
    /// The commands that were given behind these.
    pub(crate) commands: u32,
    /// The state behind the draws so far.
    pub(crate) state: u64,
    ghost some: { 1 ≤ sessions },
    ghost selecting: { selects ≤ sessions },
    ghost commanding: { commands ≤ count },
}

impl Lines for GeneratedLines {
    ghost use Rattle.dv_gen.specs.LinesToCome.{lines_to_come};

    ghost left = { lines_to_come };

    fn next(&mut self) -> Result<Option<Line>, NoMemory> {
        if self.selects < self.sessions {
            self.selects += 1;
            return Ok(Some(line_of(self.alloc, self.selects, Command::Select)?));
        }
        if self.commands == self.count {
            return Ok(None);
        }
        let session = self.commands % self.sessions + 1;
        let command = command_drawn(self.alloc, self.commands, &mut self.state)?;
        self.commands += 1;
        Ok(Some(line_of(self.alloc, session, command)?))
    }
}
