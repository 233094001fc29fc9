//! A line of a script, alone.

ghost use Rattle.std.specs.Prelude.{IfOk};
ghost use Rattle.dv_serving.specs.Servable.{IsServable};

use crate::player::Trouble;
use dv_script::{Line, Lines, open_script};
use dv_serving::commands_are_servable;
use std::alloc::Global;

/// The first line of a script, whose command may be served.
pub fn line_of(alloc: Global, text: &[u8]) -> Result<Line, Trouble>
    ensures { IfOk result (λ line. IsServable line.command) }
{
    commands_are_servable();
    let Ok(mut script) = open_script(alloc, text) else {
        return Err(Trouble::NoMemory);
    };
    match script.lines.next()? {
        Some(line) => Ok(line),
        None => Err(Trouble::Unlike),
    }
}
