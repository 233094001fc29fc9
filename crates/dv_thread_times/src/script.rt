//! The lines of a script by session.

ghost use Rattle.std.specs.Prelude.{All, IfOk};
ghost use Rattle.dv_parts.specs.declared.parts.Part.{Part as OnePart};
ghost use Rattle.dv_serving.specs.Servable.{IsServable};

use crate::fault::Fault;
use dv_parts::{Part, part_lines};
use dv_script::open_script;
use dv_serving::commands_are_servable;
use std::alloc::Global;

/// The parts of a script, whose commands may be served.
pub fn parts_of(alloc: Global, text: &[u8]) -> Result<Vec<Part>, Fault>
    ensures { IfOk result (λ parts. All (λ (p : OnePart). All IsServable p.commands) parts.items) }
{
    commands_are_servable();
    let Ok(mut script) = open_script(alloc, text) else {
        return Err(Fault::BadScript);
    };
    match part_lines(alloc, &mut script.lines) {
        Ok(parts) => Ok(parts.into_vec()),
        Err(_) => Err(Fault::NoMemory),
    }
}
