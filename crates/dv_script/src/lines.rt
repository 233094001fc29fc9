ghost use Rattle.std.specs.Prelude.{◌≡◌, ◌≢◌, [], List, IfOk, OnErr};
ghost use Rattle.dv_formats.specs.Scripts.{NamedLine};
ghost use Rattle.dv_script.specs.Sources.{IsNext, all_named};

use crate::Line;
use dv_model::{List, NoMemory};
use std::alloc::Global;

/// The lines of a script, given one after another.
pub trait Lines {
    /// The lines that are left, each a session's name and its command.
    ghost left: { Self → List NamedLine };

    /// The next line, or that there is none. `NoMemory` is the only error.
    fn next(&mut self) -> Result<Option<Line>, NoMemory>
        ensures next { IfOk result (λ line. IsNext (left self.old) line (left self.new)) }
        // It comes only where a line is left.
        ensures some { OnErr result (left self.old ≢ []) };
}

/// All lines that are left, in a list. `NoMemory` is the only error.
pub fn all_lines<L: Lines>(alloc: Global, lines: &mut L) -> Result<List<Line>, NoMemory>
    ensures { IfOk result (λ all. all_named all ≡ L.left lines.old) }
{
    let mut all = List::new(alloc);
    'given: while let Some(line) = lines.next()? {
        all.push(line)?;
    }
    Ok(all)
}
