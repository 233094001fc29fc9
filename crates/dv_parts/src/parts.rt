//! The lines of a script, each moved to its session's part.

ghost use Rattle.std.specs.Prelude.{◌≡◌, ◌++◌, ◌∷◌, [], List, IfOk, OnOk, bytes_eq, position};
ghost use Rattle.dv_formats.specs.Scripts.{NamedLine};
ghost use Rattle.dv_script.specs.Sources.{named};
ghost use Rattle.dv_parts.specs.Parts.{AreGiven, AreParts};

use dv_model::{Bytes, Command, List, NoMemory};
use dv_script::{Line, Lines};
use std::alloc::Global;

/// What one session says in a script: its name, and its commands in their order.
#[derive(Drop)]
pub struct Part {
    pub name: Bytes,
    pub commands: List<Command>,
}

/// The place of the part of the session of this name.
fn place_of(parts: &[Part], name: &[u8]) -> Option<usize>
    ensures { result ≡ position (λ p. bytes_eq name.now p.name) parts.now }
{
    parts.iter().position(|p| name == p.name.as_slice())
}

/// Moves one line's command behind those of its session, which has a part of its own from its
/// first line on. `NoMemory` is the only error.
fn add_line(alloc: Global, parts: &mut Vec<Part>, line: Line) -> Result<(), NoMemory>
    ensures { (before : List NamedLine) → AreGiven before parts.old.items →
        OnOk result (AreGiven (before ++ named line ∷ []) parts.new.items) }
{
    let Line { session, command } = line;
    match place_of(parts, session.as_slice()) {
        Some(at) => parts[at].commands.push(command)?,
        None => {
            let mut commands = List::new(alloc);
            commands.push(command)?;
            parts.push(Part {
                name: session,
                commands,
            })?;
        }
    }
    Ok(())
}

/// One part for each session of the lines that are left, in the order of the sessions' first
/// lines, with that session's commands in their order. Each line is moved, and none is copied; a
/// line costs a look through the sessions so far. `NoMemory` is the only error.
pub fn part_lines<L: Lines>(alloc: Global, lines: &mut L) -> Result<List<Part>, NoMemory>
    ensures { IfOk result (AreParts (L.left lines.old)) }
{
    let mut parts = Vec::new(alloc);
    'given: while let Some(line) = lines.next()? {
        add_line(alloc, &mut parts, line)?;
    }
    Ok(List::from_vec(parts))
}
