//! The sessions of a script by number.

ghost use Rattle.std.specs.Prelude.{◌≡◌, ◌++◌, ◌∷◌, [], ◌<◌, ◌^◌, ℕ, List, IfOk, bytes_eq, length, position};
ghost use Rattle.dv_model.specs.declared.types.Command.{Command};
ghost use Rattle.dv_formats.specs.Scripts.{NamedLine, sessions_of};
ghost use Rattle.dv_serial.specs.Numbering.{turn_behind};
ghost use Rattle.dv_serial.specs.Numbering.{AreSeen, commands_in};

use dv_model::{Bytes, List, NoMemory};
use std::alloc::Global;

/// Which session gives a line of a script, and as which of its commands, both counted from 1.
/// Sessions are numbered in the order of their first lines.
#[derive(Clone, Copy, PartialEq, Eq, Debug, Drop)]
pub struct Turn {
    pub session: u32,
    pub command: u32,
}

/// A session's name, and how many commands it gave so far.
#[derive(Drop)]
pub struct Seen {
    name: Bytes,
    commands: u32,
}

/// The place of the session of this name.
fn place_of(seen: &[Seen], name: &[u8]) -> Option<usize>
    ensures { result ≡ position (λ s. bytes_eq name.now s.name) seen.now }
{
    seen.iter().position(|s| name == s.name.as_slice())
}

/// The turn of the next line, which the session of this name gives. `NoMemory` is the only error.
pub fn next_turn(alloc: Global, seen: &mut Vec<Seen>, name: &[u8]) -> Result<Turn, NoMemory>
    requires sessions { length seen.old.items < 2 ^ 26 }
    requires commands { commands_in seen.old.items name.now < 2 ^ 26 }
    ensures turn { (before : List NamedLine) (c : Command) → AreSeen before seen.old.items →
        IfOk result (λ turn. turn ≡ turn_behind (sessions_of before) before (name.now, c)) }
    ensures seen { (before : List NamedLine) (c : Command) → AreSeen before seen.old.items →
        IfOk result (λ turn. AreSeen (before ++ (name.now, c) ∷ []) seen.new.items) }
{
    match place_of(seen, name) {
        Some(at) => {
            seen[at].commands += 1;
            Ok(Turn {
                session: at as u32 + 1,
                command: seen[at].commands,
            })
        }
        None => {
            let name = List::from_slice(alloc, name)?;
            seen.push(Seen { name, commands: 1 })?;
            Ok(Turn {
                session: seen.len() as u32,
                command: 1,
            })
        }
    }
}
