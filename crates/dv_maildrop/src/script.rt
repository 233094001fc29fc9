//! The lines of a script.

ghost use Rattle.std.specs.Prelude.{◌≡◌, ◌∷◌, [], MatchOption};
ghost use Rattle.dv_maildrop.specs.Scripts.{script_commands};

use crate::message::split_line;
use crate::reading::parse_line;
use crate::types::PopLine;
use std::marker::Model;

/// The most bytes that a script may have.
const MAX_SCRIPT: usize = 67_108_864;

/// The lines of a script that are left, each read when it is asked for. Contracts see the list of
/// their commands.
#[derive(Drop)]
pub struct PopLines<'a> {
    rest: &'a [u8],
}

impl<'a> Model for PopLines<'a> {
    ghost use Rattle.std.specs.Prelude.{List};
    ghost use Rattle.dv_maildrop.specs.declared.types.PopLine.{PopLine as Command};
    ghost use Rattle.dv_maildrop.specs.Scripts.{commands_of};

    ghost Value = { List Command };

    ghost view = { λ lines. commands_of lines.rest.now };
}

/// The lines of a script, which end in LF or CRLF; the last one may end with the script. `None`
/// where the script has more than 67,108,864 bytes, which is the only fault of a script.
pub fn open_lines(script: &[u8]) -> Option<PopLines<'_>>
    ensures { result ≡ script_commands script.now }
{
    if script.len() > MAX_SCRIPT {
        return None;
    }
    Some(PopLines { rest: script })
}

impl<'a> PopLines<'a> {
    /// The command of the next line, or that there is none.
    pub fn next(&mut self) -> Option<PopLine>
        ensures { MatchOption result ((self.old ≡ []) × (self.new ≡ []))
            (λ line. self.old ≡ line ∷ self.new) }
    {
        let (line, rest) = split_line(self.rest)?;
        self.rest = rest;
        Some(parse_line(line))
    }
}
