//! The lines of a script, one after another.

ghost use Rattle.std.specs.Prelude.{◌≡◌, ◌+◌, ◌≤◌, IfOk, List, Result, count_by, length};
ghost use Rattle.dv_formats.specs.Parsing as parsing;
ghost use Rattle.dv_formats.specs.Parsing.{ScriptFault, is_byte};
ghost use Rattle.dv_mdbox_lines.specs.Grammar.{IsOf};
ghost use Rattle.dv_mdbox_lines.specs.Scripts as scripts;
ghost use Rattle.dv_mdbox_lines.specs.Scripts.{parsed};
ghost use Rattle.dv_mdbox_lines.specs.Views.{IsNext, IsOpened, IsTold, OpensAs, calls_left, end_of};

use crate::Call;
use crate::cursor::Calls;
use crate::reading::{LineFault, read_line};
use dv_script::ScriptEnd;

/// The most bytes that a script may have.
const MAX_SCRIPT: usize = 67_108_864;

impl<'a> Calls<'a> {
    /// The next call, or that there is none.
    pub fn next(&mut self) -> Option<Call<'a>>
        ensures { IsNext (calls_left self.old) result (calls_left self.new) }
    {
        let mut rest = self.rest;
        'lines: while !rest.is_empty() {
            match read_line(rest) {
                Ok((None, next)) => rest = next,
                Ok((Some(call), next)) => {
                    self.rest = next;
                    return Some(call);
                }
                Err(_) => unreachable!(),
            }
        }
        self.rest = rest;
        None
    }
}

fn count_feeds(b: &[u8]) -> usize
    ensures count { result ≡ count_by (is_byte 10) b.now }
    ensures within { result ≤ length b.now }
{
    b.iter().filter(|byte| **byte == b'\n').count()
}

/// The line feeds before what is left of these bytes.
fn feeds_before(b: &[u8], rest: &[u8]) -> u32
    requires within { length rest.now ≤ length b.now }
    requires limited { length b.now ≤ 67108864 }
    ensures count { result ≡ parsing.feeds_before b.now rest.now }
    ensures few { result ≤ 67108864 }
{
    let (taken, _) = b.split_at(b.len() - rest.len());
    count_feeds(taken) as u32
}

/// A fault of the line that begins what is left of a script.
fn script_end(b: &[u8], rest: &[u8], fault: LineFault) -> ScriptEnd
    requires within { length rest.now ≤ length b.now }
    requires limited { length b.now ≤ 67108864 }
    ensures { result ≡ end_of (1 + parsing.feeds_before b.now rest.now) fault }
{
    let line = 1 + feeds_before(b, rest);
    match fault {
        LineFault::Bad => ScriptEnd::BadLine { line },
        LineFault::Short => ScriptEnd::ShortLiteral { line },
    }
}

/// Goes over all lines of a storage's script, of which none is kept, and gives the calls from the
/// first one on, or the script's first fault. Takes no memory.
pub fn open_lines(b: &[u8]) -> Result<Calls<'_>, ScriptEnd>
    // The calls left are those that the script says, and a fault is its first one.
    ensures calls { OpensAs result (parsed b.now) }
    // By the grammar, too, they are the script's calls, or it is its first fault.
    ensures found { IsOpened result b.now }
    // A script of the grammar is opened, and a fault that a text has by it is told.
    ensures only { (read : Result (List scripts.Call) ScriptFault) → IsOf read b.now
        → IsTold read result }
    // Each line has a byte.
    ensures few { IfOk result (λ calls. length (calls_left calls) ≤ length b.now) }
{
    if b.len() > MAX_SCRIPT {
        return Err(ScriptEnd::TooLong);
    }
    let mut rest = b;
    'lines: while !rest.is_empty() {
        match read_line(rest) {
            Ok((_, next)) => rest = next,
            Err(fault) => return Err(script_end(b, rest, fault)),
        }
    }
    Ok(Calls { rest: b })
}
