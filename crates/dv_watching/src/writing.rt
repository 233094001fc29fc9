//! What is written of a line.

ghost use Rattle.std.specs.Prelude.{◌++◌, ◌≤◌, IfErr, OnOk};
ghost use Rattle.dv_shelf.specs.Causes.{HasCause};
ghost use Rattle.dv_shelf.specs.Streams.{Appends, AppendsFront};
ghost use Rattle.dv_serial.specs.Runs.{IsCaused};
ghost use Rattle.dv_watching.specs.Watching.{IsSinkEnd};

use dv_serial::LineEnd;
use dv_shelf::{Failed, Sink};
use dv_texts::ReplyText;

/// Writes the replies, and then what is told.
fn write_both<O: Sink>(replies: &ReplyText, told: &[u8], out: &mut O) -> Result<(), Failed>
    ensures ok { O.sees.tells → OnOk result (Appends (O.sees.taken out.old) (O.sees.taken out.new)
        (replies.now.text ++ told.now)) }
    ensures err { O.sees.tells → AppendsFront (O.sees.taken out.old) (O.sees.taken out.new)
        (replies.now.text ++ told.now) }
    ensures cause { HasCause (O.sees.fault_count out.old) (O.sees.fault_count out.new) result }
{
    replies.write_to(out)?;
    if told.is_empty() {
        return Ok(());
    }
    out.write_all(told)
}

/// Writes the replies to a line, and then what is told behind it. A failed output is the only
/// error.
pub fn write_line<O: Sink>(replies: &ReplyText, told: &[u8], out: &mut O) -> Result<(), LineEnd>
    ensures ok { O.sees.tells → OnOk result (Appends (O.sees.taken out.old) (O.sees.taken out.new)
        (replies.now.text ++ told.now)) }
    ensures err { O.sees.tells → AppendsFront (O.sees.taken out.old) (O.sees.taken out.new)
        (replies.now.text ++ told.now) }
    ensures sink { IfErr result IsSinkEnd }
    ensures later { O.sees.fault_count out.old ≤ O.sees.fault_count out.new }
    ensures cause { IsCaused (O.sees.fault_count out.old) (O.sees.fault_count out.new) result }
{
    match write_both(replies, told, out) {
        Ok(()) => Ok(()),
        Err(_) => Err(LineEnd::Sink(out.faults())),
    }
}
