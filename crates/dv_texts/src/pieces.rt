//! The pieces of a text.

ghost use Rattle.std.specs.Prelude.{◌≡◌, ◌++◌, ◌≤◌, OnOk, length, take};
ghost use Rattle.dv_shelf.specs.Causes.{HasCause};
ghost use Rattle.dv_shelf.specs.Streams.{Appends, AppendsFront};
ghost use Rattle.dv_texts.specs.Lines.{joined};

use dv_model::Bytes;
use dv_shelf::{Failed, Sink};

/// Writes the pieces in turn, or after a failure some bytes from the front.
pub(crate) fn write_pieces<O: Sink>(pieces: &[Bytes], out: &mut O) -> Result<(), Failed>
    ensures ok { O.sees.tells →
        OnOk result (Appends (O.sees.taken out.old) (O.sees.taken out.new) (joined pieces.now)) }
    ensures err { O.sees.tells → AppendsFront (O.sees.taken out.old) (O.sees.taken out.new)
        (joined pieces.now) }
    ensures cause { HasCause (O.sees.fault_count out.old) (O.sees.fault_count out.new) result }
{
    for piece in pieces {
        out.write_all(piece.as_slice())?;
    }
    Ok(())
}

/// Takes pieces away as long as those before the last one have more than so many bytes; how many
/// they have then, and the last piece.
pub(crate) fn cut_pieces(
    pieces: &mut Vec<Bytes>,
    whole: usize,
    last: Bytes,
    most: usize,
) -> (usize, Bytes)
    requires whole { whole ≡ length (joined pieces.old.items) }
    ensures whole { result.0 ≡ length (joined pieces.new.items) }
    ensures fewer { result.0 ≤ whole }
    ensures enough { result.0 ≤ most }
    ensures front { take most (joined pieces.new.items ++ result.1)
        ≡ take most (joined pieces.old.items ++ last) }
{
    let mut before = whole;
    let mut last = last;
    while before > most {
        let Some(piece) = pieces.pop() else {
            unreachable!();
        };
        before -= piece.len();
        last = piece;
    }
    (before, last)
}
