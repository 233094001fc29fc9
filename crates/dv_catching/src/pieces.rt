//! The text of a client's answers, in pieces: a long one finds room between what else is in memory,
//! and isn't copied where it grows.

ghost use Rattle.std.specs.Prelude.{◌≡◌, ◌++◌, ◌∷◌, [], IfOk, OnOk};
ghost use Rattle.dv_shelf.specs.Causes.{HasCause};
ghost use Rattle.dv_shelf.specs.Streams.{Appends, AppendsFront};
ghost use Rattle.dv_qresync.specs.Texts.{answer_text, answers_text};
ghost use Rattle.dv_catching.specs.Texts.{joined};

use dv_model::{Bytes, NoMemory};
use dv_qresync::{Answer, answer_text};
use dv_shelf::{Failed, Sink};
use std::alloc::Global;

/// From so many bytes on a piece of the text is whole.
const PIECE: usize = 32768;

/// Adds the line of an answer.
fn put_answer(alloc: Global, text: &mut Bytes, a: &Answer) -> Result<(), NoMemory>
    ensures { OnOk result (text.new ≡ text.old ++ (answer_text a.now ++ 10 ∷ [])) }
{
    text.extend(answer_text(alloc, a)?.as_slice())?;
    text.push(b'\n')?;
    Ok(())
}

/// The lines of all answers.
pub fn answer_pieces(alloc: Global, answers: &[Answer]) -> Result<Vec<Bytes>, NoMemory>
    ensures { IfOk result (λ pieces. joined pieces.items ≡ answers_text answers.now) }
{
    let mut pieces = Vec::new(alloc);
    let mut text = Bytes::new(alloc);
    for a in answers {
        if text.len() >= PIECE {
            pieces.push(text)?;
            text = Bytes::new(alloc);
        }
        put_answer(alloc, &mut text, a)?;
    }
    pieces.push(text)?;
    Ok(pieces)
}

/// Writes the pieces in turn, or after a failure some bytes from the front.
pub fn write_pieces<O: Sink>(pieces: &[Bytes], out: &mut O) -> Result<(), Failed>
    ensures ok { O.sees.tells →
        OnOk result (Appends (O.sees.taken out.old) (O.sees.taken out.new) (joined pieces.now)) }
    ensures err { O.sees.tells → AppendsFront (O.sees.taken out.old) (O.sees.taken out.new)
        (joined pieces.now) }
    ensures cause { HasCause (O.sees.fault_count out.old) (O.sees.fault_count out.new) result }
{
    for piece in pieces {
        out.write_all(piece.as_slice())?;
    }
    Ok(())
}
