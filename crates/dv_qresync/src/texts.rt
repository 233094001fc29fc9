ghost use Rattle.std.specs.Prelude.{◌≡◌, ◌++◌, codes, decimal, IfOk, OnOk, map};
ghost use Rattle.dv_formats.specs.Printing.{flags_text, set_text};
ghost use Rattle.dv_qresync.specs.Replicas.{span_of};
ghost use Rattle.dv_qresync.specs.Texts.{answer_text};

use crate::types::Answer;
use dv_model::{Bytes, End, List, NoMemory, Pair, Span};
use dv_sets::{print_flags, print_set};
use itoa::Buffer;
use std::alloc::Global;

fn put_number(text: &mut Bytes, n: u64) -> Result<(), NoMemory>
    ensures { OnOk result (text.new ≡ text.old ++ decimal n) }
{
    let mut buffer = Buffer::new();
    text.extend(buffer.format(n).as_bytes())?;
    Ok(())
}

// A number behind words, in brackets that they open.
fn code_text(alloc: Global, words: &[u8], n: u64) -> Result<Bytes, NoMemory>
    ensures { IfOk result (λ text. text ≡ words.now ++ decimal n ++ codes "]") }
{
    let mut text = List::from_slice(alloc, words)?;
    put_number(&mut text, n)?;
    text.push(b']')?;
    Ok(text)
}

// Ranges of UIDs as a set.
fn set_of(alloc: Global, pairs: &[Pair]) -> Result<List<Span>, NoMemory>
    ensures { IfOk result (λ set. set ≡ map span_of pairs.now) }
{
    let mut set = List::from_vec(Vec::with_capacity(alloc, pairs.len())?);
    for pair in pairs {
        set.push(Span {
            from: End::Number(pair.first),
            to: End::Number(pair.last),
        })?;
    }
    Ok(set)
}

fn vanished_text(alloc: Global, pairs: &[Pair]) -> Result<Bytes, NoMemory>
    ensures { IfOk result (λ text. text
        ≡ codes "* VANISHED (EARLIER) " ++ set_text (map span_of pairs.now)) }
{
    let mut text = List::from_slice(alloc, b"* VANISHED (EARLIER) ")?;
    let set = set_of(alloc, pairs)?;
    text.extend(print_set(alloc, &set)?.as_slice())?;
    Ok(text)
}

// The number and the UID of a message, up to its flags.
fn front_text(alloc: Global, number: u32, uid: u32) -> Result<Bytes, NoMemory>
    ensures { IfOk result (λ text. text
        ≡ codes "* " ++ decimal number ++ codes " FETCH (UID " ++ decimal uid ++ codes " FLAGS ") }
{
    let mut text = List::from_slice(alloc, b"* ")?;
    put_number(&mut text, u64::from(number))?;
    text.extend(b" FETCH (UID ")?;
    put_number(&mut text, u64::from(uid))?;
    text.extend(b" FLAGS ")?;
    Ok(text)
}

/// The text of an answer, without a line end (RFC 7162, sections 3.1.2.1, 3.1.4 and 3.2.10.1).
/// `NoMemory` is the only error.
pub fn answer_text(alloc: Global, a: &Answer) -> Result<Bytes, NoMemory>
    ensures { IfOk result (λ text. text ≡ answer_text a.now) }
{
    match a {
        Answer::Stale(validity) => code_text(alloc, b"* OK [UIDVALIDITY ", u64::from(*validity)),
        Answer::Vanished(pairs) => vanished_text(alloc, pairs.as_slice()),
        Answer::Highest(n) => code_text(alloc, b"* OK [HIGHESTMODSEQ ", *n),
        Answer::Fetch {
            number,
            uid,
            flags,
            keywords,
            modseq,
        } => {
            let mut text = front_text(alloc, *number, *uid)?;
            text.extend(print_flags(alloc, *flags, keywords)?.as_slice())?;
            text.extend(b" MODSEQ (")?;
            put_number(&mut text, *modseq)?;
            text.extend(b"))")?;
            Ok(text)
        }
    }
}
