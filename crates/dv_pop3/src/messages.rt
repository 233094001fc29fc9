//! What the store has of a message, as the answer to a RETR.

ghost use Rattle.std.specs.Prelude.{◌≡◌, ◌⊎◌, [], IfOk, OnErr, OnOk, false};
ghost use mathlib.Core.List.{IsPrefix};
ghost use Rattle.dv_maildrop.specs.declared.types.Found.{Found as Said};
ghost use Rattle.dv_maildrop.specs.declared.types.Found.TheVariants.{Gone};
ghost use Rattle.dv_maildrop.specs.Answers.{found_answer};
ghost use Rattle.dv_member.specs.Members.{notes_of};
ghost use Rattle.dv_pop3.specs.Clients.{IsGiven, KeepsOn};
ghost use Rattle.dv_pop3.specs.Findings.{IsFound, IsHeld};
ghost use Rattle.dv_pop3.specs.Retrievals.{fetch_of};

use crate::collecting::Retrieval;
use dv_keeper::Keeper;
use dv_maildrop::{Found, Listed, put_found};
use dv_member::Session;
use dv_model::{Bytes, Command, End, Item, List, NoMemory, Span};
use dv_naming::{Keeping, Tally};
use dv_shelf::{Clock, Shelf};
use std::alloc::Global;
use std::sync::Wait;

// A FETCH of the bytes of the message with this UID.
fn fetch_of(alloc: Global, uid: u32) -> Result<Command, NoMemory>
    ensures { IfOk result (λ c. c ≡ fetch_of uid) }
{
    let end = End::Number(uid);
    let set = List::from_slice(alloc, &[Span { from: end, to: end }])?;
    let mut items = List::new(alloc);
    items.push(Item::Body)?;
    Ok(Command::Fetch {
        by_uid: true,
        set,
        items,
    })
}

// The answer of a message that was expunged.
fn gone(alloc: Global, row: Listed) -> Result<Bytes, NoMemory>
    ensures { IfOk result (λ text. text ≡ found_answer row Gone) }
{
    let mut text = Bytes::new(alloc);
    put_found(&mut text, row, &Found::Gone)?;
    Ok(text)
}

// The answer by the replies: one of which none speaks of the message was expunged before the
// session was last told.
fn answer_by(alloc: Global, row: Listed, replies: Retrieval) -> Result<Bytes, NoMemory>
    ensures none { replies.text ≡ [] → IfOk result (λ text. text ≡ found_answer row Gone) }
    ensures some { (f : Said) → replies.text ≡ found_answer row f
        → IfOk result (λ text. text ≡ found_answer row f) }
{
    let text = replies.into_text();
    if text.is_empty() {
        return gone(alloc, row);
    }
    Ok(text)
}

/// The answer to a RETR of a message, by what a session's store has of it: the message where it is
/// live and its file is whole, that it was expunged or is damaged, or that the disk failed. So too
/// where it was expunged before the session was last told. Its bytes are copied once. After
/// `NoMemory`, which is the only error, nothing was written, and the session goes on.
pub(crate) fn retrieve<S: Shelf, C: Clock, K: Keeping, L: Tally, M: Tally, R: Wait>(
    alloc: Global,
    rt: &R,
    keeper: &Keeper<S, C, K, L, M>,
    s: &mut Session<K, L, M>,
    row: Listed,
) -> Result<Bytes, NoMemory>
    requires fresh { s.old.spent ≡ false }
    ensures found { K.honest → IsGiven row s.old.follower.state → IfOk result (λ text. (f : Said)
        × (text ≡ found_answer row f) × IsFound K.start K.count row.uid f s.old s.new) }
    ensures left { K.honest → IsGiven row s.old.follower.state → OnErr result (IsHeld s.old s.new
        ⊎ ((f : Said) × IsFound K.start K.count row.uid f s.old s.new)) }
    ensures later { K.honest → IsGiven row s.old.follower.state
        → KeepsOn s.old.follower.state s.new.follower.state }
    ensures begins { IsPrefix (notes_of s.old) (notes_of s.new) }
    ensures number { s.new.number ≡ s.old.number }
    ensures fresh { s.new.spent ≡ false }
{
    // What is so of each session is known before the reading and behind it.
    s.number();
    let command = fetch_of(alloc, row.uid)?;
    if s.refuse(&command).is_some() {
        return Err(NoMemory);
    }
    let mut replies = Retrieval::new(alloc, row);
    keeper.mail(rt, s, &command, &mut replies)?;
    s.number();
    answer_by(alloc, row, replies)
}
