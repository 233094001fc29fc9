//! Tables of mailboxes and older states, with what is heard.

use crate::answers::{Told, are_answers};
use crate::mailboxes::{apply, new_mailbox};
use crate::replicas::{catch_up, hear_each};
use dv_model::{Bytes, End, List, Span};
use dv_qresync::{Answer, Old, answer_text, replica_of, resync};
use std::alloc::Global;
use std::test::Fail;

/// A state: UIDVALIDITY, modification sequence, and ranges of UIDs.
pub type State = (u32, u64, &'static [(End, End)]);

/// What a client with a state hears behind these records of a new folder.
pub struct Case {
    pub records: &'static [&'static [u8]],
    pub state: State,
    pub told: &'static [Told],
    /// The same as text.
    pub text: &'static [u8],
}

fn old_of(alloc: Global, state: State) -> Result<Old, Fail> {
    let mut uids = List::new(alloc);
    for (from, to) in state.2 {
        uids.push(Span {
            from: *from,
            to: *to,
        })?;
    }
    Ok(Old {
        uid_validity: state.0,
        modseq: state.1,
        uids,
    })
}

// The answers as text, each with a line feed.
fn text_of(alloc: Global, answers: &[Answer]) -> Result<Bytes, Fail> {
    let mut text = List::new(alloc);
    for a in answers {
        text.extend(answer_text(alloc, a)?.as_slice())?;
        text.push(b'\n')?;
    }
    Ok(text)
}

/// Fails unless that is heard.
pub fn hear(alloc: Global, case: &Case) -> Result<(), Fail> {
    let mut live = new_mailbox(alloc);
    apply(alloc, &mut live, case.records)?;
    let old = old_of(alloc, case.state)?;
    let answers = resync(alloc, &live, &old)?;
    if !are_answers(answers.as_slice(), case.told) {
        return Err(Fail::from("other answers"));
    }
    if text_of(alloc, answers.as_slice())?.as_slice() != case.text {
        return Err(Fail::from("another text"));
    }
    Ok(())
}

/// Records, and those that follow them.
pub struct Later {
    pub before: &'static [&'static [u8]],
    pub after: &'static [&'static [u8]],
}

/// Fails unless the replica of the mailbox before becomes that of the later one.
pub fn follow(alloc: Global, later: &Later) -> Result<(), Fail> {
    let mut live = new_mailbox(alloc);
    apply(alloc, &mut live, later.before)?;
    let mut replica = replica_of(alloc, &live)?;
    let mut listener = replica_of(alloc, &live)?;
    apply(alloc, &mut live, later.after)?;
    catch_up(alloc, &mut replica, &live)?;
    hear_each(alloc, &mut listener, &live)
}
