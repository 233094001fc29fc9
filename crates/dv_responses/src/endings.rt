ghost use Rattle.std.specs.Prelude.{◌≡◌, ℕ, min, option_map};
ghost use Rattle.std.specs.List.{reduce};
ghost use Rattle.dv_model.specs.declared.types.Mailbox.{Mailbox};
ghost use Rattle.dv_model.specs.Journals.{Mail as Message};
ghost use Rattle.dv_model.specs.Sessions.{ending_of, gone_uid};
ghost use Rattle.dv_model.specs.Views.{View as ShownRows};
ghost use Rattle.dv_responses.specs.Damaged.{damaged_uids};
ghost use Rattle.dv_responses.specs.Met.{met_of};

use crate::kinds::word_of;
use crate::meeting::Met;
use dv_model::{Command, Mark, Reply};
use dv_view::Live;

// The smallest of these UIDs.
fn smallest(uids: &[u32]) -> Option<u32>
    ensures { result ≡ reduce min uids.now }
{
    uids.iter().copied().min()
}

// The UIDVALIDITY and the UID of a message that was appended.
fn appended_in(live: &Live, uid: Option<u32>) -> Option<(u32, u32)>
    ensures { result ≡ option_map (λ uid. (live.now.mailbox.uid_validity, uid)) uid }
{
    match uid {
        Some(uid) => Some((live.uid_validity(), uid)),
        None => None,
    }
}

/// The last line of the answer to a command: Gone with the smallest UID that it looks at and the
/// mailbox lacks, where there is one (RFC 5530, EXPUNGEISSUED); or else Damaged with the smallest
/// of the damaged (RFC 5530, CORRUPTION); or else Done. It has the mark that the session is told
/// to, and what the command took from the mailbox that it met. Takes no memory.
pub fn ending(
    c: &Command,
    gone: Option<u32>,
    damaged: &[u32],
    live: &Live,
    met: Met,
    mark: Mark,
) -> Reply
    ensures { (mail : ℕ → Message) (view : ShownRows) (met_mailbox : Mailbox)
        → gone ≡ gone_uid c.now view live.now.mailbox → met ≡ met_of c.now view met_mailbox
        → damaged.now ≡ damaged_uids mail c.now view live.now.mailbox
        → result ≡ ending_of mail c.now view met_mailbox live.now.mailbox mark }
{
    let Met { appended, modified } = met;
    if let Some(uid) = gone {
        return Reply::Gone {
            uid,
            mark,
            modified,
        };
    }
    if let Some(uid) = smallest(damaged) {
        return Reply::Damaged { uid, mark };
    }
    Reply::Done {
        word: word_of(c),
        mark,
        appended: appended_in(live, appended),
        modified,
    }
}
