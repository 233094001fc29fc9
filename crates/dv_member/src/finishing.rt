ghost use Rattle.std.specs.Prelude.{◌≡◌, ℕ, None, OnErr, OnOk};
ghost use Rattle.dv_model.specs.declared.types.Mailbox.{Mailbox};
ghost use Rattle.dv_model.specs.Journals.{Mail as Message};
ghost use Rattle.dv_model.specs.Mailboxes.{IsValid};
ghost use Rattle.dv_model.specs.Sessions.{answer, data_of};
ghost use Rattle.dv_responses.specs.Damaged.{damaged_uids};
ghost use Rattle.dv_responses.specs.Depth.{IsShallow};
ghost use Rattle.dv_responses.specs.Met.{met_of};
ghost use Rattle.dv_answer.specs.Answers.{IsAnswered};
ghost use Rattle.dv_answer.specs.Following.{IsAbreast};
ghost use Rattle.dv_answer.specs.Refusing.{own_refusal};
ghost use Rattle.dv_view.specs.Taken.{HasTaken};
ghost use Rattle.dv_member.specs.Batches.{IsTold, Leads};

use crate::batch::Ready;
use crate::mirror::Mirror;
use dv_apply::Live;
use dv_model::{Command, NoMemory};
use dv_responses::{Met, Responses};

/// Finishes the answer to a command that isn't refused, whose data lines were taken, at what was
/// made ready, of which this is the mailbox, and then shows that. After `NoMemory`, which is the
/// only error, all is as before, and some lines may have been added.
pub(crate) fn finish_ready<R: Responses>(
    m: &mut Mirror,
    ready: Ready,
    live: &Live,
    c: &Command,
    damaged: &[u32],
    met: Met,
    replies: &mut R,
) -> Result<(), NoMemory>
    requires shallow { IsShallow c.now }
    requires allowed { own_refusal m.old.session.state c.now ≡ None }
    requires leads { Leads m.old live.now.mailbox ready }
    requires abreast { IsAbreast m.old.live.mailbox m.old.session
        × IsValid m.old.live.mailbox × IsValid live.now.mailbox }
    ensures answer { (mail : ℕ → Message) (met_mailbox : Mailbox) (start : R)
        → met ≡ met_of c.now m.old.session.state.view met_mailbox
        → damaged.now ≡ damaged_uids mail c.now m.old.session.state.view live.now.mailbox
        → replies.old ≡ R.with start (data_of mail c.now m.old.session.state.view live.now.mailbox)
        → OnOk result (IsAnswered R.with start replies.new m.new.session.state
        (answer mail m.old.session.state c.now met_mailbox ready.seen live.now.mailbox
        ready.mark)) }
    ensures ok { OnOk result (IsTold live.now.mailbox ready m.old m.new) }
    ensures err { OnErr result (m.new ≡ m.old) }
    ensures replies { OnErr result (HasTaken R.with replies.old replies.new) }
{
    let Ready {
        prepared,
        touched,
        mark,
        seen,
    } = ready;
    let before = m.session.replace_touched(touched);
    match m.session.finish(c, live, damaged, met, mark, seen, replies) {
        Ok(()) => {
            m.live.complete(prepared);
            m.seen = seen;
            m.mark = mark;
            m.told_mark = mark;
            Ok(())
        }
        Err(e) => {
            m.session.replace_touched(before);
            Err(e)
        }
    }
}
