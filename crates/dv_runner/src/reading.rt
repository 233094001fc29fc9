//! Commands that take no lock, but where a table of words is sealed.

ghost use Rattle.std.specs.Prelude.{◌≡◌, IfOk, None, OnErr, OnOk, Some, false, true};
ghost use mathlib.Core.List.{IsPrefix};
ghost use Rattle.dv_answer.specs.Refusing.{own_refusal};
ghost use Rattle.dv_keeper.specs.Turns.{HasAnswered};
ghost use Rattle.dv_member.specs.Members.{notes_of};
ghost use Rattle.dv_model.specs.Sessions.{is_write, reads_mail};
ghost use Rattle.dv_responses.specs.Depth.{IsShallow};
ghost use Rattle.dv_runner.specs.Serving.{IsSeeing, IsServed, IsUnserved};
ghost use Rattle.dv_serving.specs.Taking.{Takes};
ghost use Rattle.dv_view.specs.Taken.{HasTaken};

use dv_feed::Taken;
use dv_keeper::Keeper;
use dv_member::Session;
use dv_model::{Command, NoMemory, Reply};
use dv_naming::{Keeping, Tally};
use dv_responses::Responses;
use dv_shelf::{Clock, Shelf};
use std::sync::Wait;

/// Answers a command that the session refuses by itself with this one line. `NoMemory` is the only
/// error; the session stays.
pub(crate) fn tell_refusal<K: Keeping, L: Tally, M: Tally, T: Responses>(
    s: &Session<K, L, M>,
    c: &Command,
    line: Reply,
    replies: &mut T,
) -> Result<(), NoMemory>
    requires fresh { s.now.spent ≡ false }
    requires refused { own_refusal s.now.follower.state c.now ≡ Some line }
    ensures turn { Takes T.with replies.old replies.new result (λ told.
        IfOk told (λ lines. HasAnswered K.start K.count c.now lines s.now s.now)) }
    ensures replies { OnErr result (HasTaken T.with replies.old replies.new) }
{
    // What is so of each session is known then.
    s.number();
    replies.take(line)
}

/// A session sees all that was published, at some moment of the call: in its table, and where that
/// is sealed under the lock. `NoMemory` is the only error.
fn see_all<S: Shelf, C: Clock, K: Keeping, L: Tally, M: Tally, R: Wait>(
    rt: &R,
    keeper: &Keeper<S, C, K, L, M>,
    s: &mut Session<K, L, M>,
) -> Result<(), NoMemory>
    requires fresh { s.old.spent ≡ false }
    ensures begins { IsPrefix (notes_of s.old) (notes_of s.new) }
    ensures seeing { IsSeeing s.old s.new }
    ensures caught { OnOk result (s.new.caught_up ≡ true) }
{
    match s.refresh()? {
        Taken::Fresh => Ok(()),
        Taken::Rotated => keeper.rejoin(rt, s),
    }
}

/// Serves a command that writes nothing and reads no messages, over all that was published. After
/// `NoMemory`, which is the only error, the session may have seen more, and some lines may have
/// been added.
pub(crate) fn serve_read<S: Shelf, C: Clock, K: Keeping, L: Tally, M: Tally, R: Wait, T: Responses>(
    rt: &R,
    keeper: &Keeper<S, C, K, L, M>,
    s: &mut Session<K, L, M>,
    c: &Command,
    replies: &mut T,
) -> Result<(), NoMemory>
    requires fresh { s.old.spent ≡ false }
    requires read { (is_write c.now ≡ false) × (reads_mail c.now ≡ false) }
    requires shallow { IsShallow c.now }
    requires allowed { own_refusal s.old.follower.state c.now ≡ None }
    ensures begins { IsPrefix (notes_of s.old) (notes_of s.new) }
    ensures ok { OnOk result (IsServed c.now s.old s.new) }
    ensures err { OnErr result (IsUnserved s.old s.new) }
    ensures turn { Takes T.with replies.old replies.new result (λ told.
        IfOk told (λ lines. HasAnswered K.start K.count c.now lines s.old s.new)) }
    ensures replies { OnErr result (HasTaken T.with replies.old replies.new) }
{
    s.number();
    see_all(rt, keeper, s)?;
    s.number();
    s.answer(c, replies)
}
