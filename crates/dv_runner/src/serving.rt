//! One command of a session is served.

ghost use Rattle.std.specs.Prelude.{◌≡◌, IfOk, None, OnErr, OnOk, false, true};
ghost use mathlib.Core.List.{IsPrefix};
ghost use Rattle.dv_answer.specs.Refusing.{own_refusal};
ghost use Rattle.dv_keeper.specs.Turns.{HasAnswered};
ghost use Rattle.dv_member.specs.Members.{notes_of};
ghost use Rattle.dv_model.specs.Sessions.{is_write, reads_mail};
ghost use Rattle.dv_responses.specs.Depth.{IsShallow};
ghost use Rattle.dv_runner.specs.Serving.{IsCutShort, IsServed, IsUnserved};
ghost use Rattle.dv_serving.specs.Servable.{IsServable};
ghost use Rattle.dv_serving.specs.Taking.{Takes};
ghost use Rattle.dv_view.specs.Taken.{HasTaken};

use crate::reading::{serve_read, tell_refusal};
use dv_keeper::Keeper;
use dv_member::Session;
use dv_model::{Command, NoMemory};
use dv_naming::{Keeping, Tally};
use dv_responses::{Responses, is_write, reads_mail};
use dv_shelf::{Clock, Shelf};
use std::sync::Wait;

/// Serves a write that the session doesn't refuse by itself. After `NoMemory`, which is the only
/// error, nothing was written, or the session is spent behind its entry.
fn serve_write<S: Shelf, C: Clock, K: Keeping, L: Tally, M: Tally, R: Wait, T: Responses>(
    rt: &R,
    keeper: &Keeper<S, C, K, L, M>,
    s: &mut Session<K, L, M>,
    c: &Command,
    replies: &mut T,
) -> Result<(), NoMemory>
    requires fresh { s.old.spent ≡ false }
    requires servable { IsServable c.now }
    requires write { is_write c.now ≡ true }
    requires allowed { own_refusal s.old.follower.state c.now ≡ None }
    ensures begins { IsPrefix (notes_of s.old) (notes_of s.new) }
    ensures ok { OnOk result (IsServed c.now s.old s.new) }
    ensures err { OnErr result (IsCutShort K.start K.honest c.now s.old s.new) }
    ensures turn { K.honest → Takes T.with replies.old replies.new result (λ told.
        IfOk told (λ lines. HasAnswered K.start K.count c.now lines s.old s.new)) }
    ensures replies { OnErr result (HasTaken T.with replies.old replies.new) }
{
    s.number();
    match keeper.write(rt, s, c, replies) {
        Ok(()) => Ok(()),
        Err(_) => Err(NoMemory),
    }
}

/// Serves a command that reads messages, and that the session doesn't refuse by itself. After
/// `NoMemory`, which is the only error, the session may know more of the words.
fn serve_mail<S: Shelf, C: Clock, K: Keeping, L: Tally, M: Tally, R: Wait, T: Responses>(
    rt: &R,
    keeper: &Keeper<S, C, K, L, M>,
    s: &mut Session<K, L, M>,
    c: &Command,
    replies: &mut T,
) -> Result<(), NoMemory>
    requires fresh { s.old.spent ≡ false }
    requires shallow { IsShallow c.now }
    requires reads { reads_mail c.now ≡ true }
    requires allowed { own_refusal s.old.follower.state c.now ≡ None }
    ensures begins { IsPrefix (notes_of s.old) (notes_of s.new) }
    ensures ok { OnOk result (IsServed c.now s.old s.new) }
    ensures err { OnErr result (IsUnserved s.old s.new) }
    ensures turn { K.honest → Takes T.with replies.old replies.new result (λ told.
        IfOk told (λ lines. HasAnswered K.start K.count c.now lines s.old s.new)) }
    ensures replies { K.honest → OnErr result (HasTaken T.with replies.old replies.new) }
{
    keeper.mail(rt, s, c, replies)
}

/// Serves a command of a session: it is refused by the session itself; it writes, or it reads
/// messages, under the lock; or it is answered over what was published. The replies are taken as
/// they are made. `NoMemory` is the only error: then the session is as before, but that it may have
/// seen more, or it is spent behind its entry; and some lines may have been added.
pub(crate) fn serve_one<S: Shelf, C: Clock, K: Keeping, L: Tally, M: Tally, R: Wait, T: Responses>(
    rt: &R,
    keeper: &Keeper<S, C, K, L, M>,
    s: &mut Session<K, L, M>,
    c: &Command,
    replies: &mut T,
) -> Result<(), NoMemory>
    requires fresh { s.old.spent ≡ false }
    requires servable { IsServable c.now }
    ensures begins { IsPrefix (notes_of s.old) (notes_of s.new) }
    ensures ok { OnOk result (IsServed c.now s.old s.new) }
    ensures err { OnErr result (IsCutShort K.start K.honest c.now s.old s.new) }
    // The turn, by the session rules, over what its session has seen.
    ensures turn { K.honest → Takes T.with replies.old replies.new result (λ told.
        IfOk told (λ lines. HasAnswered K.start K.count c.now lines s.old s.new)) }
    ensures replies { K.honest → OnErr result (HasTaken T.with replies.old replies.new) }
{
    if let Some(line) = s.refuse(c) {
        return tell_refusal(s, c, line, replies);
    }
    if is_write(c) {
        return serve_write(rt, keeper, s, c, replies);
    }
    if reads_mail(c) {
        return serve_mail(rt, keeper, s, c, replies);
    }
    serve_read(rt, keeper, s, c, replies)
}
