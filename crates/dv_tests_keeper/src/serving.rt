//! One command of a session is served.

ghost use Rattle.std.specs.Prelude.{◌≡◌, Err, None, OnOk, Result, false, true};
ghost use Rattle.dv_answer.specs.Refusing.{own_refusal};
ghost use Rattle.dv_model.specs.Sessions.{is_write, reads_mail};
ghost use Rattle.dv_keeper.specs.declared.fault.SessionFault.TheVariants as session_fault;
ghost use Rattle.dv_responses.specs.Depth.{IsShallow};
ghost use Rattle.dv_serving.specs.Servable.{IsServable};

use crate::player::Trouble;
use dv_feed::Taken;
use dv_keeper::{Keeper, SessionFault};
use dv_member::Session;
use dv_model::{Command, NoMemory};
use dv_naming::{Keeping, Tally};
use dv_responses::{is_write, reads_mail};
use dv_shelf::{MemClock, MemShelf};
use dv_texts::ReplyText;
use dv_view::Replies;
use std::sync::Wait;

/// A keeper over a folder in memory.
pub type MemKeeper<K, L, M> = Keeper<MemShelf, MemClock, K, L, M>;

/// A session sees all that was published, under the lock where its table is sealed.
pub fn see_all<K: Keeping, L: Tally, M: Tally, R: Wait>(
    rt: &R,
    keeper: &MemKeeper<K, L, M>,
    s: &mut Session<K, L, M>,
) -> Result<(), NoMemory>
    requires fresh { s.old.spent ≡ false }
    ensures fresh { s.new.spent ≡ false }
    ensures state { s.new.follower.state ≡ s.old.follower.state }
    ensures caught { OnOk result (s.new.caught_up ≡ true) }
{
    match s.refresh()? {
        Taken::Fresh => Ok(()),
        Taken::Rotated => keeper.rejoin(rt, s),
    }
}

/// A session that knows its table to be sealed goes on in the newest.
pub fn rejoin<K: Keeping, L: Tally, M: Tally, R: Wait>(
    rt: &R,
    keeper: &MemKeeper<K, L, M>,
    s: &mut Session<K, L, M>,
) -> Result<(), Trouble>
    requires fresh { s.old.spent ≡ false }
    ensures fresh { s.new.spent ≡ false }
{
    if !s.knows_seal() {
        return Err(Trouble::Unlike);
    }
    Ok(keeper.rejoin(rt, s)?)
}

// Serves a command that writes nothing and reads no messages.
fn serve_read<K: Keeping, L: Tally, M: Tally, R: Wait>(
    rt: &R,
    keeper: &MemKeeper<K, L, M>,
    s: &mut Session<K, L, M>,
    c: &Command,
    replies: &mut ReplyText,
) -> Result<(), NoMemory>
    requires fresh { s.old.spent ≡ false }
    requires read { (is_write c.now ≡ false) × (reads_mail c.now ≡ false) }
    requires shallow { IsShallow c.now }
    requires allowed { own_refusal s.old.follower.state c.now ≡ None }
    ensures fresh { s.new.spent ≡ false }
{
    see_all(rt, keeper, s)?;
    s.answer(c, replies)
}

/// Serves a command of a session. Where memory runs out behind its entry it is spent.
pub fn serve<K: Keeping, L: Tally, M: Tally, R: Wait>(
    rt: &R,
    keeper: &MemKeeper<K, L, M>,
    s: &mut Session<K, L, M>,
    c: &Command,
    replies: &mut ReplyText,
) -> Result<(), SessionFault>
    requires fresh { s.old.spent ≡ false }
    requires servable { IsServable c.now }
    ensures ok { OnOk result (s.new.spent ≡ false) }
    ensures before { result ≡ Err session_fault.NoMemory → s.new.spent ≡ false }
{
    if let Some(line) = s.refuse(c) {
        replies.take(line)?;
        return Ok(());
    }
    if is_write(c) {
        return keeper.write(rt, s, c, replies);
    }
    if reads_mail(c) {
        keeper.mail(rt, s, c, replies)?;
        return Ok(());
    }
    serve_read(rt, keeper, s, c, replies)?;
    Ok(())
}
