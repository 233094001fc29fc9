//! What a session does in its thread.

ghost use Rattle.std.specs.Prelude.{◌≡◌, All, OnOk, false, true};
ghost use Rattle.dv_serving.specs.Servable.{IsServable};

use crate::fault::Fault;
use crate::script::parts_of;
use dv_feed::Taken;
use dv_keeper::Keeper;
use dv_member::Session;
use dv_model::{Bytes, Command, NoMemory};
use dv_naming::{Keeping, Tally};
use dv_responses::{is_write, reads_mail};
use dv_shelf::{Clock, Shelf};
use dv_texts::ReplyText;
use dv_view::Replies;
use std::alloc::Global;
use std::sync::Wait;
use std::time::Duration;
use std::{io, thread, time};

/// How sessions go on, by times in nanoseconds.
#[derive(Clone, Copy)]
pub struct Plan {
    /// The most rounds of a session.
    pub rounds: u64,
    /// How long after its first round no more begins.
    pub span: u64,
    /// From one beginning to the next of the first session's rounds, at least.
    pub pace: u64,
    /// The other sessions keep the rounds in which messages came, and no more.
    pub watch: bool,
}

/// The moments at which a round began and ended, in nanoseconds by the system's clock.
pub type Round = (u64, u64);

// The moment that it is.
fn moment_now<R: time::Clock>(rt: &R) -> io::Result<u64> {
    let nanos = rt.monotonic()?.as_nanos();
    Ok(u64::try_from(nanos).unwrap_or(u64::MAX))
}

// Sleeps until a moment, unless that has passed, and gives the moment that it is then.
fn sleep_until<R: time::Clock>(rt: &R, moment: u64) -> io::Result<u64> {
    let now = moment_now(rt)?;
    if now >= moment {
        return Ok(now);
    }
    thread::sleep(rt, Duration::from_nanos(moment - now));
    moment_now(rt)
}

// The session sees all that was published.
fn see_all<S: Shelf, C: Clock, K: Keeping, L: Tally, M: Tally, R: Wait>(
    rt: &R,
    keeper: &Keeper<S, C, K, L, M>,
    s: &mut Session<K, L, M>,
) -> Result<(), NoMemory>
    requires fresh { s.old.spent ≡ false }
    ensures fresh { s.new.spent ≡ false }
    ensures state { s.new.follower.state ≡ s.old.follower.state }
    ensures caught { OnOk result (s.new.caught_up ≡ true) }
{
    match s.refresh()? {
        Taken::Fresh => Ok(()),
        Taken::Rotated => keeper.rejoin(rt, s),
    }
}

// Answers a command that reads no messages. After a fault the session may be spent.
fn answer<S: Shelf, C: Clock, K: Keeping, L: Tally, M: Tally, R: Wait>(
    rt: &R,
    keeper: &Keeper<S, C, K, L, M>,
    s: &mut Session<K, L, M>,
    c: &Command,
    replies: &mut ReplyText,
) -> Result<(), Fault>
    requires fresh { s.old.spent ≡ false }
    requires servable { IsServable c.now }
    ensures { OnOk result (s.new.spent ≡ false) }
{
    if s.refuse(c).is_some() || reads_mail(c) {
        return Err(Fault::BadScript);
    }
    if is_write(c) {
        return match keeper.write(rt, s, c, replies) {
            Ok(()) => Ok(()),
            Err(_) => Err(Fault::NoMemory),
        };
    }
    see_all(rt, keeper, s)?;
    s.answer(c, replies)?;
    Ok(())
}

// Answers all commands once. The replies are dropped.
fn answer_all<S: Shelf, C: Clock, K: Keeping, L: Tally, M: Tally, R: Wait>(
    rt: &R,
    alloc: Global,
    keeper: &Keeper<S, C, K, L, M>,
    s: &mut Session<K, L, M>,
    commands: &[Command],
    replies: &mut ReplyText,
) -> Result<(), Fault>
    requires fresh { s.old.spent ≡ false }
    requires servable { All IsServable commands.now }
    ensures { OnOk result (s.new.spent ≡ false) }
{
    for at in 0..commands.len() {
        answer(rt, keeper, s, &commands[at], replies)?;
        replies.cut(alloc, 0);
    }
    Ok(())
}

// Has a session answer SELECT, and then in each round all commands.
fn run_rounds<S: Shelf, C: Clock, K: Keeping, L: Tally, M: Tally, R: Wait + time::Clock>(
    rt: &R,
    alloc: Global,
    keeper: &Keeper<S, C, K, L, M>,
    plan: Plan,
    commands: &[Command],
    s: &mut Session<K, L, M>,
    replies: &mut ReplyText,
    kept: &mut Vec<Round>,
) -> Result<(), Fault>
    requires fresh { s.old.spent ≡ false }
    requires servable { All IsServable commands.now }
{
    let first = s.number() == 1;
    answer(rt, keeper, s, &Command::Select, replies)?;
    let mut due = moment_now(rt)?;
    let end = due.saturating_add(plan.span);
    for _round in 0..plan.rounds {
        let begun = sleep_until(rt, due)?;
        if begun > end {
            break;
        }
        let next = s.live().next_uid();
        answer_all(rt, alloc, keeper, s, commands, replies)?;
        if first || !plan.watch || s.live().next_uid() != next {
            kept.push((begun, moment_now(rt)?))?;
        }
        due = due.saturating_add(if first { plan.pace } else { 0 });
    }
    Ok(())
}

// Runs the rounds of one session, by the commands of the part of its number.
fn run_part<S: Shelf, C: Clock, K: Keeping, L: Tally, M: Tally, R: Wait + time::Clock>(
    rt: &R,
    alloc: Global,
    keeper: &Keeper<S, C, K, L, M>,
    plan: Plan,
    text: &[u8],
    s: &mut Session<K, L, M>,
    kept: &mut Vec<Round>,
) -> Result<(), Fault>
    requires fresh { s.old.spent ≡ false }
{
    let parts = parts_of(alloc, text)?;
    let mut replies = ReplyText::new(alloc, Bytes::new(alloc));
    let at = (s.number() as usize).saturating_sub(1);
    match parts.get(at) {
        Some(part) => run_rounds(
            rt,
            alloc,
            keeper,
            plan,
            part.commands.as_slice(),
            s,
            &mut replies,
            kept,
        ),
        None => Err(Fault::BadScript),
    }
}

/// Runs one session by its own lines of the script. The rounds that it kept are given.
pub fn run_session<S: Shelf, C: Clock, K: Keeping, L: Tally, M: Tally, R: Wait + time::Clock>(
    rt: &R,
    alloc: Global,
    keeper: &Keeper<S, C, K, L, M>,
    plan: Plan,
    text: &[u8],
    mut s: Session<K, L, M>,
) -> Result<Vec<Round>, Fault>
    requires fresh { s.spent ≡ false }
{
    let mut kept = Vec::new(alloc);
    match run_part(rt, alloc, keeper, plan, text, &mut s, &mut kept) {
        Ok(()) => Ok(kept),
        Err(fault) => Err(fault),
    }
}
