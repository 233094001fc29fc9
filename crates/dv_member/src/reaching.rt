ghost use Rattle.std.specs.Prelude.{◌≡◌, ◌-◌, ◌≤◌, IfOk, OnErr, OnOk, Some, false, length};
ghost use mathlib.Core.List.{IsPrefix};
ghost use Rattle.dv_front.specs.Rolls.{table_at};
ghost use Rattle.dv_generations.specs.Feeds.{front_of, journal};
ghost use Rattle.dv_member.specs.Batches.{Gathers};
ghost use Rattle.dv_member.specs.Inside.{IsMember};
ghost use Rattle.dv_member.specs.Members.{IsStart};
ghost use Rattle.dv_member.specs.Reaching.{Arrives, Grows, IsLast, Knows, Reaches, TakesAll, arrived};

use crate::batch::{Batch, Ready, add_words, make_ready};
use crate::mirror::Mirror;
use crate::reader::Reader;
use crate::refreshing::new_batch;
use dv_feed::take;
use dv_front::{Leaf, Pass};
use dv_generations::Generations;
use dv_model::{List, NoMemory};
use dv_naming::Keeping;
use std::alloc::Global;

/// What brings a session to the end of the log, without memory.
#[derive(Drop)]
pub(crate) struct Reached {
    pub(crate) ready: Ready,
    /// The pass of the newest generation, where it isn't the session's.
    pub(crate) pass: Option<Pass>,
    /// The number of the newest generation.
    pub(crate) generation: u64,
}

// Takes all words of a generation that the pass hasn't taken. After `NoMemory`, which is the only
// error, none is taken.
fn take_all<K: Keeping>(
    alloc: Global,
    feed: &mut Generations<K>,
    number: u64,
    pass: &mut Pass,
    leaf: &mut Leaf,
    words: &mut List<u32>,
) -> Result<(), NoMemory>
    requires roll { leaf.old.table ≡ K.roll }
    requires table { table_at leaf.old.items number ≡ Some pass.old.table }
    ensures ok { OnOk result
        (TakesAll K.start K.count feed.old number pass.old words.old pass.new words.new) }
    ensures err { OnErr result ((words.new ≡ words.old) × (pass.new.taken ≡ pass.old.taken)) }
    ensures grows { Grows pass.old pass.new }
    ensures leaf { Knows K.roll feed.old leaf.old leaf.new }
    ensures table { table_at leaf.new.items number ≡ Some pass.new.table }
    ensures feed { feed.new ≡ feed.old }
{
    feed.show(number, pass, leaf);
    take(alloc, pass, words)?;
    feed.show(number, pass, leaf);
    Ok(())
}

// A pass of a generation that has taken all of its words, whose entries are added to the batch.
fn next_pass<K: Keeping>(
    alloc: Global,
    feed: &mut Generations<K>,
    number: u64,
    leaf: &mut Leaf,
    from: u64,
    batch: &mut Batch,
) -> Result<Pass, NoMemory>
    requires start { IsStart K.start }
    requires roll { leaf.old.table ≡ K.roll }
    requires number { (1 ≤ number) × (number ≤ length feed.old.parts) }
    requires batch { Gathers K.start from (front_of feed.old (number - 1)) batch.old }
    ensures batch { OnOk result (Gathers K.start from (front_of feed.old number) batch.new) }
    ensures pass { IfOk result (Arrives K.start K.count feed.old number leaf.new) }
    ensures leaf { Knows K.roll feed.old leaf.old leaf.new }
    ensures feed { feed.new ≡ feed.old }
{
    let mut pass = feed.pass_of(number, leaf)?;
    let mut words = List::new(alloc);
    take_all(alloc, feed, number, &mut pass, leaf, &mut words)?;
    add_words(alloc, batch, &words)?;
    Ok(pass)
}

// Adds the entries of all generations behind one, and gives the last one's pass.
fn follow_on<K: Keeping>(
    alloc: Global,
    feed: &mut Generations<K>,
    first: u64,
    leaf: &mut Leaf,
    from: u64,
    batch: &mut Batch,
) -> Result<Option<Pass>, NoMemory>
    requires start { IsStart K.start }
    requires leaf { Knows K.roll feed.old leaf.old leaf.old }
    requires first { (1 ≤ first) × (first ≤ length feed.old.parts) }
    requires batch { Gathers K.start from (front_of feed.old first) batch.old }
    ensures batch { OnOk result (Gathers K.start from (journal feed.old) batch.new) }
    ensures pass { IfOk result
        (IsLast K.start K.count feed.old first (length feed.old.parts) leaf.new) }
    ensures leaf { Knows K.roll feed.old leaf.old leaf.new }
    ensures feed { feed.new ≡ feed.old }
{
    let mut last = None;
    for before in first..feed.count() {
        last = Some(next_pass(alloc, feed, before + 1, leaf, from, batch)?);
    }
    Ok(last)
}

/// Takes all the memory that it asks for to bring a session to the end of the log. What it has seen
/// and was told is as before, also after `NoMemory`, which is the only error.
pub(crate) fn reach<K: Keeping>(
    alloc: Global,
    feed: &mut Generations<K>,
    r: &mut Reader,
    m: &mut Mirror,
) -> Result<Reached, NoMemory>
    requires member { IsMember K.roll K.start K.count r.old m.old false }
    ensures member { IsMember K.roll K.start K.count r.new m.new false }
    ensures reached { IfOk result (Reaches K.start K.count feed.old r.new m.new) }
    ensures pass { (r.new.generation ≡ r.old.generation) × Grows r.old.pass r.new.pass }
    ensures leaf { Knows K.roll feed.old r.old.leaf r.new.leaf }
    ensures mirror { m.new ≡ record m.old { live = m.new.live } }
    ensures mailbox { m.new.live.mailbox ≡ m.old.live.mailbox }
    ensures feed { feed.new ≡ feed.old }
{
    take_all(
        alloc,
        feed,
        r.generation,
        &mut r.pass,
        &mut r.leaf,
        &mut r.words,
    )?;
    let mut batch = new_batch(alloc, m);
    add_words(alloc, &mut batch, &r.words)?;
    let pass = follow_on(alloc, feed, r.generation, &mut r.leaf, m.seen, &mut batch)?;
    let ready = make_ready(m, batch)?;
    Ok(Reached {
        ready,
        pass,
        generation: feed.count(),
    })
}

/// Goes on in the newest generation. Takes no memory.
pub(crate) fn arrive(alloc: Global, r: &mut Reader, generation: u64, pass: Option<Pass>)
    ensures { r.new ≡ arrived r.old generation pass }
{
    if let Some(pass) = pass {
        r.pass = pass;
    }
    r.generation = generation;
    r.words = List::new(alloc);
}
