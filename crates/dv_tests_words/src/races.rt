ghost use Rattle.std.specs.Prelude.{◌≡◌, ◌+◌, ◌∷◌, [], ◌≤◌, ◌<◌, ◌^◌, IsTrue, is_some, IfOk};
ghost use Rattle.dv_feed.specs.Appends.{appends_from};
ghost use Rattle.dv_generations.specs.Feeds.{journal};

use crate::tests::{are_words, empty_mailbox, publish_next};
use dv_feed::{Taken, take};
use dv_front::{Leaf, Pass};
use dv_generations::Generations;
use dv_model::{List, Mailbox, Mark, NoMemory};
use dv_naming::{Keeping, Names, new_names};
use std::alloc::Global;
use std::marker::Brand;
use std::sync::{Mutex, Wait};
use std::test::*;
use std::thread;
use std::thread::Threads;

// What two threads share. All generations are one value, so publishing takes the lock, and so does
// asking for the pass of a later generation; words are taken without it.
#[derive(Drop)]
struct Desk<K: Keeping> {
    feed: Generations<K>,
    last: u32,
    ghost next_uid: { K.start.start.next_uid ≡ 1 },
    ghost offset: { K.start.start_mark.offset ≤ 131072 },
    ghost appended: { journal feed ≡ appends_from 1 last },
}

impl<K: Keeping> Desk<K> {
    // Publishes the next append, of at most a thousand.
    fn publish(&mut self, alloc: Global) -> Result<(), NoMemory> {
        if self.last < 1000 {
            publish_next(alloc, &mut self.feed, self.last)?;
            self.last += 1;
        }
        Ok(())
    }

    // The pass of the generation behind this one, if there is one.
    fn pass_behind(&mut self, number: u64, leaf: &mut Leaf) -> Result<Option<Pass>, NoMemory>
        requires roll { leaf.old.table ≡ K.roll }
        ensures roll { leaf.new.table ≡ K.roll }
        ensures number { IfOk result (λ p. IsTrue (is_some p) → number + 1 < 2 ^ 64) }
    {
        if number < self.feed.count() {
            Ok(Some(self.feed.pass_of(number + 1, leaf)?))
        } else {
            Ok(None)
        }
    }
}

// Publishes the appends of the UIDs 1 to 1,000, each under a lock of its own.
fn publish_all<K: Keeping, R: Wait>(
    rt: &R,
    alloc: Global,
    desk: &Mutex<Desk<K>>,
) -> Result<(), NoMemory> {
    for _ in 0..1000 {
        desk.lock(rt).publish(alloc)?;
    }
    Ok(())
}

// Takes until there are so many words, for at most ten million turns, one generation after another
// from the first; and the number of the last.
fn take_until<K: Keeping, R: Wait>(
    rt: &R,
    alloc: Global,
    desk: &Mutex<Desk<K>>,
    mut pass: Pass,
    leaf: &mut Leaf,
    count: usize,
) -> Result<(List<u32>, u64), NoMemory>
    requires roll { leaf.old.table ≡ K.roll }
{
    let mut words = List::new(alloc);
    let mut number = 1;
    for _ in 0..10_000_000 {
        let told = take(alloc, &mut pass, &mut words)?;
        if words.len() >= count {
            break;
        }
        if told == Taken::Rotated {
            let next = desk.lock(rt).pass_behind(number, leaf)?;
            if let Some(next) = next {
                pass = next;
                number += 1;
            }
        }
        thread::yield_now();
    }
    Ok((words, number))
}

// Whether a thread takes all words while another publishes a thousand appends, and in which
// generation the last of them are.
fn race_of<K: Keeping + Send + Sync, R: Threads + Wait + Sync>(
    rt: &R,
    alloc: Global,
    mut feed: Generations<K>,
) -> Result<(bool, u64), NoMemory>
    requires start { (K.start.start.next_uid ≡ 1) × (K.start.start_mark.offset ≤ 131072) }
    requires new { feed.parts ≡ [] ∷ [] }
{
    let mut leaf = feed.leaf()?;
    let pass = feed.pass_of(1, &mut leaf)?;
    let desk = Mutex::new(Desk { feed, last: 0 });
    let (published, taken) = thread::join(
        rt,
        || publish_all(rt, alloc, &desk),
        || -> Result<(List<u32>, u64), NoMemory>
            requires { leaf.table ≡ K.roll }
        { take_until(rt, alloc, &desk, pass, &mut leaf, 6000) },
    );
    published?;
    let (words, number) = taken?;
    Ok((are_words(&words, 6000), number))
}

// The same under names that the caller picks, with tables of so many words.
fn race_named<K: Keeping + Send + Sync, R: Threads + Wait + Sync>(
    rt: &R,
    alloc: Global,
    names: Names,
    mailbox: &Mailbox,
    words: u32,
) -> Result<(bool, u64), NoMemory>
    requires roll { (names.roll.table ≡ K.roll) × (names.roll.items ≡ []) }
    requires start { (K.start.start ≡ mailbox.now) × (mailbox.now.next_uid ≡ 1) }
    requires mark { K.start.start_mark ≡ record { file_seq = 1; offset = 40 } }
    requires count { K.count ≡ 0 }
    requires words { 1 ≤ words }
{
    let Names { roll, .. } = names;
    let mark = Mark {
        file_seq: 1,
        offset: 40,
    };
    let feed = Generations::<K>::new(alloc, roll, words, mailbox, mark, 0)?;
    race_of::<K, R>(rt, alloc, feed)
}

// Picks the names.
fn race<R: Threads + Wait + Sync>(
    rt: &R,
    alloc: Global,
    words: u32,
) -> Result<(bool, u64), NoMemory>
    requires words { 1 ≤ words }
{
    let names = new_names(alloc, 1)?;
    let mailbox = empty_mailbox(alloc);
    race_named::<Brand, R>(rt, alloc, names, &mailbox, words)
}

#[test]
fn thousand_appends_go_from_thread_to_thread_across_seals(rt: HostRuntime) -> Result<(), Fail> {
    assert_eq!(rt; race(&rt, rt.alloc(), 64)?, (true, 100));
    Ok(())
}
