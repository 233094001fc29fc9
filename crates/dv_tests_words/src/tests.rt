ghost use Rattle.std.specs.Prelude.{◌≡◌, ◌+◌, ◌++◌, ◌∷◌, [], ◌*◌, ◌^◌, ◌<◌, ◌≤◌, length, IfOk, OnErr, OnOk};
ghost use Rattle.dv_model.specs.Spelling.{group_text};
ghost use Rattle.dv_front.specs.Notes.{AreNotes};
ghost use Rattle.dv_feed.specs.Appends.{append_note, appends_from};
ghost use Rattle.dv_generations.specs.Feeds.{Fits, journal};

use dv_feed::{Taken, take};
use dv_front::{Leaf, NamesNote};
use dv_generations::{Generations, Next};
use dv_model::{List, Mailbox, Mark, NoMemory};
use dv_naming::{Keeping, Names, new_names};
use std::alloc::Global;
use std::marker::Brand;
use std::test::*;

// Whether these are so many words of the feed of appends of UIDs 1, 2 and so on by author 1.
pub(crate) fn are_words(words: &List<u32>, count: u32) -> bool {
    let words = words.as_slice();
    if words.len() != count as usize {
        return false;
    }
    for at in 0..count {
        let word = match at % 6 {
            0 => 0x00000001,
            1 => 0x00000004,
            2 => 0x84808080,
            3 => 0x10000002,
            4 => at / 6 + 1,
            _ => 0x00000000,
        };
        if words[at as usize] != word {
            return false;
        }
    }
    true
}

// The text of the append of a UID.
fn append_text(uid: u32) -> [u8; 16]
    ensures { group_text (append_note uid).entry.group ≡ result }
{
    let [a, b, c, d] = uid.to_le_bytes();
    [
        0x80, 0x80, 0x80, 0x84, 0x02, 0x00, 0x00, 0x10, a, b, c, d, 0x00, 0x00, 0x00, 0x00,
    ]
}

// Publishes the append of a UID, which the caller names.
fn publish_append<K: Keeping, J: NamesNote>(
    feed: &mut Generations<K>,
    next: Option<Next<K>>,
    uid: u32,
)
    requires note { J.note ≡ append_note uid }
    requires good { AreNotes K.start.start K.start.start_mark (journal feed.old ++ append_note uid ∷ []) }
    requires fits { Fits 4 feed.old next }
    ensures { journal feed.new ≡ journal feed.old ++ append_note uid ∷ [] }
{
    feed.publish::<J>(next, 1, &append_text(uid));
}

// Publishes the append of the UID behind those that were published.
pub(crate) fn publish_next<K: Keeping>(
    alloc: Global,
    feed: &mut Generations<K>,
    last: u32,
) -> Result<(), NoMemory>
    requires start { (K.start.start.next_uid ≡ 1) × (K.start.start_mark.offset ≤ 131072) }
    requires few { last < 1000 }
    requires before { journal feed.old ≡ appends_from 1 last }
    ensures ok { OnOk result (journal feed.new ≡ appends_from 1 (last + 1)) }
    ensures err { OnErr result (journal feed.new ≡ appends_from 1 last) }
{
    let Ok(next) = feed.ready(alloc, 4) else {
        return Err(NoMemory);
    };
    publish_append::<K, Brand>(feed, next, last + 1);
    Ok(())
}

// Publishes the appends of the UIDs up to the last.
fn publish_up_to<K: Keeping>(
    alloc: Global,
    feed: &mut Generations<K>,
    last: u32,
) -> Result<(), NoMemory>
    requires start { (K.start.start.next_uid ≡ 1) × (K.start.start_mark.offset ≤ 131072) }
    requires few { last ≤ 1000 }
    requires before { journal feed.old ≡ [] }
{
    for uid in 0..last {
        publish_next(alloc, feed, uid)?;
    }
    Ok(())
}

// Takes the words of all generations behind the first, each in turn.
fn take_behind<K: Keeping>(
    alloc: Global,
    feed: &mut Generations<K>,
    leaf: &mut Leaf,
    words: &mut List<u32>,
) -> Result<u64, NoMemory>
    requires { leaf.old.table ≡ K.roll }
{
    let count = feed.count();
    for number in 1..count {
        let mut pass = feed.pass_of(number + 1, leaf)?;
        take(alloc, &mut pass, words)?;
    }
    Ok(count)
}

// A session that begins before so many appends, and reads them all when they are published: whether
// it takes all words, whether its first generation was sealed by then, and how many there are.
fn sleep_through<K: Keeping>(
    alloc: Global,
    mut feed: Generations<K>,
    appends: u32,
) -> Result<(bool, bool, u64), NoMemory>
    requires start { (K.start.start.next_uid ≡ 1) × (K.start.start_mark.offset ≤ 131072) }
    requires few { appends ≤ 1000 }
    requires new { feed.parts ≡ [] ∷ [] }
{
    let mut leaf = feed.leaf()?;
    let mut pass = feed.pass_of(1, &mut leaf)?;
    publish_up_to(alloc, &mut feed, appends)?;
    let mut words = List::new(alloc);
    let told = take(alloc, &mut pass, &mut words)?;
    let count = take_behind(alloc, &mut feed, &mut leaf, &mut words)?;
    Ok((
        are_words(&words, 6 * appends),
        told == Taken::Rotated,
        count,
    ))
}

// The same under names that the caller picks, with tables of so many words.
fn run_named<K: Keeping>(
    alloc: Global,
    names: Names,
    mailbox: &Mailbox,
    words: u32,
    appends: u32,
) -> Result<(bool, bool, u64), NoMemory>
    requires roll { (names.roll.table ≡ K.roll) × (names.roll.items ≡ []) }
    requires start { (K.start.start ≡ mailbox.now) × (mailbox.now.next_uid ≡ 1) }
    requires mark { K.start.start_mark ≡ record { file_seq = 1; offset = 40 } }
    requires count { K.count ≡ 0 }
    requires words { 1 ≤ words }
    requires few { appends ≤ 1000 }
{
    let Names { roll, .. } = names;
    let mark = Mark {
        file_seq: 1,
        offset: 40,
    };
    let feed = Generations::<K>::new(alloc, roll, words, mailbox, mark, 0)?;
    sleep_through(alloc, feed, appends)
}

// A mailbox without messages, which has given out no UID.
pub(crate) fn empty_mailbox(alloc: Global) -> Mailbox
    ensures { result.next_uid ≡ 1 }
{
    Mailbox {
        uid_validity: 1,
        next_uid: 1,
        rows: List::new(alloc),
        keywords: List::new(alloc),
        extensions: List::new(alloc),
        current: None,
        highest: 1,
    }
}

// Picks the names.
fn run(alloc: Global, words: u32, appends: u32) -> Result<(bool, bool, u64), NoMemory>
    requires words { 1 ≤ words }
    requires few { appends ≤ 1000 }
{
    let names = new_names(alloc, 1)?;
    let mailbox = empty_mailbox(alloc);
    run_named::<Brand>(alloc, names, &mailbox, words, appends)
}

#[test]
fn words_of_one_generation_are_read(rt: HostRuntime) -> Result<(), Fail> {
    assert_eq!(rt; run(rt.alloc(), 64, 10)?, (true, false, 1));
    Ok(())
}

#[test]
fn reader_that_slept_through_three_generations_reads_all(rt: HostRuntime) -> Result<(), Fail> {
    assert_eq!(rt; run(rt.alloc(), 64, 40)?, (true, true, 4));
    Ok(())
}

#[test]
fn thousand_appends_are_read_through_a_hundred_generations(rt: HostRuntime) -> Result<(), Fail> {
    assert_eq!(rt; run(rt.alloc(), 64, 1000)?, (true, true, 100));
    Ok(())
}

#[test]
fn group_that_is_longer_than_a_table_has_a_table_of_its_size(rt: HostRuntime) -> Result<(), Fail> {
    assert_eq!(rt; run(rt.alloc(), 1, 3)?, (true, true, 4));
    Ok(())
}
