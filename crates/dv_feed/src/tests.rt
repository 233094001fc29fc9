ghost use Rattle.std.specs.Prelude.{◌≡◌, ◌+◌, ◌-◌, ◌*◌, ◌++◌, ◌∷◌, [], ◌^◌, ◌<◌, ◌≤◌, false, length, IfOk};
ghost use Rattle.dv_model.specs.Spelling.{group_text};
ghost use Rattle.dv_front.specs.Ends.{new_pass, published};
ghost use Rattle.dv_front.specs.Notes.{AreGood};
ghost use Rattle.dv_feed.specs.Appends.{HasAppended, append_note};
ghost use Rattle.dv_feed.specs.Publishing.{with_entry};

use super::*;
use dv_front::{NamesNote, Pass, Pen, new_front, next_front, seal, words_taken};
use dv_model::{Body, Entry, List, Mailbox, Mark, NoMemory};
use std::alloc::Global;
use std::marker::Brand;
use std::test::*;
use std::thread;
use std::thread::Threads;

// A word of the feed of appends of UIDs 1, 2 and so on by author 1, by its place from 0.
fn word_at(at: u32) -> u32 {
    match at % 6 {
        0 => 0x00000001,
        1 => 0x00000004,
        2 => 0x84808080,
        3 => 0x10000002,
        4 => at / 6 + 1,
        _ => 0x00000000,
    }
}

// Whether these are so many words of that feed, from a place on.
fn are_words(words: &List<u32>, from: u32, count: u32) -> bool
    requires { from + count < 2 ^ 32 }
{
    let words = words.as_slice();
    if words.len() != count as usize {
        return false;
    }
    for at in 0..count {
        if words[at as usize] != word_at(from + at) {
            return false;
        }
    }
    true
}

// The text of the append of a UID.
fn append_text(uid: u32) -> [u8; 16]
    ensures { group_text (append_note uid).entry.group ≡ result }
{
    let [a, b, c, d] = uid.to_le_bytes();
    [
        0x80, 0x80, 0x80, 0x84, 0x02, 0x00, 0x00, 0x10, a, b, c, d, 0x00, 0x00, 0x00, 0x00,
    ]
}

// Publishes the append of a UID, which the caller names.
fn publish_append<J: NamesNote>(pen: &mut Pen, uid: u32)
    requires note { J.note ≡ append_note uid }
    requires good { AreGood pen.old.generation (pen.old.notes ++ append_note uid ∷ []) }
    requires room { length pen.old.put + 6 ≤ pen.old.generation.room }
    requires open { pen.old.sealed ≡ false }
    requires all { pen.old.put ≡ published pen.old }
    ensures { pen.new ≡ with_entry pen.old (append_note uid) }
{
    publish_group::<J>(pen, 1, &append_text(uid));
}

// Publishes the appends of the UIDs behind the first ones, up to the last.
fn publish_up_to(pen: &mut Pen, first: u32, last: u32)
    requires before { HasAppended pen.old first }
    requires range { (first ≤ last) × (last ≤ 1000) }
    requires room { length pen.old.put + 6 * (last - first) ≤ pen.old.generation.room }
    ensures after { HasAppended pen.new last }
    ensures words { length pen.new.put ≡ length pen.old.put + 6 * (last - first) }
    ensures generation { pen.new.generation ≡ pen.old.generation }
{
    for uid in first..last {
        publish_append::<Brand>(pen, uid + 1);
    }
}

// The ends of a first generation with so many words, of a log whose first entry stands at this
// place.
#[tactic(auto, using(crate::proofs::Instances::first_has_appended))]
fn first_ends(alloc: Global, words: u32, mark: Mark) -> Result<(Pen, Pass), NoMemory>
    requires words { 1 ≤ words }
    requires mark { mark.offset ≤ 131072 }
    ensures pen { IfOk result (λ ends. HasAppended ends.0 0 × (ends.0.put ≡ [])) }
    ensures pass { IfOk result (λ ends. ends.1 ≡ new_pass ends.0.table ends.0.generation) }
    ensures room { IfOk result (λ ends. ends.0.generation.room ≡ words) }
    ensures start { IfOk result (λ ends.
        (ends.0.generation.base ≡ []) × (ends.0.generation.origin.mark ≡ mark)) }
{
    let mailbox = Mailbox {
        uid_validity: 1,
        next_uid: 1,
        rows: List::new(alloc),
        keywords: List::new(alloc),
        extensions: List::new(alloc),
        current: None,
        highest: 1,
    };
    new_front(alloc, words, &mailbox, mark, 0)
}

const START: Mark = Mark {
    file_seq: 1,
    offset: 40,
};

// The ends of the generation behind one in which the appends of so many UIDs were published.
#[tactic(auto, using(crate::proofs::Instances::next_has_appended))]
fn next_ends(alloc: Global, pen: &Pen, last: u32, words: u32) -> Result<(Pen, Pass), NoMemory>
    requires words { 1 ≤ words }
    requires before { HasAppended pen.now last }
    ensures pen { IfOk result (λ ends. HasAppended ends.0 last × (ends.0.put ≡ [])) }
    ensures room { IfOk result (λ ends. ends.0.generation.room ≡ words) }
{
    next_front(alloc, pen, words)
}

// What a pass takes of so many appends, which are sealed where that is asked, and how many words
// behind that.
fn take_twice(
    alloc: Global,
    count: u32,
    seals: bool,
) -> Result<(Taken, List<u32>, Taken, usize), NoMemory>
    requires { (1 ≤ count) × (count ≤ 1000) }
{
    let (mut pen, mut pass) = first_ends(alloc, 6 * count, START)?;
    publish_up_to(&mut pen, 0, count);
    if seals {
        seal(&mut pen);
    }
    let mut words = List::new(alloc);
    let first = take(alloc, &mut pass, &mut words)?;
    let mut more = List::new(alloc);
    let second = take(alloc, &mut pass, &mut more)?;
    Ok((first, words, second, more.len()))
}

#[test]
fn first_group_is_six_words(rt: HostRuntime) -> Result<(), Fail> {
    let (first, words, second, more) = take_twice(rt.alloc(), 1, false)?;
    let six = [
        0x00000001, 0x00000004, 0x84808080, 0x10000002, 0x00000001, 0x00000000,
    ];
    assert_eq!(rt; words.as_slice(), six.as_slice());
    assert_eq!(rt; (first, second, more), (Taken::Fresh, Taken::Fresh, 0));
    Ok(())
}

#[test]
fn words_before_a_seal_are_taken(rt: HostRuntime) -> Result<(), Fail> {
    let (first, words, second, more) = take_twice(rt.alloc(), 3, true)?;
    assert!(rt; are_words(&words, 0, 18));
    assert_eq!(rt; (first, second, more), (Taken::Rotated, Taken::Rotated, 0));
    Ok(())
}

// Of five appends, two in one generation and three in the next: whether each pass takes its own.
fn take_of_both(alloc: Global) -> Result<(bool, bool), NoMemory> {
    let (mut pen, mut pass) = first_ends(alloc, 12, START)?;
    publish_up_to(&mut pen, 0, 2);
    let (mut next, mut behind) = next_ends(alloc, &pen, 2, 18)?;
    seal(&mut pen);
    publish_up_to(&mut next, 2, 5);
    let mut words = List::new(alloc);
    let rotated = take(alloc, &mut pass, &mut words)? == Taken::Rotated;
    let mut more = List::new(alloc);
    let fresh = take(alloc, &mut behind, &mut more)? == Taken::Fresh;
    Ok((
        rotated && are_words(&words, 0, 12),
        fresh && are_words(&more, 12, 18),
    ))
}

#[test]
fn next_generation_goes_on(rt: HostRuntime) -> Result<(), Fail> {
    assert_eq!(rt; take_of_both(rt.alloc())?, (true, true));
    Ok(())
}

// Passes by the words of three appends, takes those of two more, and passes by the seal: how many
// words are taken each time, and whether the two were.
fn take_behind_skipped(alloc: Global) -> Result<(u32, bool, u32), NoMemory> {
    let (mut pen, mut pass) = first_ends(alloc, 30, START)?;
    publish_up_to(&mut pen, 0, 3);
    let fresh = skip(&mut pass) == Taken::Fresh;
    let first = words_taken(&pass);
    publish_up_to(&mut pen, 3, 5);
    let mut words = List::new(alloc);
    take(alloc, &mut pass, &mut words)?;
    seal(&mut pen);
    let rotated = skip(&mut pass) == Taken::Rotated;
    let all = fresh && rotated && are_words(&words, 18, 12);
    Ok((first, all, words_taken(&pass)))
}

#[test]
fn words_that_are_passed_by_are_not_taken(rt: HostRuntime) -> Result<(), Fail> {
    assert_eq!(rt; take_behind_skipped(rt.alloc())?, (18, true, 30));
    Ok(())
}

// The UID that an entry by author 1 appends, if it appends one message.
fn appended_uid(entry: &Entry) -> Option<u32> {
    match entry.group.records.as_slice() {
        [record] => match &record.body {
            Body::Append(rows) if entry.author == 1 => match rows.as_slice() {
                [row] => Some(row.uid),
                _ => None,
            },
            _ => None,
        },
        _ => None,
    }
}

// The UIDs of so many appends, from the entries of their words.
fn uids_taken(alloc: Global, count: u32) -> Result<Vec<Option<u32>>, NoMemory>
    requires { (1 ≤ count) × (count ≤ 1000) }
{
    let (mut pen, mut pass) = first_ends(alloc, 6 * count, START)?;
    publish_up_to(&mut pen, 0, count);
    let mut words = List::new(alloc);
    take(alloc, &mut pass, &mut words)?;
    let entries = groups_of(alloc, &words)?;
    let mut uids = Vec::new(alloc);
    for entry in entries.as_slice() {
        uids.push(appended_uid(entry))?;
    }
    Ok(uids)
}

#[test]
fn words_give_their_entries(rt: HostRuntime) -> Result<(), Fail> {
    let uids = uids_taken(rt.alloc(), 2)?;
    assert_eq!(rt; uids.as_slice(), [Some(1), Some(2)].as_slice());
    Ok(())
}

// The place behind so many appends, where the log begins at this place.
fn mark_behind_appends(alloc: Global, mark: Mark, count: u32) -> Result<Mark, NoMemory>
    requires mark { mark.offset ≤ 131072 }
    requires count { (1 ≤ count) × (count ≤ 1000) }
{
    let (mut pen, mut pass) = first_ends(alloc, 6 * count, mark)?;
    publish_up_to(&mut pen, 0, count);
    let mut words = List::new(alloc);
    take(alloc, &mut pass, &mut words)?;
    Ok(mark_behind_words(mark, &words))
}

// The file and offset behind so many appends, from an offset of the first file on.
fn place_behind(alloc: Global, offset: u32, count: u32) -> Result<(u32, u32), NoMemory>
    requires offset { offset ≤ 131072 }
    requires count { (1 ≤ count) × (count ≤ 1000) }
{
    let start = Mark {
        file_seq: 1,
        offset,
    };
    let behind = mark_behind_appends(alloc, start, count)?;
    Ok((behind.file_seq, behind.offset))
}

#[test]
fn place_behind_words_is_told(rt: HostRuntime) -> Result<(), Fail> {
    let alloc = rt.alloc();
    assert_eq!(rt; place_behind(alloc, 40, 2)?, (1, 72));
    assert_eq!(rt; place_behind(alloc, 131064, 1)?, (1, 131080));
    assert_eq!(rt; place_behind(alloc, 131064, 2)?, (2, 56));
    Ok(())
}

// Publishes so many groups, and seals them where that is asked.
fn publish_all(mut pen: Pen, times: u32, seals: bool)
    requires new { HasAppended pen 0 }
    requires few { times ≤ 1000 }
    requires room { length pen.put + 6 * times ≤ pen.generation.room }
{
    publish_up_to(&mut pen, 0, times);
    if seals {
        seal(&mut pen);
    }
}

// Takes until there are so many words, or a seal, for at most ten million turns.
fn take_until(alloc: Global, pass: &mut Pass, count: usize) -> Result<List<u32>, NoMemory> {
    let mut words = List::new(alloc);
    for _ in 0..10_000_000 {
        if take(alloc, pass, &mut words)? == Taken::Rotated || words.len() >= count {
            break;
        }
        thread::yield_now();
    }
    Ok(words)
}

// Whether a thread takes all words while another publishes so many appends; how many it takes
// behind that, and what it is told then.
fn race<R: Threads + Sync>(
    rt: &R,
    alloc: Global,
    times: u32,
    seals: bool,
) -> Result<(bool, usize, Taken), NoMemory>
    requires { (1 ≤ times) × (times ≤ 1000) }
{
    let (pen, mut pass) = first_ends(alloc, 6 * times, START)?;
    let ((), words) = thread::join(
        rt,
        move || -> ()
            requires { HasAppended pen 0 × (times ≤ 1000)
                × (length pen.put + 6 * times ≤ pen.generation.room) }
        { publish_all(pen, times, seals) },
        || take_until(alloc, &mut pass, times as usize * 6),
    );
    let mut more = List::new(alloc);
    let told = take(alloc, &mut pass, &mut more)?;
    Ok((are_words(&words?, 0, 6 * times), more.len(), told))
}

#[test]
fn thousand_groups_go_from_thread_to_thread(rt: HostRuntime) -> Result<(), Fail> {
    let raced = race(&rt, rt.alloc(), 1000, false)?;
    assert_eq!(rt; raced, (true, 0, Taken::Fresh));
    Ok(())
}

#[test]
fn sealed_groups_go_from_thread_to_thread(rt: HostRuntime) -> Result<(), Fail> {
    let raced = race(&rt, rt.alloc(), 1000, true)?;
    assert_eq!(rt; raced, (true, 0, Taken::Rotated));
    Ok(())
}
