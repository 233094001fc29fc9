//! Each call of a run fails, or is the last.

use crate::runs::{Left, RUN, Run, count_of, files_of, play, play_in, shelf_of};
use crate::sleeper::{LONG, Parts, play_parts};
use dv_model::{List, NoMemory};
use dv_shelf::{Folder, MemShelf};
use std::alloc::Global;
use std::process::Abort;

// A run over a folder that a first script made, of which no call fails.
struct Story {
    name: &'static str,
    /// What the first script's parts are.
    first: Parts,
    asked: Run,
    /// How many calls open the folder.
    opening: u32,
    /// The last lines up to their marks, each with the number of groups before it.
    marks: &'static [(usize, &'static [u8])],
}

// A STORE has no group where its session has seen no message.
const EVERY: Story = Story {
    name: "every command over a new folder",
    first: &[],
    asked: Run {
        script: "a SELECT\nb SELECT\na APPEND (\\Deleted) {1}\nx\na APPEND () {1}\ny\n\
            b UID STORE 1:9 +FLAGS (k1)\na UID FETCH 1:9 (BODY[])\na CHECK\na EXPUNGE\n\
            b CHECK\nb NOOP\n",
        ..RUN
    },
    opening: 2,
    marks: &[
        (0, b"END 0 MARK 1:56"),
        (1, b"END 0 MARK 1:72"),
        (2, b"END 0 MARK 1:88"),
        (3, b"END 0 MARK 1:164"),
        (4, b"END 0 MARK 1:192"),
        (5, b"END 0 MARK 1:260"),
    ],
};

// The long log's end, and places of the new file.
const ROTATED: Story = Story {
    name: "two appends, before the first of which a long log is rotated",
    first: LONG,
    asked: Run {
        script: "a SELECT\na APPEND () {1}\nx\na APPEND () {1}\ny\n",
        ..RUN
    },
    opening: 4,
    marks: &[
        (0, b"END 0 MARK 1:131640"),
        (0, b"END 0 MARK 2:40"),
        (1, b"END 0 MARK 2:56"),
        (2, b"END 0 MARK 2:72"),
    ],
};

// The last line of a text.
fn last_line(text: &[u8]) -> &[u8] {
    let mut start = 0;
    for at in 1..text.len() {
        if text[at - 1] == b'\n' {
            start = at;
        }
    }
    let (_, line) = text.split_at(start.min(text.len()));
    line
}

// The part of a last line that names a mark, and the groups that are told behind it.
fn parts_of(line: &[u8]) -> (&[u8], &[u8]) {
    let mut end = line.len();
    for at in 0..line.len() {
        let (_, rest) = line.split_at(at);
        if rest.starts_with(b" GROUPS ") {
            end = at;
        }
    }
    line.split_at(end.min(line.len()))
}

// The mark that a run's last line names, and its number of groups behind it.
fn end_of(left: &Left<MemShelf>) -> (&[u8], &[u8]) {
    parts_of(last_line(left.out.taken()))
}

// The number of groups that the end of a last line tells; 0 where it tells none.
fn groups_in(end: &[u8]) -> usize {
    let mut groups = 0usize;
    for byte in end {
        if byte.is_ascii_digit() {
            let digit = byte.saturating_sub(b'0');
            groups = groups.saturating_mul(10).saturating_add(digit as usize);
        }
    }
    groups
}

// The number of groups before a mark; 1000 where it is none of these.
fn groups_before(marks: &[(usize, &[u8])], mark: &[u8]) -> usize {
    for (groups, other) in marks {
        if *other == mark {
            return *groups;
        }
    }
    1000
}

const SELECT: Run = Run {
    script: "c SELECT\n",
    ..RUN
};

fn select(alloc: Global, folder: &Folder) -> Result<Left<MemShelf>, NoMemory> {
    play(alloc, folder, &SELECT)
}

// The folder that a first script leaves.
fn start_of(alloc: Global, story: &Story) -> Result<Folder, NoMemory> {
    if story.first.is_empty() {
        return Ok(List::new(alloc));
    }
    let mut left = play_parts(alloc, story.first)?;
    files_of(alloc, &mut left.shelf)
}

// The story over a folder of which these calls fail, and those behind the first ones.
fn play_story(
    alloc: Global,
    start: &Folder,
    story: &Story,
    fails: &[u32],
    stop: Option<u32>,
) -> Result<Left<MemShelf>, NoMemory> {
    let shelf = shelf_of(alloc, start, fails, stop)?;
    play_in(alloc, shelf, story.asked.script.as_bytes(), &story.asked)
}

// How many calls it has where none fails.
fn calls_of(alloc: Global, start: &Folder, story: &Story) -> Result<u32, NoMemory> {
    let left = play_story(alloc, start, story, &[], None)?;
    Ok(left.shelf.call_count().min(1000) as u32)
}

// Whether one failed call cost one command, and the folder opens at the mark that the last line
// names, but perhaps where no write follows.
fn is_one_lost(alloc: Global, left: &mut Left<MemShelf>, is_last: bool) -> Result<bool, NoMemory> {
    let folder = files_of(alloc, &mut left.shelf)?;
    let told = count_of(left.out.taken(), b"NO [UNAVAILABLE] FAULTS 1\n");
    let found = select(alloc, &folder)?;
    let is_same = end_of(&found).0 == end_of(left).0;
    Ok(left.status == 0 && told == 1 && (is_same || is_last))
}

// Whether the failure of this call has its end: of the opening it ends the run.
fn is_failure_so(
    alloc: Global,
    start: &Folder,
    story: &Story,
    call: u32,
    calls: u32,
) -> Result<bool, NoMemory> {
    let mut left = play_story(alloc, start, story, &[call], None)?;
    if call <= story.opening {
        Ok(left.status == 2)
    } else {
        is_one_lost(alloc, &mut left, call == calls)
    }
}

// The first call whose failure has another end.
fn other_failure(alloc: Global, start: &Folder, story: &Story) -> Result<Option<u32>, NoMemory> {
    let calls = calls_of(alloc, start, story)?;
    if calls <= story.opening.saturating_add(10) {
        return Ok(Some(0));
    }
    for call in 1..=calls {
        if !is_failure_so(alloc, start, story, call, calls)? {
            return Ok(Some(call));
        }
    }
    Ok(None)
}

// Whether an image opens to these groups, or to one more.
fn is_image_so(
    alloc: Global,
    image: &Folder,
    story: &Story,
    groups: usize,
) -> Result<bool, NoMemory> {
    let found = select(alloc, image)?;
    let at = groups_before(story.marks, end_of(&found).0);
    Ok(at >= groups && at <= groups.saturating_add(1))
}

// Whether each image does.
fn are_images_so(
    alloc: Global,
    images: &[Folder],
    story: &Story,
    groups: usize,
) -> Result<bool, NoMemory> {
    for image in images {
        if !is_image_so(alloc, image, story, groups)? {
            return Ok(false);
        }
    }
    Ok(!images.is_empty())
}

fn is_stop_so(alloc: Global, start: &Folder, story: &Story, stop: u32) -> Result<bool, NoMemory> {
    let left = play_story(alloc, start, story, &[], Some(stop))?;
    let images = left.shelf.images(alloc)?;
    are_images_so(alloc, images.as_slice(), story, groups_in(end_of(&left).1))
}

// The first stop behind which the folder opens to other groups.
fn other_stop(alloc: Global, start: &Folder, story: &Story) -> Result<Option<u32>, NoMemory> {
    for stop in 0..calls_of(alloc, start, story)? {
        if !is_stop_so(alloc, start, story, stop)? {
            return Ok(Some(stop));
        }
    }
    Ok(None)
}

// The first failure or stop with another end.
fn other_call(alloc: Global, story: &Story, is_failed: bool) -> Result<Option<u32>, NoMemory> {
    let start = start_of(alloc, story)?;
    if is_failed {
        other_failure(alloc, &start, story)
    } else {
        other_stop(alloc, &start, story)
    }
}

fn play_whole(rt: &impl Abort, alloc: Global, story: &Story, is_failed: bool) {
    let other = other_call(alloc, story, is_failed).unwrap_or(Some(1000));
    assert!(rt;
        other.is_none(),
        "{}, call {}",
        story.name,
        other.unwrap_or(0)
    );
}

#[test]
fn each_failed_call_costs_one_command(rt: HostRuntime) {
    play_whole(&rt, rt.alloc(), &EVERY, true);
}

#[test]
fn each_stop_leaves_the_groups_or_one_more(rt: HostRuntime) {
    play_whole(&rt, rt.alloc(), &EVERY, false);
}

#[test]
fn each_failed_call_of_a_rotation_costs_one_command(rt: HostRuntime) {
    play_whole(&rt, rt.alloc(), &ROTATED, true);
}

#[test]
fn each_stop_of_a_rotation_leaves_the_groups(rt: HostRuntime) {
    play_whole(&rt, rt.alloc(), &ROTATED, false);
}
