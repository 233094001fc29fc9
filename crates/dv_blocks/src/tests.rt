use crate::{BlockRows, RowView};
use dv_model::NoMemory;
use std::alloc::Global;
use std::test::*;

// What is done with rows.
#[derive(Clone, Copy)]
enum Action {
    // so many rows more, with these keywords
    Push(u32, &'static [u32]),
    // the rows from one place to another leave
    Remove(u32, u32),
    // the row at a place gets these flags, this modification sequence and these keywords
    Set(u32, u8, u64, &'static [u32]),
    // these keywords are held for the row at a place, and put with this modification sequence
    Put(u32, u64, &'static [u32]),
}

// A row of a plain list. Its parts are made of its UID.
#[derive(Clone, Copy)]
struct Plain {
    uid: u32,
    flags: u8,
    modseq: u64,
    keywords: &'static [u32],
}

// Rows in blocks, and the same rows in a plain list.
#[derive(Drop)]
struct Both {
    rows: BlockRows,
    plain: Vec<Plain>,
    next: u32,
}

fn parts_of(uid: u32) -> [u8; 3] {
    [(uid % 251) as u8, (uid % 13) as u8, (uid % 7) as u8]
}

fn push(both: &mut Both, keywords: &'static [u32]) -> Result<(), NoMemory> {
    let uid = both.next;
    let parts = parts_of(uid);
    if uid >= 1_000_000 || !both.rows.is_above(uid) || both.rows.width() != parts.len() {
        return Err(NoMemory);
    }
    both.rows.push(uid, 1, keywords, &parts, u64::from(uid))?;
    both.plain.push(Plain {
        uid,
        flags: 1,
        modseq: u64::from(uid),
        keywords,
    })?;
    both.next = uid + 3;
    Ok(())
}

fn remove(both: &mut Both, from: u32, to: u32) -> Result<(), NoMemory> {
    if from > to || to > both.rows.len() || to as usize > both.plain.len() {
        return Err(NoMemory);
    }
    both.rows.remove(from, to);
    drop(both.plain.drain(from as usize..to as usize));
    Ok(())
}

fn set(
    both: &mut Both,
    at: u32,
    flags: u8,
    modseq: u64,
    keywords: &'static [u32],
) -> Result<(), NoMemory> {
    if at >= both.rows.len() || at as usize >= both.plain.len() {
        return Err(NoMemory);
    }
    both.rows.set(at, flags, modseq, keywords)?;
    let uid = both.plain[at as usize].uid;
    both.plain[at as usize] = Plain {
        uid,
        flags,
        modseq,
        keywords,
    };
    Ok(())
}

fn put(both: &mut Both, at: u32, modseq: u64, keywords: &'static [u32]) -> Result<(), NoMemory> {
    if at as usize >= both.plain.len() {
        return Err(NoMemory);
    }
    both.rows.hold(at, &[3, 5])?;
    both.rows.let_go();
    both.rows.hold(at, keywords)?;
    both.rows.put(modseq);
    let old = both.plain[at as usize];
    both.plain[at as usize] = Plain {
        uid: old.uid,
        flags: old.flags,
        modseq,
        keywords,
    };
    Ok(())
}

fn act(both: &mut Both, action: Action) -> Result<(), NoMemory> {
    match action {
        Action::Push(rows, keywords) => {
            for _ in 0..rows {
                push(both, keywords)?;
            }
            Ok(())
        }
        Action::Remove(from, to) => remove(both, from, to),
        Action::Set(at, flags, modseq, keywords) => set(both, at, flags, modseq, keywords),
        Action::Put(at, modseq, keywords) => put(both, at, modseq, keywords),
    }
}

fn is_same(row: &RowView, plain: &Plain) -> bool {
    let parts = parts_of(plain.uid);
    row.uid() == plain.uid
        && row.flags() == plain.flags
        && row.modseq() == plain.modseq
        && row.keywords() == plain.keywords
        && row.part_count() == 2
        && row.part(0) == &parts[..2]
        && row.part(1) == &parts[2..]
}

fn are_same(rows: &BlockRows, plain: &[Plain]) -> bool {
    if rows.len() as usize != plain.len() {
        return false;
    }
    for at in 0..rows.len() {
        let row = rows.row(at);
        let here = rows.place_from(row.uid());
        if here != at || !is_same(&row, &plain[at as usize]) {
            return false;
        }
    }
    true
}

// More rows than a block has, of which some leave from within a block, over several of them, and at
// both ends; and keywords that rows share.
const ACTIONS: [Action; 16] = [
    Action::Push(700, &[]),
    Action::Set(3, 8, 5000, &[1, 4]),
    Action::Set(600, 9, 5001, &[1, 4]),
    Action::Set(3, 0, 5002, &[2]),
    Action::Remove(5, 9),
    Action::Remove(100, 600),
    Action::Put(4, 6000, &[1, 4]),
    Action::Put(4, 6001, &[]),
    Action::Push(300, &[1, 4]),
    Action::Remove(0, 1),
    Action::Set(490, 4, 5003, &[]),
    Action::Remove(255, 257),
    Action::Set(2, 8, 5004, &[1, 4, 7]),
    Action::Remove(200, 492),
    Action::Remove(0, 200),
    Action::Push(2, &[9]),
];

fn play(alloc: Global) -> Result<bool, NoMemory> {
    let mut sizes = Vec::new(alloc);
    sizes.push(2)?;
    sizes.push(1)?;
    let mut both = Both {
        rows: BlockRows::new(alloc, sizes),
        plain: Vec::new(alloc),
        next: 1,
    };
    for action in ACTIONS {
        act(&mut both, action)?;
        if !are_same(&both.rows, &both.plain) {
            return Ok(false);
        }
    }
    Ok(true)
}

#[test]
fn rows_are_those_of_a_plain_list(rt: HostRuntime) -> Result<(), Fail> {
    assert!(rt; play(rt.alloc())?);
    Ok(())
}
