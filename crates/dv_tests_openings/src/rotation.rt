ghost use Rattle.std.specs.Prelude.{◌≡◌, ◌<◌, IfOk, OnOk};
ghost use Rattle.dv_chain.specs.Openings.{HasBounds};
ghost use Rattle.dv_files.specs.Texts.{IsTurnOf};

use crate::chain::LOG;
use crate::ends::{is_so, no_other};
use crate::folders::{File, copy_of, has_file, has_first, shelf_of};
use dv_chain::{Chain, open};
use dv_files::{ChainFault, Turn, TurnEnd, checkpoint, finish, rotate, snapshot, turn};
use dv_model::NoMemory;
use dv_shelf::{MemShelf, Name};
use std::alloc::Global;
use std::test::Fail;

// The file behind the first one, made at 2000: it names that one and its end, with
// initial_modseq 4.
const NEXT: [u8; 44] = [
    1, 3, 40, 0, 0xe8, 3, 0, 0, 2, 0, 0, 0, 1, 0, 0, 0, 92, 0, 0, 0, //
    0xd0, 7, 0, 0, 4, 0, 0, 0, 0, 0, 0, 0, 1, 0, 0, 0, 0, 0, 0, 0, //
    0, 0, 0, 0,
];

// The snapshot at 1:92, in version 2: one row, UID 1 with Seen and modification sequence 4.
const INDEX: [u8; 136] = [
    201, 2, 120, 0, 120, 0, 0, 0, 16, 0, 0, 0, 0, 0, 0, 0, //
    0xe8, 3, 0, 0, 0, 0, 0, 0, 0xe8, 3, 0, 0, 2, 0, 0, 0, //
    1, 0, 0, 0, 1, 0, 0, 0, 92, 0, 0, 0, 0, 0, 0, 0, //
    0, 0, 0, 0, 0, 0, 0, 0, 0, 0, 0, 0, 1, 0, 0, 0, //
    0, 0, 0, 0, 4, 0, 0, 0, 0, 0, 0, 0, 0, 0, 0, 0, //
    0, 0, 0, 0, 0, 0, 0, 0, 0, 0, 0, 0, 0, 0, 0, 0, //
    0, 0, 0, 0, 0, 0, 0, 0, 0, 0, 0, 0, 0, 0, 0, 0, //
    0, 0, 0, 0, 0, 0, 0, 0, 1, 0, 0, 0, 8, 0, 0, 0, //
    4, 0, 0, 0, 0, 0, 0, 0,
];

// What a rotation of the first log answers in a folder with that alone. The calls of `fails` fail,
// and those behind `stop`: opening has the first three, a turn the fourth, a rotation the fifth to
// the seventh. Where it is shown, reads see what a call that failed has made.
#[derive(Clone, Copy)]
struct Case {
    name: &'static str,
    fails: &'static [u32],
    stop: Option<u32>,
    shows_failed: bool,
    end: Option<TurnEnd>,
    // The files behind it. Where any are listed, the folder opens to the next file.
    left: &'static [File<'static>],
}

const DONE: Case = Case {
    name: "",
    fails: &[],
    stop: None,
    shows_failed: false,
    end: None,
    left: &[],
};

const CASES: [Case; 8] = [
    Case {
        name: "a rotation writes three files",
        left: &[
            (Name::Index, &INDEX),
            (Name::Log2, &LOG),
            (Name::Log, &NEXT),
        ],
        ..DONE
    },
    Case {
        name: "the snapshot fails",
        fails: &[5],
        shows_failed: true,
        end: Some(TurnEnd::Before),
        ..DONE
    },
    Case {
        name: "the rotated log fails",
        fails: &[6],
        shows_failed: true,
        end: Some(TurnEnd::Before),
        ..DONE
    },
    Case {
        name: "the log fails",
        fails: &[7],
        shows_failed: true,
        end: Some(TurnEnd::Last),
        ..DONE
    },
    Case {
        name: "cut short behind the turn",
        stop: Some(4),
        end: Some(TurnEnd::Before),
        ..DONE
    },
    Case {
        name: "cut short behind the snapshot",
        stop: Some(5),
        end: Some(TurnEnd::Before),
        ..DONE
    },
    Case {
        name: "cut short behind the rotated log",
        stop: Some(6),
        end: Some(TurnEnd::Last),
        ..DONE
    },
    Case {
        name: "cut short behind the log",
        stop: Some(7),
        ..DONE
    },
];

// The chain of a folder that opens, whose log can be rotated.
fn chain_of(alloc: Global, shelf: &mut MemShelf) -> Result<Chain, NoMemory>
    ensures bounds { IfOk result HasBounds }
    ensures room { IfOk result (λ chain. chain.log.file_seq < 4294967295) }
{
    let Ok(chain) = open(alloc, shelf) else {
        return Err(NoMemory);
    };
    if chain.log.file_seq == 4_294_967_295 {
        return Err(NoMemory);
    }
    Ok(chain)
}

// The texts of a rotation of the chain, made at 2000.
fn texts_of(alloc: Global, chain: &Chain, shelf: &mut MemShelf) -> Result<Turn, NoMemory>
    requires bounds { HasBounds chain.now }
    requires room { chain.now.log.file_seq < 4294967295 }
    ensures { IfOk result (IsTurnOf chain.now) }
{
    match turn(alloc, chain, shelf, 2000) {
        Ok(texts) => Ok(texts),
        Err(_) => Err(NoMemory),
    }
}

// Whether the chain stands behind the first log's records.
fn is_first(chain: &Chain) -> bool {
    has_first(chain) && chain.log.file_seq == 1 && chain.log.end == 92 && chain.log.count == 3
}

// Whether it stands at the first place of the file behind it.
fn is_next(chain: &Chain) -> bool {
    has_first(chain)
        && chain.log.file_seq == 2
        && chain.log.end == 40
        && chain.log.count == 0
        && chain.records == 4
}

// Whether the folder opens to the same mailbox, in the first file or in the next.
fn opens(alloc: Global, shelf: &mut MemShelf) -> bool {
    match chain_of(alloc, shelf) {
        Ok(chain) => is_first(&chain) || is_next(&chain),
        Err(_) => false,
    }
}

// Whether each sample of what a crash may leave does.
fn images_open(alloc: Global, shelf: &MemShelf) -> Result<bool, NoMemory> {
    for image in shelf.images(alloc)?.as_slice() {
        let mut copy = copy_of(alloc, image)?;
        if !opens(alloc, &mut copy) {
            return Ok(false);
        }
    }
    Ok(true)
}

// Whether a rotation ends so. An error leaves the chain where it was.
fn ends_so(alloc: Global, shelf: &mut MemShelf, end: Option<TurnEnd>) -> Result<bool, NoMemory> {
    let mut chain = chain_of(alloc, shelf)?;
    let texts = texts_of(alloc, &chain, shelf)?;
    let found = rotate(&mut chain, shelf, &texts).err();
    let stands = if found.is_some() {
        is_first(&chain)
    } else {
        is_next(&chain)
    };
    Ok(stands && found == end)
}

fn are_left(alloc: Global, shelf: &mut MemShelf, left: &[File]) -> bool {
    for file in left {
        if !has_file(alloc, shelf, *file) {
            return false;
        }
    }
    true
}

fn opens_next(alloc: Global, shelf: &mut MemShelf) -> bool {
    match chain_of(alloc, shelf) {
        Ok(chain) => is_next(&chain),
        Err(_) => false,
    }
}

fn folder_of(alloc: Global, case: &Case) -> Result<MemShelf, NoMemory> {
    let shelf = shelf_of(alloc, &[(Name::Log, &LOG)], case.fails, case.stop)?;
    Ok(if case.shows_failed {
        shelf.showing_failed()
    } else {
        shelf
    })
}

// Behind the rotation each sample of what a crash may leave opens.
fn play(alloc: Global, case: &Case) -> Result<bool, NoMemory> {
    let mut shelf = folder_of(alloc, case)?;
    Ok(
        ends_so(alloc, &mut shelf, case.end)?
            && images_open(alloc, &shelf)?
            && are_left(alloc, &mut shelf, case.left)
            && (case.left.is_empty() || opens_next(alloc, &mut shelf)),
    )
}

fn first_other(alloc: Global, cases: &[Case]) -> Result<Option<&'static str>, NoMemory> {
    for case in cases {
        if !play(alloc, case)? {
            return Ok(Some(case.name));
        }
    }
    Ok(None)
}

#[test]
fn a_rotation_may_fail_or_be_cut_short_behind_each_call(rt: HostRuntime) -> Result<(), Fail> {
    no_other(first_other(rt.alloc(), &CASES))
}

// Whether the last replace fails once more, and is made then.
fn again(
    alloc: Global,
    chain: &mut Chain,
    shelf: &mut MemShelf,
    texts: &Turn,
) -> Result<bool, NoMemory>
    requires room { chain.old.log.file_seq < 4294967295 }
    requires turn { IsTurnOf chain.old texts.now }
{
    if finish(chain, shelf, texts).is_ok() || !is_first(chain) || !images_open(alloc, shelf)? {
        return Ok(false);
    }
    Ok(finish(chain, shelf, texts).is_ok() && is_next(chain) && images_open(alloc, shelf)?)
}

// Whether a rotation's last replace fails, which leaves the chain.
fn fails_last(chain: &mut Chain, shelf: &mut MemShelf, texts: &Turn) -> Result<(), NoMemory>
    requires room { chain.old.log.file_seq < 4294967295 }
    requires turn { IsTurnOf chain.old texts.now }
    ensures { OnOk result (chain.new ≡ chain.old) }
{
    match rotate(chain, shelf, texts) {
        Err(TurnEnd::Last) => Ok(()),
        _ => Err(NoMemory),
    }
}

const LAST_TWICE: Case = Case {
    fails: &[7, 8],
    shows_failed: true,
    ..DONE
};

fn is_made_again(alloc: Global) -> Result<bool, NoMemory> {
    let mut shelf = folder_of(alloc, &LAST_TWICE)?;
    let mut chain = chain_of(alloc, &mut shelf)?;
    let texts = texts_of(alloc, &chain, &mut shelf)?;
    fails_last(&mut chain, &mut shelf, &texts)?;
    again(alloc, &mut chain, &mut shelf, &texts)
}

#[test]
fn a_last_replace_is_made_again(rt: HostRuntime) -> Result<(), Fail> {
    is_so(is_made_again(rt.alloc()))
}

// The turn's read.
const READ: Case = Case {
    fails: &[4],
    ..DONE
};

fn is_failed_read_told(alloc: Global) -> Result<bool, NoMemory> {
    let mut shelf = folder_of(alloc, &READ)?;
    let chain = chain_of(alloc, &mut shelf)?;
    Ok(turn(alloc, &chain, &mut shelf, 2000).err() == Some(ChainFault::Disk(1)))
}

#[test]
fn a_failed_read_is_told(rt: HostRuntime) -> Result<(), Fail> {
    is_so(is_failed_read_told(rt.alloc()))
}

// A checkpoint's replace.
const CHECKPOINT: Case = Case {
    fails: &[4],
    shows_failed: true,
    ..DONE
};

// Whether a checkpoint that failed is made again, and puts the snapshot.
fn is_snapshot_put(alloc: Global) -> Result<bool, NoMemory> {
    let mut shelf = folder_of(alloc, &CHECKPOINT)?;
    let chain = chain_of(alloc, &mut shelf)?;
    let text = snapshot(alloc, &chain)?;
    Ok(
        checkpoint(&chain, &mut shelf, &text).is_err()
            && images_open(alloc, &shelf)?
            && checkpoint(&chain, &mut shelf, &text).is_ok()
            && has_file(alloc, &mut shelf, (Name::Index, &INDEX))
            && opens_first(alloc, &mut shelf),
    )
}

fn opens_first(alloc: Global, shelf: &mut MemShelf) -> bool {
    match chain_of(alloc, shelf) {
        Ok(chain) => is_first(&chain),
        Err(_) => false,
    }
}

#[test]
fn a_checkpoint_puts_the_snapshot(rt: HostRuntime) -> Result<(), Fail> {
    is_so(is_snapshot_put(rt.alloc()))
}
