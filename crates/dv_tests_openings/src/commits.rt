ghost use Rattle.std.specs.Prelude.{◌≡◌, All, IfOk};
ghost use Rattle.dv_model.specs.Spelling.{IsRecord};
ghost use Rattle.dv_chain.specs.Openings.{HasBounds};
ghost use Rattle.dv_writing.specs.Commits.{IsReady};

use crate::ends::no_other;
use crate::folders::{chain_in, copy_of, has_first, shelf_of};
use dv_apply::Prepared;
use dv_chain::{Chain, create, open};
use dv_logfile::{CommitFault, Debt, group_text};
use dv_model::{Bytes, Group, List, Mark, NoMemory, Record};
use dv_records::decode;
use dv_shelf::{Folder, MemShelf};
use dv_writing::{Committed, commit, heal};
use std::alloc::Global;
use std::test::Fail;

// An append of UID 1, and its flag Seen.
const FIRST: [u8; 36] = [
    0x80, 0x80, 0x80, 0x84, 2, 0, 0, 0x10, 1, 0, 0, 0, 0, 0, 0, 0, //
    0x80, 0x80, 0x80, 0x85, 4, 0, 0, 0x10, 1, 0, 0, 0, 1, 0, 0, 0, 8, 0, 0, 0,
];

// The longest file.
const LONGEST: usize = 1_073_741_824;

// How a chain and its folder stand: what is owed, where the log ends, how many records it has,
// whether they give the row of UID 1, or else none; and whether there are images of a crash that
// open to the mailbox without the group, and with it.
#[derive(Clone, Copy)]
struct Stand {
    debt: Debt,
    end: u32,
    count: u32,
    has_first: bool,
    images: (bool, bool),
}

// The group is committed in a new folder, of which these calls fail. The making is the first call,
// and a commit's second write the fourth one.
struct Case {
    name: &'static str,
    fails: &'static [u32],
    done: Result<Mark, CommitFault>,
    behind: Stand,
    healed: Stand,
}

const WRITTEN: Stand = Stand {
    debt: Debt::None,
    end: 92,
    count: 3,
    has_first: true,
    images: (false, true),
};

const CASES: [Case; 2] = [
    Case {
        name: "a commit is opened again",
        fails: &[],
        done: Ok(Mark {
            file_seq: 1,
            offset: 92,
        }),
        behind: WRITTEN,
        healed: WRITTEN,
    },
    Case {
        name: "a failed gate is owed and healed",
        fails: &[4],
        done: Err(CommitFault::Disk(1)),
        behind: Stand {
            debt: Debt::Gate,
            end: 56,
            count: 1,
            has_first: false,
            images: (true, true),
        },
        healed: Stand {
            debt: Debt::None,
            end: 56,
            count: 1,
            has_first: false,
            images: (true, false),
        },
    },
];

// So many records that these bytes begin with.
fn records_of(alloc: Global, bytes: &[u8], count: usize) -> Result<List<Record>, NoMemory>
    ensures { IfOk result (λ records. All IsRecord records) }
{
    let mut records = List::new(alloc);
    let mut at = 0;
    for _ in 0..count {
        if at > bytes.len() {
            return Err(NoMemory);
        }
        match decode(alloc, bytes, at) {
            Ok(found) => {
                records.push(found.0)?;
                at = found.1;
            }
            Err(_) => return Err(NoMemory),
        }
    }
    Ok(records)
}

// The text of the group of two records with these bytes, and what it makes of the chain's mailbox.
fn ready(alloc: Global, chain: &mut Chain, bytes: &[u8]) -> Result<(Bytes, Prepared), NoMemory>
    requires { HasBounds chain.old }
    ensures ready { IfOk result (λ x. IsReady x.0 x.1 chain.new) }
    ensures bounds { HasBounds chain.new }
    ensures log { chain.new.log ≡ chain.old.log }
{
    let records = records_of(alloc, bytes, 2)?;
    if records.is_empty() {
        return Err(NoMemory);
    }
    let prepared = match chain.live.prepare(records.as_slice()) {
        Ok(prepared) => prepared,
        Err(_) => return Err(NoMemory),
    };
    let text = group_text(alloc, &Group { records })?;
    if text.len() > LONGEST - chain.log.end as usize {
        return Err(NoMemory);
    }
    Ok((text, prepared))
}

fn is_done(done: &Result<Committed, CommitFault>, expected: &Result<Mark, CommitFault>) -> bool {
    match (done, expected) {
        (Ok(done), Ok(mark)) => done.mark == *mark && done.touched.uids() == [1].as_slice(),
        (Err(fault), Err(other)) => *fault == *other,
        _ => false,
    }
}

// Whether the group is committed with this answer.
fn is_committed(
    alloc: Global,
    chain: &mut Chain,
    shelf: &mut MemShelf,
    expected: &Result<Mark, CommitFault>,
) -> Result<bool, NoMemory>
    requires { HasBounds chain.old }
    ensures { HasBounds chain.new }
{
    let (text, prepared) = ready(alloc, chain, &FIRST)?;
    if chain.log.debt != Debt::None || chain.live.count() != 0 {
        return Ok(false);
    }
    let done = commit(chain, shelf, &text, prepared);
    Ok(is_done(&done, expected))
}

// Whether an image opens to the mailbox with the group; `None` where it opens to another one, or
// not at all.
fn is_with(alloc: Global, image: &Folder) -> Result<Option<bool>, NoMemory> {
    let mut shelf = copy_of(alloc, image)?;
    let Some(chain) = chain_in(alloc, &mut shelf) else {
        return Ok(None);
    };
    if chain.log.end == 56 && chain.live.count() == 0 && chain.live.highest() == 2 {
        return Ok(Some(false));
    }
    if chain.log.end == 92 && has_first(&chain) {
        return Ok(Some(true));
    }
    Ok(None)
}

// Whether there are images without the group, and with it; `None` where there are others.
fn sides_of(alloc: Global, shelf: &MemShelf) -> Result<Option<(bool, bool)>, NoMemory> {
    let images = shelf.images(alloc)?;
    let mut without = false;
    let mut with = false;
    for image in images.as_slice() {
        match is_with(alloc, image)? {
            Some(false) => without = true,
            Some(true) => with = true,
            None => return Ok(None),
        }
    }
    Ok(Some((without, with)))
}

// Whether a chain has the records that it should.
fn is_at(chain: &Chain, stand: &Stand) -> bool {
    let has_rows = if stand.has_first {
        has_first(chain)
    } else {
        chain.live.count() == 0
    };
    has_rows && chain.log.end == stand.end && chain.log.count == stand.count
}

fn stands(alloc: Global, chain: &Chain, shelf: &MemShelf, stand: &Stand) -> Result<bool, NoMemory> {
    Ok(
        is_at(chain, stand)
            && chain.log.debt == stand.debt
            && sides_of(alloc, shelf)? == Some(stand.images),
    )
}

// Whether the folder opens to the same.
fn opens_to(alloc: Global, shelf: &mut MemShelf, chain: &Chain, stand: &Stand) -> bool {
    match open(alloc, shelf) {
        Ok(again) => {
            is_at(&again, stand) && again.indexid == chain.indexid && again.records == chain.records
        }
        Err(_) => false,
    }
}

// A folder that is made at 1000.
fn new_folder(alloc: Global, fails: &[u32]) -> Result<(MemShelf, Chain), NoMemory>
    ensures { IfOk result (λ x. HasBounds x.1) }
{
    let mut shelf = shelf_of(alloc, &[], fails, None)?;
    match create(alloc, &mut shelf, 1000) {
        Ok(chain) => Ok((shelf, chain)),
        Err(_) => Err(NoMemory),
    }
}

fn play(alloc: Global, case: &Case) -> Result<bool, NoMemory> {
    let (mut shelf, mut chain) = new_folder(alloc, case.fails)?;
    Ok(
        is_committed(alloc, &mut chain, &mut shelf, &case.done)?
            && stands(alloc, &chain, &shelf, &case.behind)?
            && heal(&mut chain, &mut shelf).is_ok()
            && stands(alloc, &chain, &shelf, &case.healed)?
            && opens_to(alloc, &mut shelf, &chain, &case.healed),
    )
}

fn first_other(alloc: Global, cases: &[Case]) -> Result<Option<&'static str>, NoMemory> {
    for case in cases {
        if !play(alloc, case)? {
            return Ok(Some(case.name));
        }
    }
    Ok(None)
}

#[test]
fn groups_are_committed(rt: HostRuntime) -> Result<(), Fail> {
    no_other(first_other(rt.alloc(), &CASES))
}
