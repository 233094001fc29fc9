//! Commands of a store, and what its mailbox is behind each.

ghost use Rattle.std.specs.Prelude.{IfSome, length, ◌^◌, ◌≤◌, All};
ghost use Rattle.dv_model.specs.Names.{IsName};
ghost use Rattle.dv_model.specs.Sessions.{IsCommand};
ghost use Rattle.dv_groups.specs.Groups.{HasFewKeywords};

use dv_model::{Bytes, Command, End, How, List, Span};
use dv_records::is_name;
use dv_shelf::{Folder, MemClock, MemShelf, Name};
use dv_store::Store;
use dv_view::View;
use std::alloc::Global;

/// Whether commands of each kind are written as they have to be.
#[derive(Clone, Copy, PartialEq, Eq, Debug)]
pub enum Outcome {
    /// So many tries met a refusal, and left the mailbox as it was.
    Right(u32),
    /// A mailbox isn't as it has to be.
    Wrong,
}

// A command.
#[derive(Clone, Copy)]
enum Ask {
    // A message of these flags and one byte.
    Append(u8),
    // A keyword of UIDs 1 to 9.
    Keyword(&'static [u8]),
    // Draft in place of the other flags of UID 3.
    Draft,
    Check,
    Expunge,
    // UIDs 1 and 2 are removed.
    Remove,
}

// The end of the log in its second file, the rows, the UIDNEXT and the highest modification
// sequence.
type Counts = (u32, u32, u32, u64);

// The log is rotated before the first one.
const STEPS: [(Ask, Counts); 10] = [
    (Ask::Append(4), (56, 1, 2, 4)),
    (Ask::Append(0), (72, 2, 3, 5)),
    (Ask::Keyword(b"k1"), (96, 2, 3, 6)),
    (Ask::Check, (172, 2, 3, 9)),
    (Ask::Expunge, (200, 1, 3, 10)),
    (Ask::Check, (268, 1, 3, 13)),
    (Ask::Append(8), (284, 2, 4, 14)),
    (Ask::Remove, (312, 1, 4, 15)),
    (Ask::Draft, (348, 1, 4, 17)),
    (Ask::Check, (416, 1, 4, 20)),
];

// A mailbox that was made at 1000, and the beginning of a record that is carried.
const MADE: &[u8] = b"\x01\x03\x28\0\xe8\x03\0\0\x01\0\0\0\0\0\0\0\0\0\0\0\
    \xe8\x03\0\0\x01\0\0\0\0\0\0\0\x01\0\0\0\0\0\0\0\
    \x80\x80\x80\x84\x20\0\0\0\x18\0\x04\0\xe8\x03\0\0\
    \x80\x82\x80\x82\0\0\x08\0";

// The other bytes of that record, and four behind it.
const CARRIED: usize = 131_072 + 4;

// The room for what is written, in bytes.
const ROOM: u32 = 1_000_000;

type MemStore = Store<MemShelf, MemClock>;

fn append(alloc: Global, flags: u8) -> Option<Command>
    ensures command { IfSome result IsCommand }
    ensures few { IfSome result HasFewKeywords }
{
    Some(Command::Append {
        flags,
        keywords: List::new(alloc),
        message: Bytes::from_slice(alloc, b"x").ok()?,
    })
}

fn range(alloc: Global, first: u32, last: u32) -> Option<List<Span>> {
    let span = Span {
        from: End::Number(first),
        to: End::Number(last),
    };
    List::from_slice(alloc, &[span]).ok()
}

fn keyword(alloc: Global, name: &[u8]) -> Option<List<Bytes>>
    ensures names { IfSome result (All IsName) }
    ensures few { IfSome result (λ names. length names ≤ 2 ^ 26) }
{
    if !is_name(name) {
        return None;
    }
    let mut names = List::new(alloc);
    names.push(Bytes::from_slice(alloc, name).ok()?).ok()?;
    Some(names)
}

fn store(set: List<Span>, how: How, flags: u8, keywords: List<Bytes>) -> Command
    requires names { All IsName keywords }
    requires few { length keywords ≤ 2 ^ 26 }
    ensures command { IsCommand result }
    ensures few { HasFewKeywords result }
{
    Command::Store {
        by_uid: true,
        set,
        how,
        flags,
        keywords,
        unchanged_since: None,
    }
}

// The command, unless memory is refused.
fn command_of(alloc: Global, ask: Ask) -> Option<Command>
    ensures command { IfSome result IsCommand }
    ensures few { IfSome result HasFewKeywords }
{
    match ask {
        Ask::Append(flags) => append(alloc, flags),
        Ask::Keyword(name) => {
            let names = keyword(alloc, name)?;
            Some(store(range(alloc, 1, 9)?, How::Add, 0, names))
        }
        Ask::Draft => Some(store(range(alloc, 3, 3)?, How::Replace, 16, List::new(alloc))),
        Ask::Check => Some(Command::Check),
        Ask::Expunge => Some(Command::Expunge),
        Ask::Remove => Some(Command::UidRemove {
            set: range(alloc, 1, 2)?,
        }),
    }
}

fn counts(store: &MemStore) -> (u32, Counts) {
    let live = store.live();
    let mark = store.mark();
    let counts = (mark.offset, live.count(), live.next_uid(), live.highest());
    (mark.file_seq, counts)
}

// Whether a command is answered, and the mailbox is as expected behind it, unless memory is
// refused.
fn written(alloc: Global, store: &mut MemStore, ask: Ask, expected: Counts) -> Option<bool> {
    let command = command_of(alloc, ask)?;
    let view = View::of(alloc, store.live()).ok()?;
    match store.commit_command(&command, &view) {
        Ok(_) => Some(counts(store) == (2, expected)),
        Err(_) => None,
    }
}

// A command by a first try, and a second one where memory was refused, which is to leave the
// mailbox and the end of its log as before.
fn tried(alloc: Global, store: &mut MemStore, ask: Ask, expected: Counts) -> Outcome {
    for refused in 0..2 {
        let before = counts(store);
        match written(alloc, store, ask, expected) {
            Some(true) => return Outcome::Right(refused),
            Some(false) => return Outcome::Wrong,
            None => {
                if counts(store) != before {
                    return Outcome::Wrong;
                }
            }
        }
    }
    Outcome::Wrong
}

// All commands, one after another.
fn try_all(alloc: Global, store: &mut MemStore) -> Outcome {
    let mut refusals: u32 = 0;
    for step in STEPS {
        match tried(alloc, store, step.0, step.1) {
            Outcome::Right(refused) => refusals = refusals.saturating_add(refused),
            Outcome::Wrong => return Outcome::Wrong,
        }
    }
    Outcome::Right(refusals)
}

fn log(alloc: Global) -> Option<Bytes> {
    let mut text = Bytes::from_slice(alloc, MADE).ok()?;
    text.extend(&vec![in alloc; 0; CARRIED].ok()?).ok()?;
    Some(text)
}

fn folder(alloc: Global) -> Option<Folder> {
    let mut files = List::new(alloc);
    files.push((Name::Log, log(alloc)?)).ok()?;
    Some(files)
}

// A folder whose log is due to be rotated, opened, unless memory is refused.
fn opened(alloc: Global) -> Option<MemStore> {
    let shelf = MemShelf::of(alloc, &folder(alloc)?, ROOM, List::new(alloc), None).ok()?;
    let clock = MemClock::new(alloc, List::from_slice(alloc, &[1000]).ok()?);
    Store::open(alloc, shelf, clock).ok()
}

// The same by a first or a second try.
fn opened_twice(alloc: Global) -> Option<MemStore> {
    match opened(alloc) {
        Some(store) => Some(store),
        None => opened(alloc),
    }
}

// The folder of a store is opened again, by a first or a second try.
fn reopened(alloc: Global, store: MemStore) -> Option<MemStore> {
    let (shelf, clock) = store.parts();
    match Store::open(alloc, shelf, clock) {
        Ok(store) => Some(store),
        Err((shelf, clock, _)) => Store::open(alloc, shelf, clock).ok(),
    }
}

// Whether the folder opens to the same mailbox.
fn is_kept(alloc: Global, store: MemStore) -> bool {
    let before = counts(&store);
    match reopened(alloc, store) {
        Some(store) => counts(&store) == before,
        None => false,
    }
}

/// Commands of each kind are written, one after another, and the folder is opened again.
pub fn try_commands(alloc: Global) -> Outcome {
    let Some(mut store) = opened_twice(alloc) else {
        return Outcome::Wrong;
    };
    let outcome = try_all(alloc, &mut store);
    if is_kept(alloc, store) {
        outcome
    } else {
        Outcome::Wrong
    }
}
