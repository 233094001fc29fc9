//! Where the text of the next message goes.

ghost use Rattle.std.specs.Prelude.{◌≡◌, ◌<◌, IfOk, MatchBool, MatchOption, Some};
ghost use Rattle.dv_chain.specs.Openings.{OnlyLooks};
ghost use Rattle.dv_maps.specs.Laws.{IsMap};
ghost use Rattle.dv_mdbox.specs.Answers.{HasStorageCause};
ghost use Rattle.dv_mdbox.specs.Tails as tails;
ghost use Rattle.dv_mdbox.specs.Tails.{Extends, FindsFile, FindsTarget, GoesBehind, IsEndBehind, IsFreeFrom, IsHighest, IsTailOf, KeepsEnd, larger, mail_number};

use crate::StorageFault;
use crate::fault::told;
use dv_apply::Live;
use dv_maps::{Place, is_map, place_of};
use dv_shelf::{Name, Shelf};
use std::alloc::Global;

/// A file that has 2 MiB of texts takes no more.
const FILE_LIMIT: u64 = 2_097_152;

/// The file with the highest number that a map names, and where its last text ends.
#[derive(Clone, Copy)]
pub(crate) struct Tail {
    pub(crate) file: u32,
    pub(crate) end: u64,
}

/// Where a text goes: behind the others of a file, or to the start of a new one.
#[derive(Clone, Copy)]
pub(crate) struct Target {
    pub(crate) file: u32,
    pub(crate) offset: u32,
}

/// The tail with one place more.
fn extended(tail: Option<Tail>, place: Place) -> Tail
    ensures { Extends tail place result }
{
    let end = u64::from(place.offset) + u64::from(place.size);
    let new = Tail {
        file: place.file,
        end,
    };
    match tail {
        None => new,
        Some(old) => {
            if old.file < place.file {
                new
            } else if old.file == place.file {
                Tail {
                    file: old.file,
                    end: old.end.max(end),
                }
            } else {
                old
            }
        }
    }
}

/// The file with the highest number that the map names, and where its last text ends; none where it
/// names none. Takes no memory, and time by the rows.
fn tail_of(live: &Live) -> Option<Tail>
    ensures { IsTailOf live.now.mailbox live.now.mailbox.rows result }
{
    let extensions = live.extensions().list().as_slice();
    let mut tail = None;
    for k in 0..live.count() {
        let row = live.row(k);
        let place = place_of(extensions, row.parts.as_slice());
        tail = Some(extended(tail, place));
    }
    tail
}

/// The same, which isn't looked for where it is known.
pub(crate) fn last_tail(live: &Live, known: Option<Tail>) -> Option<Tail>
    requires { KeepsEnd live.now.mailbox known }
    ensures { IsTailOf live.now.mailbox live.now.mailbox.rows result }
{
    match known {
        Some(tail) => Some(tail),
        None => tail_of(live),
    }
}

/// Whether the mailbox is the map of a storage.
pub(crate) fn has_map(live: &Live) -> bool
    ensures { MatchBool result (IsMap live.now.mailbox) (IsMap live.now.mailbox → ⊥) }
{
    is_map(live.extensions().list().as_slice(), live.count())
}

/// The end of the last file once a text stands at this place, behind all others. It is known where
/// the mailbox is a map.
pub(crate) fn end_behind(live: &Live, place: Place) -> Option<Tail>
    ensures { IsEndBehind live.now.mailbox place result }
{
    if !has_map(live) {
        return None;
    }
    Some(Tail {
        file: place.file,
        end: u64::from(place.offset) + u64::from(place.size),
    })
}

/// The larger of two numbers, where there is one.
fn larger(a: Option<u32>, b: Option<u32>) -> Option<u32>
    ensures { result ≡ larger a b }
{
    match (a, b) {
        (None, b) => b,
        (Some(a), None) => Some(a),
        (Some(a), Some(b)) => Some(a.max(b)),
    }
}

/// The number of a message file.
pub(crate) fn number_of(name: Name) -> Option<u32>
    ensures { result ≡ mail_number name }
{
    match name {
        Name::Mail(n) => Some(n),
        _ => None,
    }
}

/// The highest number of a message file of a listing.
fn highest_of(names: &[Name]) -> Option<u32>
    ensures { IsHighest names.now result }
{
    let mut highest = None;
    for name in names {
        highest = larger(highest, number_of(*name));
    }
    highest
}

/// Behind the last text of a file that isn't full.
fn place_behind(tail: Option<Tail>) -> Option<Target>
    ensures { MatchOption result (GoesBehind tail → ⊥) (λ target.
        GoesBehind tail × (tail ≡ Some (record { file = target.file; end = target.offset }))) }
{
    match tail {
        Some(tail) => {
            if tail.end >= FILE_LIMIT {
                return None;
            }
            Some(Target {
                file: tail.file,
                offset: tail.end as u32,
            })
        }
        None => None,
    }
}

/// The number behind another, or 1 where there is none; none behind the last one.
pub(crate) fn number_behind(highest: Option<u32>) -> Option<u32>
    ensures { MatchOption result (highest ≡ Some 4294967295)
        (λ n. n ≡ tails.number_behind highest) }
{
    match highest {
        Some(n) => n.checked_add(1),
        None => Some(1),
    }
}

/// The number of a new file: behind all that the map and the folder name.
fn new_file<S: Shelf>(alloc: Global, shelf: &mut S, tail: Option<Tail>) -> Result<u32, StorageFault>
    ensures finds { FindsFile S.sees.tells (S.sees.files shelf.old) tail result }
    ensures looks { S.sees.tells → OnlyLooks S.sees shelf.old shelf.new }
    ensures mail_reads { S.sees.mail_reads shelf.new ≡ S.sees.mail_reads shelf.old }
    ensures cause { HasStorageCause (S.sees.fault_count shelf.old) (S.sees.fault_count shelf.new)
        result }
{
    let names = match shelf.list(alloc) {
        Ok(names) => names,
        Err(fault) => return Err(told(shelf, fault)),
    };
    let named = match tail {
        Some(tail) => Some(tail.file),
        None => None,
    };
    match number_behind(larger(named, highest_of(names.as_slice()))) {
        Some(file) => Ok(file),
        None => Err(StorageFault::Files),
    }
}

/// Where the text of the next message goes. Time by the rows where the end of the last file isn't
/// known; the folder is listed where the text goes to a new file.
pub(crate) fn find_target<S: Shelf>(
    alloc: Global,
    live: &Live,
    known: Option<Tail>,
    shelf: &mut S,
) -> Result<Target, StorageFault>
    requires { KeepsEnd live.now.mailbox known }
    ensures finds { FindsTarget S.sees.tells (S.sees.files shelf.old) live.now.mailbox result }
    // All texts of the map stand before there.
    ensures free { IfOk result (IsFreeFrom live.now.mailbox) }
    ensures small { IfOk result (λ target. target.offset < 2097152) }
    // Nothing is changed, and no message file is read; a fault of the disk has its cause.
    ensures looks { S.sees.tells → OnlyLooks S.sees shelf.old shelf.new }
    ensures mail_reads { S.sees.mail_reads shelf.new ≡ S.sees.mail_reads shelf.old }
    ensures cause { HasStorageCause (S.sees.fault_count shelf.old) (S.sees.fault_count shelf.new)
        result }
{
    let tail = last_tail(live, known);
    if let Some(target) = place_behind(tail) {
        return Ok(target);
    }
    match new_file(alloc, shelf, tail) {
        Ok(file) => Ok(Target { file, offset: 0 }),
        Err(e) => Err(e),
    }
}
