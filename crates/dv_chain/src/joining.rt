//! Which records of which files stand behind a snapshot, or behind nothing.

ghost use Rattle.std.specs.Prelude.{◌≡◌, ℕ, ◌+◌, ◌&&◌, List, Option, None, Some, length, nat_eq, IfOk, IfSome};
ghost use Rattle.dv_model.specs.Mailboxes.{IsValid};
ghost use Rattle.dv_logfile.specs.Scans.{GoodLog, Spot};
ghost use Rattle.dv_openings.specs.Openings.{applied_from, from_either, from_index, from_nothing, in_log, in_rotated, joins, number_before, records_from, then_file, with_numbers};
ghost use Rattle.dv_chain.specs.Files.{HasHeader, HasSpots, IsFileOf, IsInside, good_file, snapshot_in, snapshot_of};
ghost use Rattle.dv_chain.specs.Openings.{Joins};
ghost use Rattle.dv_chain.specs.Walks.{Applies, NoDisk};

use crate::file::File;
use crate::index::Index;
use dv_apply::Live;
use dv_model::{Mark, OpenFault};
use std::alloc::Global;

/// Whether one number comes next behind another.
pub fn is_next(before: u32, number: u32) -> bool
    ensures { result ≡ nat_eq (before + 1) number }
{
    u64::from(before) + 1 == u64::from(number)
}

/// Whether the rotated log goes before the log, which names its number and its end.
pub fn goes_before(log: &File, rotated: &File) -> bool
    ensures { (spots before : List Spot) →
        result ≡ joins (good_file log.now spots) (good_file rotated.now before) }
{
    rotated.header.indexid == log.header.indexid
        && is_next(rotated.header.file_seq, log.header.file_seq)
        && log.header.prev_file_seq == rotated.header.file_seq
        && log.header.prev_file_offset == rotated.end
}

/// Whether a snapshot stands at the end of the file before the log, as the log's header names it.
pub fn is_before(log: &File, mark: Mark) -> bool
    ensures { result ≡ (nat_eq (mark.file_seq + 1) log.now.header.file_seq
        && nat_eq mark.offset log.now.header.prev_file_offset
        && nat_eq mark.file_seq log.now.header.prev_file_seq) }
{
    is_next(mark.file_seq, log.header.file_seq)
        && mark.offset == log.header.prev_file_offset
        && mark.file_seq == log.header.prev_file_seq
}

/// The place of the log's first record.
fn first_mark(log: &File) -> Mark
    ensures { result
        ≡ record { file_seq = log.now.header.file_seq; offset = log.now.header.hdr_size } }
{
    Mark {
        file_seq: log.header.file_seq,
        offset: u32::from(log.header.hdr_size),
    }
}

/// The mailbox of a snapshot with the records behind its mark in a file, before which so many
/// records stand.
fn resume(alloc: Global, file: &File, index: Index, before: u32) -> Result<Live, OpenFault>
    requires header { HasHeader file.now }
    requires inside { IsInside file.now index.mark.offset }
    requires valid { IsValid index.mailbox }
    ensures given { (spots left : List Spot) → HasSpots spots file.now →
        records_from (good_file file.now spots) index.mark.offset ≡ Some left →
        before + length left ≡ length spots →
        Applies result (applied_from (good_file file.now spots) index.mark.offset left
        (with_numbers (snapshot_of index) (number_before (good_file file.now spots) left))) }
    ensures disk { NoDisk result }
{
    let place = index.mark.offset;
    let live = index.start(alloc, file.number_behind(before))?;
    file.apply_from(alloc, place, live)
}

/// From a snapshot behind whose mark in the rotated log the log goes on.
fn from_rotated(
    alloc: Global,
    log: &File,
    first: &File,
    index: Index,
    before: u32,
) -> Result<Live, OpenFault>
    requires log { HasHeader log.now }
    requires header { HasHeader first.now }
    requires inside { IsInside first.now index.mark.offset }
    requires valid { IsValid index.mailbox }
    ensures given { (spots others left : List Spot) → HasSpots spots log.now →
        HasSpots others first.now →
        records_from (good_file first.now others) index.mark.offset ≡ Some left →
        before + length left ≡ length others →
        Applies result (then_file (good_file log.now spots)
        (applied_from (good_file first.now others) index.mark.offset left
        (with_numbers (snapshot_of index) (number_before (good_file first.now others) left)))) }
    ensures disk { NoDisk result }
{
    let live = resume(alloc, first, index, before)?;
    log.apply_all(alloc, live)
}

/// From a snapshot whose mark is in neither file: it is at the end that the log's header names.
fn from_end(alloc: Global, log: &File, index: Index) -> Result<Live, OpenFault>
    requires log { HasHeader log.now }
    requires valid { IsValid index.mailbox }
    ensures given { (spots : List Spot) (before : Option GoodLog) → HasSpots spots log.now →
        in_log (good_file log.now spots) (snapshot_of index) ≡ None →
        in_rotated (good_file log.now spots) before (snapshot_of index) ≡ None →
        Joins (good_file log.now spots) result
        (from_index (good_file log.now spots) before (snapshot_of index)) }
    ensures disk { NoDisk result }
{
    let mark = index.mark;
    if !is_before(log, mark) {
        return Err(OpenFault::Gap {
            index: mark,
            log: first_mark(log),
        });
    }
    let live = index.start(alloc, log.number())?;
    log.apply_all(alloc, live)
}

/// From a snapshot whose mark isn't in the log.
fn from_earlier(
    alloc: Global,
    log: &File,
    rotated: &Option<File>,
    index: Index,
) -> Result<Live, OpenFault>
    requires log { HasHeader log.now }
    requires rotated { IfSome rotated.now HasHeader }
    requires valid { IsValid index.mailbox }
    ensures given { (spots : List Spot) (before : Option GoodLog) → HasSpots spots log.now →
        IsFileOf rotated.now before →
        in_log (good_file log.now spots) (snapshot_of index) ≡ None →
        Joins (good_file log.now spots) result
        (from_index (good_file log.now spots) before (snapshot_of index)) }
    ensures disk { NoDisk result }
{
    let mark = index.mark;
    match rotated {
        Some(first) => {
            if !is_next(mark.file_seq, log.header.file_seq) {
                return from_end(alloc, log, index);
            }
            match first.records_before(mark.offset)? {
                Some(before) => from_rotated(alloc, log, first, index, before),
                None => from_end(alloc, log, index),
            }
        }
        None => from_end(alloc, log, index),
    }
}

/// From a snapshot. The rotated log is freed before the log is applied where it isn't needed.
fn from_index(
    alloc: Global,
    log: &File,
    rotated: Option<File>,
    index: Index,
) -> Result<Live, OpenFault>
    requires log { HasHeader log.now }
    requires rotated { IfSome rotated HasHeader }
    requires valid { IsValid index.mailbox }
    ensures given { (spots : List Spot) (before : Option GoodLog) → HasSpots spots log.now →
        IsFileOf rotated before → Joins (good_file log.now spots) result
        (from_index (good_file log.now spots) before (snapshot_of index)) }
    ensures disk { NoDisk result }
{
    let mark = index.mark;
    if mark.file_seq != log.header.file_seq {
        return from_earlier(alloc, log, &rotated, index);
    }
    match log.records_before(mark.offset)? {
        Some(before) => {
            drop(rotated);
            resume(alloc, log, index, before)
        }
        None => from_earlier(alloc, log, &rotated, index),
    }
}

/// From nothing: the first log of all, or the second behind the first.
fn from_nothing(alloc: Global, log: &File, rotated: &Option<File>) -> Result<Live, OpenFault>
    requires log { HasHeader log.now }
    requires rotated { IfSome rotated.now HasHeader }
    ensures given { (spots : List Spot) (before : Option GoodLog) → HasSpots spots log.now →
        IsFileOf rotated.now before → Joins (good_file log.now spots) result
        (from_nothing (good_file log.now spots) before) }
    ensures disk { NoDisk result }
{
    let live = Live::empty(alloc, log.header.indexid);
    if log.header.file_seq == 1 {
        return log.apply_all(alloc, live);
    }
    match rotated {
        Some(first) => {
            if log.header.file_seq != 2 {
                return Err(OpenFault::BadIndex);
            }
            let live = first.apply_all(alloc, live)?;
            log.apply_all(alloc, live)
        }
        None => Err(OpenFault::BadIndex),
    }
}

/// The mailbox that the files give at the log's end: from the snapshot, where there is one, and
/// else from nothing.
pub fn join(
    alloc: Global,
    log: &File,
    rotated: Option<File>,
    index: Option<Index>,
) -> Result<Live, OpenFault>
    requires log { HasHeader log.now }
    requires rotated { IfSome rotated HasHeader }
    requires valid { IfSome index (λ i. IsValid i.mailbox) }
    ensures given { (spots : List Spot) (before : Option GoodLog) → HasSpots spots log.now →
        IsFileOf rotated before → Joins (good_file log.now spots) result
        (from_either (good_file log.now spots) before (snapshot_in index)) }
    ensures disk { NoDisk result }
{
    match index {
        Some(index) => from_index(alloc, log, rotated, index),
        None => from_nothing(alloc, log, &rotated),
    }
}
