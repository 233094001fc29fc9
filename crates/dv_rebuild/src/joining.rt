//! Which records of which files are salvaged behind a snapshot, or behind nothing.

ghost use Rattle.std.specs.Prelude.{◌≡◌, ◌+◌, ◌&&◌, List, Option, None, Some, length, nat_eq, IfOk, IfSome};
ghost use Rattle.dv_model.specs.Mailboxes.{IsValid};
ghost use Rattle.dv_logfile.specs.Scans.{GoodLog, Spot};
ghost use Rattle.dv_openings.specs.Openings.{number_before, records_from, with_numbers};
ghost use Rattle.dv_openings.specs.Salvages as salvages;
ghost use Rattle.dv_openings.specs.Salvages.{from_snapshot, salvaged_anew, salvaged_from, salvaged_in_log, salvaged_in_rotated, with_file_from};
ghost use Rattle.dv_chain.specs.Files.{HasHeader, HasSpots, IsFileOf, IsInside, good_file, snapshot_in, snapshot_of};
ghost use Rattle.dv_rebuild.specs.Walks.{salvaged_of};

use crate::salvage::{Salvage, from_snapshot, nothing, snapshot_alone};
use dv_chain::{File, Index, is_before, is_next};
use dv_model::OpenFault;
use std::alloc::Global;

/// From a snapshot with the records behind its mark in a file, before which so many records stand.
fn resume(alloc: Global, file: &File, index: Index, before: u32) -> Result<Salvage, OpenFault>
    requires header { HasHeader file.now }
    requires inside { IsInside file.now index.mark.offset }
    requires valid { IsValid index.mailbox }
    ensures { (spots left : List Spot) → HasSpots spots file.now →
        records_from (good_file file.now spots) index.mark.offset ≡ Some left →
        before + length left ≡ length spots →
        IfOk result (λ made. salvaged_of made
        ≡ with_file_from (good_file file.now spots) index.mark.offset left (from_snapshot
        (with_numbers (snapshot_of index) (number_before (good_file file.now spots) left)))) }
{
    let place = index.mark.offset;
    let salvage = from_snapshot(alloc, index, file.number_behind(before))?;
    salvage.with_file_from(alloc, file, place)
}

/// From a snapshot behind whose mark in the rotated log the log goes on.
fn from_rotated(
    alloc: Global,
    log: &File,
    first: &File,
    index: Index,
    before: u32,
) -> Result<Salvage, OpenFault>
    requires log { HasHeader log.now }
    requires header { HasHeader first.now }
    requires inside { IsInside first.now index.mark.offset }
    requires valid { IsValid index.mailbox }
    ensures { (spots others left : List Spot) → HasSpots spots log.now →
        HasSpots others first.now →
        records_from (good_file first.now others) index.mark.offset ≡ Some left →
        before + length left ≡ length others →
        IfOk result (λ made. salvaged_of made ≡ salvages.with_file (good_file log.now spots)
        (with_file_from (good_file first.now others) index.mark.offset left (from_snapshot
        (with_numbers (snapshot_of index) (number_before (good_file first.now others) left))))) }
{
    let salvage = resume(alloc, first, index, before)?;
    salvage.with_file(alloc, log)
}

/// From a snapshot whose mark is in neither file: at the end that the log's header names, or alone.
fn from_end(alloc: Global, log: &File, index: Index) -> Result<Salvage, OpenFault>
    requires log { HasHeader log.now }
    requires valid { IsValid index.mailbox }
    ensures { (spots : List Spot) (before : Option GoodLog) → HasSpots spots log.now →
        salvaged_in_log (good_file log.now spots) (snapshot_of index) ≡ None →
        salvaged_in_rotated (good_file log.now spots) before (snapshot_of index) ≡ None →
        IfOk result (λ made. salvaged_of made
        ≡ salvaged_from (good_file log.now spots) before (Some (snapshot_of index))) }
{
    if !is_before(log, index.mark) {
        return snapshot_alone(alloc, index);
    }
    let salvage = from_snapshot(alloc, index, log.number())?;
    salvage.with_file(alloc, log)
}

/// From a snapshot whose mark isn't in the log.
fn from_earlier(
    alloc: Global,
    log: &File,
    rotated: &Option<File>,
    index: Index,
) -> Result<Salvage, OpenFault>
    requires log { HasHeader log.now }
    requires rotated { IfSome rotated.now HasHeader }
    requires valid { IsValid index.mailbox }
    ensures { (spots : List Spot) (before : Option GoodLog) → HasSpots spots log.now →
        IsFileOf rotated.now before →
        salvaged_in_log (good_file log.now spots) (snapshot_of index) ≡ None →
        IfOk result (λ made. salvaged_of made
        ≡ salvaged_from (good_file log.now spots) before (Some (snapshot_of index))) }
{
    let mark = index.mark;
    match rotated {
        Some(first) => {
            if !is_next(mark.file_seq, log.header.file_seq) {
                return from_end(alloc, log, index);
            }
            match first.records_before(mark.offset)? {
                Some(before) => from_rotated(alloc, log, first, index, before),
                None => from_end(alloc, log, index),
            }
        }
        None => from_end(alloc, log, index),
    }
}

/// From a snapshot.
fn from_index(
    alloc: Global,
    log: &File,
    rotated: &Option<File>,
    index: Index,
) -> Result<Salvage, OpenFault>
    requires log { HasHeader log.now }
    requires rotated { IfSome rotated.now HasHeader }
    requires valid { IsValid index.mailbox }
    ensures { (spots : List Spot) (before : Option GoodLog) → HasSpots spots log.now →
        IsFileOf rotated.now before → IfOk result (λ made. salvaged_of made
        ≡ salvaged_from (good_file log.now spots) before (Some (snapshot_of index))) }
{
    let mark = index.mark;
    if mark.file_seq != log.header.file_seq {
        return from_earlier(alloc, log, rotated, index);
    }
    match log.records_before(mark.offset)? {
        Some(before) => resume(alloc, log, index, before),
        None => from_earlier(alloc, log, rotated, index),
    }
}

/// From nothing: the rotated log before the second log of all, else the log alone.
fn from_nothing(alloc: Global, log: &File, rotated: &Option<File>) -> Result<Salvage, OpenFault>
    requires log { HasHeader log.now }
    requires rotated { IfSome rotated.now HasHeader }
    ensures { (spots : List Spot) (before : Option GoodLog) → HasSpots spots log.now →
        IsFileOf rotated.now before → IfOk result (λ made. salvaged_of made
        ≡ salvaged_anew (good_file log.now spots) before) }
{
    let salvage = nothing(alloc, log.header.indexid);
    if log.header.file_seq != 2 {
        return salvage.with_file(alloc, log);
    }
    match rotated {
        Some(first) => {
            let salvage = salvage.with_file(alloc, first)?;
            salvage.with_file(alloc, log)
        }
        None => salvage.with_file(alloc, log),
    }
}

/// What is salvaged of a log, of the rotated log that goes before it, and of a snapshot of its
/// mailbox. `NoMemory` is the only error. The time is that of reading the files and of applying
/// their records.
pub fn join(
    alloc: Global,
    log: &File,
    rotated: &Option<File>,
    index: Option<Index>,
) -> Result<Salvage, OpenFault>
    requires log { HasHeader log.now }
    requires rotated { IfSome rotated.now HasHeader }
    requires valid { IfSome index (λ i. IsValid i.mailbox) }
    ensures { (spots : List Spot) (before : Option GoodLog) → HasSpots spots log.now →
        IsFileOf rotated.now before → IfOk result (λ made. salvaged_of made
        ≡ salvaged_from (good_file log.now spots) before (snapshot_in index)) }
{
    match index {
        Some(index) => from_index(alloc, log, rotated, index),
        None => from_nothing(alloc, log, rotated),
    }
}
