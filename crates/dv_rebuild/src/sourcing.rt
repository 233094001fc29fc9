//! Which files the flags and keywords come from.

ghost use Rattle.std.specs.Prelude.{◌≡◌, List, Option, is_some, IfOk, IfSome};
ghost use Rattle.dv_logfile.specs.Scans.{GoodLog, Scanned, Spot};
ghost use Rattle.dv_openings.specs.Openings.{records_from};
ghost use Rattle.dv_openings.specs.Salvages.{salvaged_in_log, salvaged_in_rotated};
ghost use Rattle.dv_chain.specs.Files.{HasHeader, HasSpots, IsFileOf, good_file, snapshot_in, snapshot_of};
ghost use Rattle.dv_rebuild.specs.Reading.{IsGoodOf};
ghost use Rattle.dv_rebuild.specs.Sources.{read_in, source_of, sources_of, taken_behind, taken_from};

use crate::reporting::{Source, Sources};
use dv_chain::{File, Index, is_before, is_next};
use dv_model::OpenFault;

/// Of each of the files, whether something holds.
#[derive(Clone, Copy)]
pub struct Which {
    pub log: bool,
    pub rotated: bool,
    pub index: bool,
}

/// Of each of the files, whether its rows or records are taken.
#[derive(Clone, Copy)]
pub struct Taken {
    pub log: bool,
    /// The rotated log goes before the log.
    pub joins: bool,
    pub rotated: bool,
    pub index: bool,
}

/// Whether a record begins at this place of a file, or all end there.
fn is_place(file: &File, place: u32) -> Result<bool, OpenFault>
    requires { HasHeader file.now }
    ensures { (spots : List Spot) → HasSpots spots file.now →
        IfOk result (λ is. is ≡ is_some (records_from (good_file file.now spots) place)) }
{
    match file.records_before(place)? {
        Some(_) => Ok(true),
        None => Ok(false),
    }
}

/// Whether the snapshot's mark is a place in the log.
fn is_in_log(log: &File, index: &Index) -> Result<bool, OpenFault>
    requires { HasHeader log.now }
    ensures { (spots : List Spot) → HasSpots spots log.now → IfOk result (λ is.
        is ≡ is_some (salvaged_in_log (good_file log.now spots) (snapshot_of index.now))) }
{
    if index.mark.file_seq != log.header.file_seq {
        return Ok(false);
    }
    is_place(log, index.mark.offset)
}

/// Whether it is one in the rotated log that goes before the log.
fn is_in_rotated(log: &File, rotated: &Option<File>, index: &Index) -> Result<bool, OpenFault>
    requires { IfSome rotated.now HasHeader }
    ensures { (spots : List Spot) (before : Option GoodLog) → IsFileOf rotated.now before →
        IfOk result (λ is. is ≡ is_some
        (salvaged_in_rotated (good_file log.now spots) before (snapshot_of index.now))) }
{
    match rotated {
        Some(first) => {
            if !is_next(index.mark.file_seq, log.header.file_seq) {
                return Ok(false);
            }
            is_place(first, index.mark.offset)
        }
        None => Ok(false),
    }
}

/// Which files are taken behind a snapshot.
fn taken_behind(log: &File, rotated: &Option<File>, index: &Index) -> Result<Taken, OpenFault>
    requires log { HasHeader log.now }
    requires rotated { IfSome rotated.now HasHeader }
    ensures { (spots : List Spot) (before : Option GoodLog) → HasSpots spots log.now →
        IsFileOf rotated.now before → IfOk result (λ taken. taken
        ≡ taken_behind (good_file log.now spots) before (snapshot_of index.now)) }
{
    let in_log = is_in_log(log, index)?;
    let in_rotated = is_in_rotated(log, rotated, index)?;
    Ok(Taken {
        log: in_log || in_rotated || is_before(log, index.mark),
        joins: rotated.is_some(),
        rotated: !in_log && in_rotated,
        index: true,
    })
}

/// Which files are taken, of a log, of the rotated log that goes before it and of a snapshot of its
/// mailbox.
pub fn taken_from(
    log: &File,
    rotated: &Option<File>,
    index: &Option<Index>,
) -> Result<Taken, OpenFault>
    requires log { HasHeader log.now }
    requires rotated { IfSome rotated.now HasHeader }
    ensures { (spots : List Spot) (before : Option GoodLog) → HasSpots spots log.now →
        IsFileOf rotated.now before → IfOk result (λ taken. taken
        ≡ taken_from (good_file log.now spots) before (snapshot_in index.now)) }
{
    match index {
        Some(index) => taken_behind(log, rotated, index),
        None => Ok(Taken {
            log: true,
            joins: rotated.is_some(),
            rotated: rotated.is_some() && log.header.file_seq == 2,
            index: false,
        }),
    }
}

/// Which files could be read.
pub fn read_in(log: &Option<File>, rotated: &Option<File>, index: &Option<Index>) -> Which
    ensures { (front : Option GoodLog) (scan : Scanned) → IsFileOf log.now front →
        IsGoodOf rotated.now scan → result ≡ read_in front scan (snapshot_in index.now) }
{
    Which {
        log: log.is_some(),
        rotated: rotated.is_some(),
        index: index.is_some(),
    }
}

/// What came of a file that is there or isn't, could be read, belongs to the log, and is taken.
fn source_of(there: bool, read: bool, belongs: bool, taken: bool) -> Source
    ensures { result ≡ source_of there read belongs taken }
{
    if !there {
        Source::Missing
    } else if !read {
        Source::Broken
    } else if !belongs {
        Source::Apart
    } else if !taken {
        Source::Unused
    } else {
        Source::Taken
    }
}

/// What came of each file.
pub fn sources_of(there: Which, read: Which, taken: Taken) -> Sources
    ensures { result ≡ sources_of there read taken }
{
    Sources {
        log: source_of(there.log, read.log, true, taken.log),
        rotated: source_of(there.rotated, read.rotated, taken.joins, taken.rotated),
        index: source_of(there.index, read.index, taken.index, taken.index),
    }
}
