//! The new log, made ready before it is written.

ghost use Rattle.std.specs.Prelude.{◌≡◌, All, List, None, Option, Some, IfOk, IfSome};
ghost use Rattle.dv_model.specs.Mailboxes.{IsValid};
ghost use Rattle.dv_model.specs.Spelling.{IsRecord, IsUid};
ghost use Rattle.dv_logfile.specs.Scans.{GoodLog, Scanned, Spot};
ghost use Rattle.dv_openings.specs.Openings as openings;
ghost use Rattle.dv_openings.specs.Openings.{joining};
ghost use Rattle.dv_openings.specs.Salvages.{rebuilt_records, salvaged_in};
ghost use Rattle.dv_chain.specs.Files.{HasHeader, HasSpots, IsFileOf, good_file, snapshot_in};
ghost use Rattle.dv_rebuild.specs.Plans.{AreUsed, HasLogNumbers, Plans, Salvages, header_of, text_in_time, there_in};
ghost use Rattle.dv_rebuild.specs.Reading.{IsGoodOf};
ghost use Rattle.dv_rebuild.specs.Sources.{taken_in};
ghost use Rattle.dv_rebuild.specs.Walks.{salvaged_of};

use crate::joining::join;
use crate::naming::{listed, new_indexid};
use crate::reading::{Texts, front_in, header_in, index_in, rotated_in};
use crate::records::rebuilt_records;
use crate::remaining::remains_of;
use crate::reporting::{Remains, Sources};
use crate::salvage::{Salvage, nothing, snapshot_alone};
use crate::sourcing::{Taken, Which, read_in, sources_of, taken_from};
use dv_chain::{File, Index, first_header, goes_before};
use dv_logfile::{LogHeader, create};
use dv_model::{Bytes, List, NoMemory, OpenFault};
use std::alloc::Global;

/// The most bytes of a file.
const LONGEST_LOG: usize = 1_073_741_824;

/// The snapshot, where it is of the log's mailbox.
fn counted(log: &File, index: Option<Index>) -> Option<Index>
    requires { IfSome index (λ i. IsValid i.mailbox) }
    ensures valid { IfSome result (λ i. IsValid i.mailbox) }
    ensures is { (spots : List Spot) → snapshot_in result
        ≡ openings.counted (good_file log.now spots) (snapshot_in index) }
{
    match index {
        Some(index) => {
            if index.indexid == log.header.indexid {
                Some(index)
            } else {
                None
            }
        }
        None => None,
    }
}

/// The rotated log, where it goes before the log.
fn joined(log: &File, rotated: Option<File>) -> Option<File>
    requires { IfSome rotated HasHeader }
    ensures header { IfSome result HasHeader }
    ensures is { (spots : List Spot) (scan : Scanned) → IsGoodOf rotated scan →
        IsFileOf result (joining (good_file log.now spots) scan) }
{
    match rotated {
        Some(first) => {
            if goes_before(log, &first) {
                Some(first)
            } else {
                None
            }
        }
        None => None,
    }
}

/// What is salvaged of a log, of the rotated log where it has no fault, and of a snapshot, and
/// which of them are taken.
fn with_log(
    alloc: Global,
    log: &File,
    rotated: Option<File>,
    index: Option<Index>,
) -> Result<(Salvage, Taken), OpenFault>
    requires log { HasHeader log.now }
    requires rotated { IfSome rotated HasHeader }
    requires valid { IfSome index (λ i. IsValid i.mailbox) }
    ensures salvaged { (spots : List Spot) (scan : Scanned) → HasSpots spots log.now →
        IsGoodOf rotated scan → IfOk result (λ made. salvaged_of made.0
        ≡ salvaged_in (Some (good_file log.now spots)) scan (snapshot_in index)) }
    ensures taken { (spots : List Spot) (scan : Scanned) → HasSpots spots log.now →
        IsGoodOf rotated scan → IfOk result (λ made. made.1
        ≡ taken_in (Some (good_file log.now spots)) scan (snapshot_in index)) }
{
    let first = joined(log, rotated);
    let index = counted(log, index);
    let taken = taken_from(log, &first, &index)?;
    let salvage = join(alloc, log, &first, index)?;
    Ok((salvage, taken))
}

/// What is salvaged without a log: the snapshot alone, where there is one.
fn without_log(alloc: Global, index: Option<Index>) -> Result<(Salvage, Taken), OpenFault>
    requires { IfSome index (λ i. IsValid i.mailbox) }
    ensures salvaged { (scan : Scanned) → IfOk result (λ made. salvaged_of made.0
        ≡ salvaged_in None scan (snapshot_in index)) }
    ensures taken { (scan : Scanned) → IfOk result (λ made. made.1
        ≡ taken_in None scan (snapshot_in index)) }
{
    let taken = Taken {
        log: false,
        joins: false,
        rotated: false,
        index: index.is_some(),
    };
    match index {
        Some(index) => Ok((snapshot_alone(alloc, index)?, taken)),
        None => Ok((nothing(alloc, 0), taken)),
    }
}

/// The indexids that the log, the rotated log of these bytes and the snapshot have.
fn used_in(
    alloc: Global,
    log: &Option<File>,
    rotated: &Option<Bytes>,
    index: &Option<Index>,
) -> Result<List<u32>, NoMemory>
    ensures { (front : Option GoodLog) → IsFileOf log.now front →
        IfOk result (AreUsed front rotated.now (snapshot_in index.now)) }
{
    let of_log = log.as_ref().map(|file| file.header.indexid);
    let of_rotated = header_in(rotated).map(|header| header.indexid);
    let of_index = index.as_ref().map(|index| index.indexid);
    listed(alloc, of_log, of_rotated, of_index)
}

/// What is salvaged of a log up to its first fault, of a rotated log without one, and of a
/// snapshot, and which of them are taken.
fn from_files(
    alloc: Global,
    log: Option<File>,
    rotated: Option<File>,
    index: Option<Index>,
) -> Result<(Salvage, Taken), OpenFault>
    requires log { IfSome log HasHeader }
    requires rotated { IfSome rotated HasHeader }
    requires valid { IfSome index (λ i. IsValid i.mailbox) }
    ensures salvaged { (front : Option GoodLog) (scan : Scanned) → IsFileOf log front →
        IsGoodOf rotated scan → IfOk result (λ made. salvaged_of made.0
        ≡ salvaged_in front scan (snapshot_in index)) }
    ensures taken { (front : Option GoodLog) (scan : Scanned) → IsFileOf log front →
        IsGoodOf rotated scan → IfOk result (λ made. made.1
        ≡ taken_in front scan (snapshot_in index)) }
{
    match log {
        Some(log) => with_log(alloc, &log, rotated, index),
        None => without_log(alloc, index),
    }
}

/// Which of the files are there.
fn there_in(texts: &Texts) -> Which
    ensures { result ≡ there_in texts.now }
{
    Which {
        log: texts.log.is_some(),
        rotated: texts.rotated.is_some(),
        index: texts.index.is_some(),
    }
}

/// What is salvaged of a folder's files, the indexids that they have, and what came of each.
fn salvage(alloc: Global, texts: Texts) -> Result<(Salvage, List<u32>, Sources), OpenFault>
    ensures { IfOk result (λ x. Salvages texts (salvaged_of x.0) x.1 x.2) }
{
    let there = there_in(&texts);
    let log = front_in(alloc, texts.log)?;
    let index = index_in(alloc, &texts.index)?;
    let used = used_in(alloc, &log, &texts.rotated, &index)?;
    let rotated = rotated_in(texts.rotated)?;
    let read = read_in(&log, &rotated, &index);
    let (salvage, taken) = from_files(alloc, log, rotated, index)?;
    Ok((salvage, used, sources_of(there, read, taken)))
}

/// The new log's header: the first of its files, whose modification sequences go on.
fn header(indexid: u32, stamp: u32, highest: u64) -> LogHeader
    ensures { result ≡ header_of indexid stamp highest }
{
    LogHeader {
        create_stamp: stamp,
        initial_modseq: highest,
        ..first_header(indexid)
    }
}

/// The new log's text, or none where it would be too long.
fn text_of(
    alloc: Global,
    salvage: &Salvage,
    kept: &[u32],
    indexid: u32,
    stamp: u32,
) -> Result<Option<Bytes>, NoMemory>
    requires { All IsUid kept.now }
    ensures text { IfOk result (λ text. text ≡ text_in_time
        (header_of indexid stamp salvage.now.live.mailbox.highest)
        (rebuilt_records (salvaged_of salvage.now) kept.now indexid)) }
    ensures records { IfOk result (λ _.
        All IsRecord (rebuilt_records (salvaged_of salvage.now) kept.now indexid)) }
    ensures left { IfOk result (λ _. HasLogNumbers salvage.now.live.mailbox) }
{
    let records = rebuilt_records(alloc, salvage, kept, indexid)?;
    let header = header(indexid, stamp, salvage.live.highest());
    let text = create(alloc, &header, &records)?;
    if text.len() > LONGEST_LOG {
        return Ok(None);
    }
    Ok(Some(text))
}

/// A new log: its number and its text, and what was left for it beside the message files.
#[derive(Drop)]
pub struct NewLog {
    pub indexid: u32,
    pub text: Bytes,
    pub remains: Remains,
}

/// The new log of a folder, from the texts of its files, the UIDs that are kept, rising, and a
/// clock's reading; none where it would be too long. `NoMemory` is the only error.
pub fn plan(
    alloc: Global,
    texts: Texts,
    kept: &[u32],
    now: u32,
) -> Result<Option<NewLog>, OpenFault>
    requires { All IsUid kept.now }
    ensures { IfOk result (Plans texts kept.now now) }
{
    let (salvage, used, sources) = salvage(alloc, texts)?;
    let indexid = new_indexid(used.as_slice(), now);
    let made = text_of(alloc, &salvage, kept, indexid, now.max(1))?;
    let Some(text) = made else {
        return Ok(None);
    };
    let remains = remains_of(&salvage, sources, kept, indexid)?;
    Ok(Some(NewLog {
        indexid,
        text,
        remains,
    }))
}
