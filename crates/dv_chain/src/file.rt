//! A log file as it is kept while its folder is opened.

ghost use Rattle.std.specs.Prelude.{◌≡◌, ◌+◌, ◌≤◌, List, Some, min, IfOk, IfSome};
ghost use Rattle.dv_model.specs.Mailboxes.{last_modseq};
ghost use Rattle.dv_logfile.specs.Scans.{Spot};
ghost use Rattle.dv_openings.specs.Openings.{applied_from, file_applied, file_number, records_from};
ghost use Rattle.dv_chain.specs.Files.{HasHeader, HasSpots, IsInside, ReadsFile, good_file};
ghost use Rattle.dv_chain.specs.Walks.{Applies, Counts, NoDisk};

use crate::walking::{apply_from, count_between, measure};
use dv_apply::Live;
use dv_logfile::{LogHeader, read_header};
use dv_model::{Bytes, OpenFault};
use std::alloc::Global;

/// The largest modification sequence (RFC 7162, section 7).
const LAST_MODSEQ: u64 = 9_223_372_036_854_775_807;

/// A log file: its bytes, its header, where its records end, and how many they are.
#[derive(Drop)]
pub struct File {
    pub bytes: Bytes,
    pub header: LogHeader,
    pub end: u32,
    pub count: u32,
}

impl File {
    /// The file of these bytes. `BadLogHeader` and `BadRecord` say what is wrong with it.
    pub fn read(bytes: Bytes) -> Result<File, OpenFault>
        ensures read { ReadsFile bytes result }
        ensures disk { NoDisk result }
    {
        let header = match read_header(bytes.as_slice()) {
            Some(header) => header,
            None => return Err(OpenFault::BadLogHeader),
        };
        let (end, count) = measure(bytes.as_slice(), usize::from(header.hdr_size))?;
        Ok(File {
            bytes,
            header,
            end,
            count,
        })
    }

    /// The modification sequence before its first record.
    pub fn number(&self) -> u64
        ensures is { result ≡ file_number self.now.header }
        ensures some { 1 ≤ result }
        ensures small { result ≤ last_modseq }
    {
        self.header.initial_modseq.max(1).min(LAST_MODSEQ)
    }

    /// The modification sequence behind so many of its records.
    pub fn number_behind(&self, count: u32) -> u64
        ensures is { result ≡ min (file_number self.now.header + count) last_modseq }
        ensures some { 1 ≤ result }
        ensures small { result ≤ last_modseq }
    {
        (self.number() + u64::from(count)).min(LAST_MODSEQ)
    }

    /// How many records stand before a place, where one begins or all end there.
    pub fn records_before(&self, place: u32) -> Result<Option<u32>, OpenFault>
        requires { HasHeader self.now }
        ensures inside { IfOk result (λ n. IfSome n (λ _. IsInside self.now place)) }
        ensures counted { (spots : List Spot) → HasSpots spots self.now →
            Counts result spots (records_from (good_file self.now spots) place) }
        ensures disk { NoDisk result }
    {
        let from = usize::from(self.header.hdr_size);
        count_between(self.bytes.as_slice(), from, place as usize)
    }

    /// The mailbox with all of its records.
    pub fn apply_all(&self, alloc: Global, live: Live) -> Result<Live, OpenFault>
        requires { HasHeader self.now }
        ensures applied { (spots : List Spot) → HasSpots spots self.now →
            Applies result (file_applied (good_file self.now spots) live.mailbox) }
        ensures disk { NoDisk result }
    {
        let mut live = live;
        live.raise(self.number());
        let from = usize::from(self.header.hdr_size);
        apply_from(alloc, self.bytes.as_slice(), from, live)
    }

    /// The mailbox with its records from a place on; from the first place on means all of them.
    pub fn apply_from(&self, alloc: Global, place: u32, live: Live) -> Result<Live, OpenFault>
        requires header { HasHeader self.now }
        requires inside { IsInside self.now place }
        ensures applied { (spots left : List Spot) → HasSpots spots self.now →
            records_from (good_file self.now spots) place ≡ Some left →
            Applies result (applied_from (good_file self.now spots) place left live.mailbox) }
        ensures disk { NoDisk result }
    {
        if place == u32::from(self.header.hdr_size) {
            return self.apply_all(alloc, live);
        }
        apply_from(alloc, self.bytes.as_slice(), place as usize, live)
    }
}
