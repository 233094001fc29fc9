//! What is salvaged of a mailbox, while the records of log files are applied to it.

ghost use Rattle.std.specs.Prelude.{◌≡◌, ℕ, ◌≤◌, List, Some, length, is_some, IfOk, OnOk};
ghost use Rattle.std.specs.List.{list_any};
ghost use Rattle.dv_model.specs.Effects.{header_number};
ghost use Rattle.dv_model.specs.Mailboxes.{IsValid, last_modseq};
ghost use Rattle.dv_model.specs.Spelling.{IsRecord};
ghost use Rattle.dv_logfile.specs.Layout.{last_end};
ghost use Rattle.dv_logfile.specs.Scans.{Spot};
ghost use Rattle.dv_openings.specs.Openings.{records_from, with_numbers};
ghost use Rattle.dv_openings.specs.Salvages as salvages;
ghost use Rattle.dv_openings.specs.Salvages.{from_snapshot, gives_validity, nothing, with_file_from, with_spots};
ghost use Rattle.dv_chain.specs.Files.{HasHeader, HasSpots, IsInside, good_file, snapshot_of};
ghost use Rattle.dv_chain.specs.Walks.{IsLeft};
ghost use Rattle.dv_rebuild.specs.Walks.{TakesOne, salvaged_of};

use dv_apply::{ApplyFault, Live};
use dv_chain::{File, Index, record_at};
use dv_model::{Body, OpenFault, Part, Record};
use std::alloc::Global;

/// The place of the UIDVALIDITY in the header (Dovecot's `mail_index_header`), and that behind it.
const VALIDITY_AT: usize = 24;

const VALIDITY_END: usize = 28;

/// A mailbox, as far as it is salvaged.
#[derive(Drop)]
pub struct Salvage {
    pub live: Live,
    /// A snapshot or a header update gave the UIDVALIDITY.
    pub given: bool,
    /// Records are still applied: none was refused.
    pub going: bool,
}

/// Whether the part covers all of the UIDVALIDITY.
fn has_validity(part: &Part) -> bool
    ensures { result ≡ is_some (header_number part.now 24) }
{
    let from = usize::from(part.offset);
    let bytes = part.bytes.as_slice();
    from <= VALIDITY_AT && VALIDITY_END <= from + bytes.len()
}

/// Whether one of the parts does.
fn have_validity(parts: &[Part]) -> bool
    ensures { result ≡ list_any (λ part. is_some (header_number part 24)) parts.now }
{
    parts.iter().any(|part| has_validity(part))
}

/// Whether the record gives a UIDVALIDITY.
fn gives_validity(r: &Record) -> bool
    ensures { result ≡ gives_validity r.now }
{
    match &r.body {
        Body::HeaderUpdate(parts) => have_validity(parts.as_slice()),
        _ => false,
    }
}

/// A mailbox of which nothing is known. Takes no memory.
pub fn nothing(alloc: Global, indexid: u32) -> Salvage
    ensures { salvaged_of result ≡ nothing indexid }
{
    Salvage {
        live: Live::empty(alloc, indexid),
        given: false,
        going: true,
    }
}

/// What a snapshot gives before records. One of version 1 has no modification sequences of its own:
/// each is this number.
pub fn from_snapshot(alloc: Global, index: Index, n: u64) -> Result<Salvage, OpenFault>
    requires valid { IsValid index.mailbox }
    requires some { 1 ≤ n }
    requires small { n ≤ last_modseq }
    ensures { IfOk result (λ made. salvaged_of made
        ≡ from_snapshot (with_numbers (snapshot_of index) n)) }
{
    Ok(Salvage {
        live: index.start(alloc, n)?,
        given: true,
        going: true,
    })
}

/// What a snapshot gives alone.
pub fn snapshot_alone(alloc: Global, index: Index) -> Result<Salvage, OpenFault>
    requires { IsValid index.mailbox }
    ensures { IfOk result (λ made. salvaged_of made ≡ from_snapshot index.mailbox) }
{
    Ok(Salvage {
        live: Live::of(alloc, index.mailbox)?,
        given: true,
        going: true,
    })
}

impl Salvage {
    /// Applies a record, unless one was refused before. One that is refused ends all applying.
    fn take(&mut self, r: &Record) -> Result<(), OpenFault>
        requires { IsRecord r.now }
        ensures { OnOk result (TakesOne (salvaged_of self.old) r.now (salvaged_of self.new)) }
    {
        if !self.going {
            return Ok(());
        }
        match self.live.apply(r) {
            Ok(()) => {
                let gives = gives_validity(r);
                self.given = self.given || gives;
                Ok(())
            }
            Err(ApplyFault::BadAppend { .. }) => {
                self.going = false;
                Ok(())
            }
            Err(ApplyFault::NoMemory) => Err(OpenFault::NoMemory),
        }
    }

    /// The mailbox with the records from a place on, up to the first closed place.
    fn with_rest(self, alloc: Global, b: &[u8], from: usize) -> Result<Salvage, OpenFault>
        requires inside { from ≤ length b.now }
        requires fits { from ≤ last_end }
        ensures { (spots : List Spot) (end : ℕ) → IsLeft b.now from spots end →
            IfOk result (λ made. salvaged_of made ≡ with_spots (salvaged_of self) spots) }
    {
        let mut salvage = self;
        let mut at = from;
        while let Some((record, behind)) = record_at(alloc, b, at)? {
            let taken = salvage.take(&record);
            drop(record);
            taken?;
            at = behind;
        }
        Ok(salvage)
    }

    /// The mailbox with all records of a file.
    pub fn with_file(self, alloc: Global, file: &File) -> Result<Salvage, OpenFault>
        requires { HasHeader file.now }
        ensures { (spots : List Spot) → HasSpots spots file.now → IfOk result (λ made.
            salvaged_of made
            ≡ salvages.with_file (good_file file.now spots) (salvaged_of self)) }
    {
        let mut salvage = self;
        if !salvage.going {
            return Ok(salvage);
        }
        salvage.live.raise(file.number());
        let from = usize::from(file.header.hdr_size);
        salvage.with_rest(alloc, file.bytes.as_slice(), from)
    }

    /// The mailbox with a file's records from a place on; from the first place on means all.
    pub fn with_file_from(
        self,
        alloc: Global,
        file: &File,
        place: u32,
    ) -> Result<Salvage, OpenFault>
        requires header { HasHeader file.now }
        requires inside { IsInside file.now place }
        ensures { (spots left : List Spot) → HasSpots spots file.now →
            records_from (good_file file.now spots) place ≡ Some left →
            IfOk result (λ made. salvaged_of made
            ≡ with_file_from (good_file file.now spots) place left (salvaged_of self)) }
    {
        if place == u32::from(file.header.hdr_size) {
            return self.with_file(alloc, file);
        }
        self.with_rest(alloc, file.bytes.as_slice(), place as usize)
    }
}
