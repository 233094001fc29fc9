ghost use Rattle.std.specs.Prelude.{◌≡◌, ℕ, List, IfOk, Ok, Err};
ghost use Rattle.dv_model.specs.declared.types.Extension.{Extension};
ghost use Rattle.dv_model.specs.declared.types.Mailbox.{Mailbox};
ghost use Rattle.dv_model.specs.declared.types.Mark.{Mark};
ghost use Rattle.dv_formats.specs.Snapshots.{IsSnapshot};
ghost use Rattle.dv_formats.specs.SnapshotFaults.{AreTables, IsFault, IsRowFault, head_of};
ghost use Rattle.dv_index.specs.declared.fault.IndexEnd.TheVariants as end;
ghost use Rattle.dv_index.specs.declared.fault.IndexFault.{IndexFault};
ghost use Rattle.dv_index.specs.declared.fault.IndexFault.TheVariants as faults;
ghost use Rattle.dv_index.specs.Reading.{Answers, HasHeader, IsTextOf, OnCheck, OnFault, fault_of};

mod checks;
mod extensions;
mod header;
mod keywords;
mod parts;
mod records;
mod tables;

use crate::fault::{IndexEnd, IndexFault};
use checks::{first_unordered, has_flag_counts, has_length, has_row_size, read_current};
use dv_model::{Bytes, Extension, List, Mailbox, Mark};
use dv_num::u32_at;
use header::{highest_at, test_header};
use records::read_records;
use std::alloc::Global;
use tables::read_tables;

fn failed(check: u8) -> IndexEnd
    ensures { result ≡ end.Fault (faults.Counts check) }
{
    IndexEnd::Fault(IndexFault::Counts { check })
}

// Reads what stands behind the tables, into the mailbox of the header and the tables.
fn read_rows(alloc: Global, b: &[u8], head: Mailbox) -> Result<Mailbox, IndexEnd>
    requires header { HasHeader b.now }
    requires tables { AreTables head.keywords head.extensions b.now }
    requires head { head ≡ head_of head.keywords head.extensions b.now }
    ensures found { IfOk result (λ m. IsTextOf m b.now) }
    ensures fault { OnFault result (λ f. IsRowFault head f b.now) }
{
    if !has_row_size(b, &head) {
        return Err(failed(3));
    }
    if !has_length(b) {
        return Err(failed(4));
    }
    let Some(current) = read_current(b, head.extensions.as_slice()) else {
        return Err(failed(5));
    };
    let rows = read_records(alloc, b, &head)?;
    if !has_flag_counts(b, rows.as_slice()) {
        return Err(failed(7));
    }
    if let Some(at) = first_unordered(b) {
        return Err(IndexEnd::Fault(IndexFault::Order { at }));
    }
    Ok(Mailbox {
        rows,
        current,
        ..head
    })
}

// The mailbox of the header and the tables, yet without its rows and its current extension.
fn read_head(alloc: Global, b: &[u8]) -> Result<Mailbox, IndexEnd>
    requires header { HasHeader b.now }
    ensures found { IfOk result (λ m. AreTables m.keywords m.extensions b.now
        × (m ≡ head_of m.keywords m.extensions b.now)) }
    ensures check { OnCheck result 2
        ((names : List (List ℕ)) (es : List Extension) → AreTables names es b.now → ⊥) }
{
    let (keywords, extensions) = read_tables(alloc, b)?;
    Ok(Mailbox {
        uid_validity: u32_at(b, 24),
        next_uid: u32_at(b, 28),
        rows: List::new(alloc),
        keywords,
        extensions,
        current: None,
        highest: highest_at(b),
    })
}

// Reads a text part by part.
fn read_text(alloc: Global, b: &[u8]) -> Result<(Mailbox, u32, Mark, u8), IndexEnd>
    ensures found { IfOk result (λ x. IsSnapshot x.3 x.0 x.1 x.2 b.now) }
    ensures fault { OnFault result (λ f. IsFault f b.now) }
{
    test_header(b)?;
    let head = read_head(alloc, b)?;
    let mailbox = read_rows(alloc, b, head)?;
    let mark = Mark {
        file_seq: u32_at(b, 36),
        offset: u32_at(b, 40),
    };
    Ok((mailbox, u32_at(b, 16), mark, b[1]))
}

/// Reads a snapshot of version 1 or 2: the mailbox, the `indexid`, the place of the log up to
/// which it goes, and the version. A text of version 1 has no modification sequences: each is 1.
///
/// The fault is the first that the text has, in the order of `IndexFault`. The time and the memory
/// go by the number of bytes and not by the counts that they claim.
pub fn read(alloc: Global, b: &[u8]) -> Result<(Mailbox, u32, Mark, u8), IndexEnd>
    // What is read stands there.
    ensures found { IfOk result (λ x. IsSnapshot x.3 x.0 x.1 x.2 b.now) }
    // What stands there is read.
    ensures only { (version : ℕ) (m : Mailbox) (indexid : ℕ) (mark : Mark)
        → IsSnapshot version m indexid mark b.now
        → Answers result (Ok (m, indexid, mark, version)) }
    // A fault is the first that the text has.
    ensures fault { OnFault result (λ f. IsFault f b.now) }
    // The first fault that the text has comes.
    ensures every { (f : IndexFault) → IsFault (fault_of f) b.now
        → Answers result (Err (end.Fault f)) }
{
    read_text(alloc, b)
}
