ghost use Rattle.std.specs.Prelude.{◌≡◌, ◌↔◌, ◌≤◌, length, IsTrue, OnOk};
ghost use Rattle.dv_formats.specs.SnapshotFaults.{HasNumbers, IsFault, IsKnown, highest_at, other_byte};
ghost use Rattle.dv_index.specs.Reading.{HasHeader, HasZeroEnd, OnFault};

use crate::fault::{IndexEnd, IndexFault};
use crate::words::are_zero;
use dv_num::{u32_at, u64_at};

// The largest modification sequence (RFC 7162, section 7).
const LAST_MODSEQ: u64 = 0x7fff_ffff_ffff_ffff;

// Whether a header begins as one of version 1 or 2.
fn is_known(b: &[u8]) -> bool
    requires { 120 ≤ length b.now }
    ensures { IsTrue result ↔ IsKnown b.now }
{
    b[0] == 201 && (b[1] == 1 || b[1] == 2) && b[2] == 120 && b[3] == 0
}

// The first byte of a header that isn't the one of version 2.
fn other_byte(b: &[u8]) -> u8
    requires { 120 ≤ length b.now }
    ensures { result ≡ other_byte b.now }
{
    if b[0] != 201 {
        b[0]
    } else if b[1] != 2 {
        b[1]
    } else if b[2] != 120 {
        b[2]
    } else {
        b[3]
    }
}

/// The highest modification sequence: 1 in a header of version 1.
pub fn highest_at(b: &[u8]) -> u64
    requires { 120 ≤ length b.now }
    ensures { result ≡ highest_at b.now }
{
    if b[1] == 1 { 1 } else { u64_at(b, 68) }
}

// Whether the bytes at the header's end are zero.
fn has_end(b: &[u8]) -> bool
    requires { 120 ≤ length b.now }
    ensures { IsTrue result ↔ HasZeroEnd b.now }
{
    let (header, _) = b.split_at(120);
    let (_, zeros) = header.split_at(if b[1] == 1 { 68 } else { 76 });
    are_zero(zeros)
}

// Whether the numbers that have to be zero are, and those that may not be aren't.
fn has_numbers(b: &[u8]) -> bool
    requires { 120 ≤ length b.now }
    ensures { IsTrue result ↔ HasNumbers b.now }
{
    let highest = highest_at(b);
    u32_at(b, 12) == 0
        && u32_at(b, 20) == 0
        && u32_at(b, 16) != 0
        && u32_at(b, 28) != 0
        && (1 <= highest && highest <= LAST_MODSEQ)
        && has_end(b)
}

/// The tests of the header.
pub fn test_header(b: &[u8]) -> Result<(), IndexEnd>
    ensures passed { OnOk result (HasHeader b.now) }
    ensures fault { OnFault result (λ f. IsFault f b.now) }
{
    if b.len() < 120 {
        let have = b.len() as u32;
        return Err(IndexEnd::Fault(IndexFault::Short { have }));
    }
    if !is_known(b) {
        let byte = other_byte(b);
        return Err(IndexEnd::Fault(IndexFault::Version { byte }));
    }
    if !has_numbers(b) {
        return Err(IndexEnd::Fault(IndexFault::Counts { check: 1 }));
    }
    Ok(())
}
