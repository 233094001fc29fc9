ghost use Rattle.std.specs.Prelude.{◌≡◌, ◌+◌, ◌-◌, ◌<◌, ◌≤◌, ◌^◌, not, map, bit_and, nat_eq, length, slice_set, IfOk, if◌then◌else◌};
ghost use Rattle.dv_rows.specs.Noted.{IsTally, note_count};

use dv_model::{NoMemory, Row};
use std::alloc::Global;

/// The flag Deleted (Dovecot's `MAIL_DELETED`).
pub const DELETED: u8 = 0x04;

/// The flag Seen (Dovecot's `MAIL_SEEN`).
pub const SEEN: u8 = 0x08;

/// How many rows have the flags Seen and Deleted.
#[derive(Clone, Copy)]
pub struct Counts {
    pub seen: u32,
    pub deleted: u32,
}

/// The flags of each row.
pub fn flags_of(alloc: Global, rows: &[Row]) -> Result<Vec<u8>, NoMemory>
    ensures { IfOk result (λ made. made.items ≡ map (λ row. row.flags) rows.now) }
{
    let mut notes = Vec::new(alloc);
    for row in rows {
        notes.push(row.flags)?;
    }
    Ok(notes)
}

// How many of these flags have the bit.
fn note_count(notes: &[u8], flag: u8) -> u32
    requires { length notes.now < 2 ^ 32 }
    ensures { result ≡ note_count flag notes.now }
{
    notes.iter().filter(|note| **note & flag != 0).count() as u32
}

/// How many of these flags have Seen, and how many Deleted.
pub fn tally(notes: &[u8]) -> Counts
    requires { length notes.now < 2 ^ 32 }
    ensures { IsTally result notes.now }
{
    Counts {
        seen: note_count(notes, SEEN),
        deleted: note_count(notes, DELETED),
    }
}

/// 1 where the flag is among these, and else 0.
pub fn flag_number(flags: u8, flag: u8) -> u32
    ensures { result ≡ (if not (nat_eq (bit_and flags flag) 0) then 1 else 0) }
{
    if flags & flag != 0 { 1 } else { 0 }
}

// The count where these flags take the place of those.
fn recount(count: u32, flag: u8, old: u8, new: u8) -> u32
    requires has { (if not (nat_eq (bit_and old flag) 0) then 1 else 0) ≤ count }
    requires fits { count - (if not (nat_eq (bit_and old flag) 0) then 1 else 0) +
        (if not (nat_eq (bit_and new flag) 0) then 1 else 0) < 2 ^ 32 }
    ensures { result
        ≡ count - (if not (nat_eq (bit_and old flag) 0) then 1 else 0) +
        (if not (nat_eq (bit_and new flag) 0) then 1 else 0) }
{
    count - flag_number(old, flag) + flag_number(new, flag)
}

/// Puts these flags at a place, and counts by the difference.
pub fn put_note(notes: &mut [u8], counts: &mut Counts, at: usize, new: u8)
    requires inside { at < length notes.old }
    requires few { length notes.old < 2 ^ 32 }
    requires tally { IsTally counts.old notes.old }
    ensures notes { notes.new ≡ slice_set notes.old at new }
    ensures tally { IsTally counts.new notes.new }
{
    let old = notes[at];
    counts.seen = recount(counts.seen, SEEN, old, new);
    counts.deleted = recount(counts.deleted, DELETED, old, new);
    notes[at] = new;
}
