ghost use Rattle.std.specs.Prelude.{◌≡◌, ◌≤◌, List, ℕ, ◌+◌, ◌-◌, ◌<◌, ◌^◌, ◌||◌, not, nat_eq, nat_lt, Option, length};
ghost use Rattle.dv_model.specs.Spelling.{IsPair, IsNewRow, IsChange, IsGuidRow, IsPart, IsIntro, padded};
ghost use Rattle.dv_records.specs.Fronts.{GivesFront, front_size, padded_size, pair_front, new_row_front, change_front, guid_row_front, part_front, intro_front};

use crate::fault::{DecodeEnd, RecordFault};
use dv_model::{Change, GuidRow, Intro, List, NewRow, Pair, Part};
use dv_num::{u16_at, u32_at};
use std::alloc::Global;

/// What isn't of the form of its record's type.
pub const BAD: DecodeEnd = DecodeEnd::Fault(RecordFault::BadPayload);

/// An item of a record's payload.
pub trait Read: Drop + Sized {
    ghost spelled: { Self → List ℕ → Type 0 };

    ghost size: { Self → ℕ };

    ghost front: { List ℕ → Option Self };

    /// How many bytes the item takes that begins these bytes; None where none does.
    fn front_size(bytes: &[u8]) -> Option<usize>
        ensures { result ≡ front_size size (front bytes.now) };

    /// The item that begins these bytes, and how many of them it takes.
    fn read(alloc: Global, bytes: &[u8]) -> Result<(Self, usize), DecodeEnd>
        ensures { GivesFront size result (front bytes.now) };
}

// Whether these are the ends of a range of UIDs.
fn are_ends(first: u32, last: u32) -> bool
    ensures { result ≡ not (nat_eq first 0 || nat_lt last first) }
{
    first != 0 && first <= last
}

// Whether a message can have this UID.
fn is_uid(uid: u32) -> bool
    ensures { result ≡ not (nat_eq uid 0 || nat_eq uid (2 ^ 32 - 1)) }
{
    uid != 0 && uid != u32::MAX
}

#[tactic(auto, unfolding(crate::specs::Fronts::pair_front))]
fn pair_of(bytes: &[u8]) -> Option<Pair>
    ensures { result ≡ pair_front bytes.now }
{
    if bytes.len() < 8 {
        return None;
    }
    let first = u32_at(bytes, 0);
    let last = u32_at(bytes, 4);
    if !are_ends(first, last) {
        return None;
    }
    Some(Pair { first, last })
}

#[tactic(auto, unfolding(crate::specs::Fronts::new_row_front))]
fn new_row_of(bytes: &[u8]) -> Option<NewRow>
    ensures { result ≡ new_row_front bytes.now }
{
    if bytes.len() < 8 {
        return None;
    }
    let uid = u32_at(bytes, 0);
    if !is_uid(uid) {
        return None;
    }
    let flags = bytes[4];
    Some(NewRow { uid, flags })
}

#[tactic(auto, unfolding(crate::specs::Fronts::change_front))]
fn change_of(bytes: &[u8]) -> Option<Change>
    ensures { result ≡ change_front bytes.now }
{
    if bytes.len() < 12 {
        return None;
    }
    let first = u32_at(bytes, 0);
    let last = u32_at(bytes, 4);
    if !are_ends(first, last) {
        return None;
    }
    Some(Change {
        first,
        last,
        add: bytes[8],
        remove: bytes[9],
    })
}

#[tactic(auto, unfolding(crate::specs::Fronts::guid_row_front))]
fn guid_row_of(bytes: &[u8]) -> Option<GuidRow>
    ensures { result ≡ guid_row_front bytes.now }
{
    if bytes.len() < 20 {
        return None;
    }
    let uid = u32_at(bytes, 0);
    if !is_uid(uid) {
        return None;
    }
    let mut guid = [0; 16];
    guid.copy_from_slice(&bytes[4..20]);
    Some(GuidRow { uid, guid })
}

/// How many bytes an item takes whose text stands behind so many, with its size in the two before.
pub fn padded_size(bytes: &[u8], head: usize) -> Option<usize>
    requires some { 2 ≤ head }
    requires small { head < 2 ^ 16 }
    ensures { result ≡ padded_size bytes.now head }
{
    if bytes.len() < head {
        return None;
    }
    let size = padded(head + usize::from(u16_at(bytes, head - 2)));
    if bytes.len() < size {
        return None;
    }
    Some(size)
}

impl Read for Pair {
    ghost spelled = { IsPair };

    ghost size = { λ pair. 8 };

    ghost front = { pair_front };

    fn front_size(bytes: &[u8]) -> Option<usize> {
        match pair_of(bytes) {
            Some(_) => Some(8),
            None => None,
        }
    }

    fn read(_: Global, bytes: &[u8]) -> Result<(Pair, usize), DecodeEnd> {
        match pair_of(bytes) {
            Some(pair) => Ok((pair, 8)),
            None => Err(BAD),
        }
    }
}

impl Read for NewRow {
    ghost spelled = { IsNewRow };

    ghost size = { λ row. 8 };

    ghost front = { new_row_front };

    fn front_size(bytes: &[u8]) -> Option<usize> {
        match new_row_of(bytes) {
            Some(_) => Some(8),
            None => None,
        }
    }

    fn read(_: Global, bytes: &[u8]) -> Result<(NewRow, usize), DecodeEnd> {
        match new_row_of(bytes) {
            Some(row) => Ok((row, 8)),
            None => Err(BAD),
        }
    }
}

impl Read for Change {
    ghost spelled = { IsChange };

    ghost size = { λ change. 12 };

    ghost front = { change_front };

    fn front_size(bytes: &[u8]) -> Option<usize> {
        match change_of(bytes) {
            Some(_) => Some(12),
            None => None,
        }
    }

    fn read(_: Global, bytes: &[u8]) -> Result<(Change, usize), DecodeEnd> {
        match change_of(bytes) {
            Some(change) => Ok((change, 12)),
            None => Err(BAD),
        }
    }
}

impl Read for GuidRow {
    ghost spelled = { IsGuidRow };

    ghost size = { λ row. 20 };

    ghost front = { guid_row_front };

    fn front_size(bytes: &[u8]) -> Option<usize> {
        match guid_row_of(bytes) {
            Some(_) => Some(20),
            None => None,
        }
    }

    fn read(_: Global, bytes: &[u8]) -> Result<(GuidRow, usize), DecodeEnd> {
        match guid_row_of(bytes) {
            Some(row) => Ok((row, 20)),
            None => Err(BAD),
        }
    }
}

impl Read for Part {
    ghost spelled = { IsPart };

    ghost size = { λ part. padded (4 + length part.bytes) };

    ghost front = { part_front };

    #[tactic(auto, unfolding(crate::specs::Fronts::part_front))]
    fn front_size(bytes: &[u8]) -> Option<usize> {
        padded_size(bytes, 4)
    }

    #[tactic(auto, unfolding(crate::specs::Fronts::part_front))]
    fn read(alloc: Global, bytes: &[u8]) -> Result<(Part, usize), DecodeEnd> {
        let size = padded_size(bytes, 4).ok_or(BAD)?;
        let offset = u16_at(bytes, 0);
        let len = usize::from(u16_at(bytes, 2));
        let bytes = List::from_slice(alloc, &bytes[4..4 + len])?;
        Ok((Part { offset, bytes }, size))
    }
}

impl Read for Intro {
    ghost spelled = { IsIntro };

    ghost size = { λ intro. padded (20 + length intro.name) };

    ghost front = { intro_front };

    #[tactic(auto, unfolding(crate::specs::Fronts::intro_front))]
    fn front_size(bytes: &[u8]) -> Option<usize> {
        padded_size(bytes, 20)
    }

    #[tactic(auto, unfolding(crate::specs::Fronts::intro_front))]
    fn read(alloc: Global, bytes: &[u8]) -> Result<(Intro, usize), DecodeEnd> {
        let size = padded_size(bytes, 20).ok_or(BAD)?;
        let len = usize::from(u16_at(bytes, 18));
        let intro = Intro {
            ext_id: u32_at(bytes, 0),
            reset_id: u32_at(bytes, 4),
            hdr_size: u32_at(bytes, 8),
            record_size: u16_at(bytes, 12),
            record_align: u16_at(bytes, 14),
            flags: u16_at(bytes, 16),
            name: List::from_slice(alloc, &bytes[20..20 + len])?,
        };
        Ok((intro, size))
    }
}

/// The next multiple of four.
pub fn padded(n: usize) -> usize
    requires { n < 2 ^ 32 }
    ensures { result ≡ padded n }
{
    n + (4 - n % 4) % 4
}
