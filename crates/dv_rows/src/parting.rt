ghost use Rattle.std.specs.Prelude.{◌≡◌, ◌≤◌, All, IfOk, false, filter, length, nat_eq, not, refl, take, if◌then◌else◌};
ghost use Rattle.std.specs.List.{list_any};
ghost use Rattle.std.specs.List.Sorted.{IsStrictlyIncreasing};
ghost use Rattle.dv_rows.specs.Kept.{AreRows};
ghost use Rattle.dv_rows.specs.Parted.{is_among, is_missing};

use crate::places::{place_from, place_of};
use crate::rows::Rows;
use crate::walks::Step;
use dv_model::{Duplicate, NoMemory, Row};
use std::alloc::Global;

/// Copies of the rows with these UIDs, each found by halves.
pub fn copies(alloc: Global, rows: &[Row], uids: &[u32]) -> Result<Vec<Row>, NoMemory>
    requires rows { AreRows rows.now }
    requires rising { IsStrictlyIncreasing uids.now }
    ensures { IfOk result (λ made. made.items
        ≡ filter (λ row. is_among uids.now row.uid) rows.now) }
{
    let mut made = Vec::with_capacity(alloc, uids.len())?;
    for uid in uids {
        if let Some(at) = place_of(rows, *uid) {
            made.push(rows[at].duplicate(alloc)?)?;
        }
    }
    Ok(made)
}

// Whether no row of the part has this UID.
fn lacks(part: &Rows, uid: u32) -> bool
    ensures { result ≡ not (list_any (λ row. nat_eq row.uid uid) part.now.rows) }
{
    part.position(uid).is_none()
}

/// A place before which no row has one of these UIDs, which rise, and is missing in the part: that
/// of the first one, or the end.
pub fn first_missing(rows: &[Row], uids: &[u32], part: &Rows) -> usize
    requires rows { AreRows rows.now }
    requires rising { IsStrictlyIncreasing uids.now }
    ensures inside { result ≤ length rows.now }
    ensures before { All (λ row. is_missing uids.now part.now.rows row.uid
        ≡ false) (take result rows.now) }
{
    for uid in uids {
        if lacks(part, *uid) {
            return place_from(rows, *uid);
        }
    }
    rows.len()
}

/// A row that is missing in the part leaves.
#[derive(Drop)]
pub struct MarkMissing<'a> {
    pub part: &'a Rows,
}

impl<'a> Step<u32> for MarkMissing<'a> {
    ghost after = { λ s r p. record p {
      note = if list_any (λ row. nat_eq row.uid p.row.uid) s.part.now.rows then p.note
          else (if nat_eq p.row.flags 0 then 1 else 0);
    } };

    fn step(&self, _range: &u32, row: &mut Row, note: &mut u8) {
        if lacks(self.part, row.uid) {
            *note = if row.flags == 0 { 1 } else { 0 };
        }
    }

    ghost keeps = { λ s r p. refl };
}
