ghost use Rattle.std.specs.Prelude.{◌≡◌, ℕ, ◌<◌, ◌≤◌, [], ◌∷◌, ◌++◌, List, All, OnErr, OnOk, drop, length, map, nat_eq, take, vec_capacity, vec_len, if◌then◌else◌};
ghost use Rattle.std.proofs.Math.ListN.{set};
ghost use Rattle.std.specs.Prelude.{get_or};
ghost use Rattle.std.specs.List.Sorted.{IsStrictlyIncreasing};
ghost use Rattle.dv_model.specs.declared.types.How.TheVariants.{Add};
ghost use Rattle.dv_model.specs.declared.types.Row.{Row};
ghost use Rattle.dv_model.specs.Effects.{keywords_after, without_place};
ghost use Rattle.dv_rows.specs.Adding.{AreGiven, AreInOrder, IsGap, added};
ghost use Rattle.dv_rows.specs.Changed.{changed_keywords};
ghost use Rattle.dv_rows.specs.Kept.{AreRows};
ghost use Rattle.dv_rows.specs.Parted.{is_among};
ghost use Rattle.dv_validity.specs.Laws.{restamped};

use crate::naming::name_ranges;
use crate::parts::taken;
use crate::places::place_of;
use dv_model::{How, List, NoMemory, Pair, Row};
use std::alloc::Global;

/// The place of a row that was given a keyword, and the modification sequence that it had.
#[derive(Drop)]
pub struct Given {
    pub at: usize,
    pub modseq: u64,
}

// Where a place goes among others, which rise, unless it is there. Found by halves.
fn gap(places: &[u32], place: u32) -> Option<usize>
    requires { IsStrictlyIncreasing places.now }
    ensures { IsGap place places.now result }
{
    let at = places.partition_point(|known| *known < place);
    if at < places.len() && places[at] == place {
        return None;
    }
    Some(at)
}

// Puts a place into the gap among a row's keywords, which is to have this modification sequence.
fn give(alloc: Global, row: &mut Row, gap: usize, place: u32, modseq: u64) -> Result<(), NoMemory>
    requires { gap ≤ length row.old.keywords }
    ensures ok { OnOk result (row.new ≡ record row.old {
      keywords = take gap row.old.keywords ++ place ∷ drop gap row.old.keywords;
      modseq = modseq;
    }) }
    ensures err { OnErr result (row.new ≡ row.old) }
{
    let mut places = taken(alloc, &mut row.keywords);
    let done = places.insert(gap, place);
    row.keywords = List::from_vec(places);
    done?;
    row.modseq = modseq;
    Ok(())
}

// Gives the keyword to the row at a place, unless it has it.
fn give_at(
    alloc: Global,
    rows: &mut [Row],
    at: usize,
    place: u32,
    modseq: u64,
    given: &mut Vec<Given>,
) -> Result<(), NoMemory>
    requires inside { at < length rows.old }
    requires order { AreInOrder rows.old }
    ensures given { (before : List Row) →
        AreGiven place modseq before rows.old given.old.items →
        AreGiven place modseq before rows.new given.new.items }
    ensures ok { OnOk result ((d : Row) →
        rows.new ≡ set rows.old at (added modseq place (get_or rows.old at d))) }
{
    let Some(gap) = gap(rows[at].keywords.as_slice(), place) else {
        return Ok(());
    };
    let old = rows[at].modseq;
    given.push(Given { at, modseq: old })?;
    give(alloc, &mut rows[at], gap, place, modseq)
}

// Gives it to the row with this UID, where there is one.
fn give_one(
    alloc: Global,
    rows: &mut [Row],
    uid: u32,
    place: u32,
    modseq: u64,
    given: &mut Vec<Given>,
) -> Result<(), NoMemory>
    requires rows { AreRows rows.old }
    requires order { AreInOrder rows.old }
    ensures given { (before : List Row) →
        AreGiven place modseq before rows.old given.old.items →
        AreGiven place modseq before rows.new given.new.items }
    ensures ok { OnOk result (rows.new
        ≡ map (λ row. if nat_eq uid row.uid then added modseq place row else row) rows.old) }
{
    let Some(at) = place_of(rows, uid) else {
        return Ok(());
    };
    give_at(alloc, rows, at, place, modseq, given)
}

// Gives it to the rows with these UIDs.
fn give_each(
    alloc: Global,
    rows: &mut [Row],
    uids: &[u32],
    place: u32,
    modseq: u64,
    given: &mut Vec<Given>,
) -> Result<(), NoMemory>
    requires rows { AreRows rows.old }
    requires order { AreInOrder rows.old }
    ensures given { (before : List Row) →
        AreGiven place modseq before rows.old given.old.items →
        AreGiven place modseq before rows.new given.new.items }
    ensures ok { OnOk result (rows.new
        ≡ map (λ row. if is_among uids.now row.uid then added modseq place row
        else row) rows.old) }
{
    for uid in uids {
        give_one(alloc, rows, *uid, place, modseq, given)?;
    }
    Ok(())
}

// Takes a keyword back from a row.
fn take_one(alloc: Global, row: &mut Row, place: u32, modseq: u64)
    ensures { row.new
        ≡ record row.old { keywords = without_place place row.old.keywords; modseq = modseq } }
{
    let _ = dv_keywords::change(alloc, How::Remove, place, &mut row.keywords);
    row.modseq = modseq;
}

// Takes it back from all rows that were given it.
fn take_back(alloc: Global, rows: &mut [Row], given: Vec<Given>, place: u32)
    requires { All (λ (g : Given). g.at < length rows.old) given.items }
    ensures { (n : ℕ) (before : List Row) →
        AreGiven place n before rows.old given.items → rows.new ≡ before }
{
    let mut given = given;
    while let Some(last) = given.pop() {
        take_one(alloc, &mut rows[last.at], place, last.modseq);
    }
}

// Gives the keyword to the rows with these UIDs. After `NoMemory` they are as before.
fn add_to(
    alloc: Global,
    rows: &mut [Row],
    uids: &[u32],
    place: u32,
    modseq: u64,
) -> Result<(), NoMemory>
    requires rows { AreRows rows.old }
    requires order { AreInOrder rows.old }
    ensures ok { OnOk result (rows.new
        ≡ map (λ row. if is_among uids.now row.uid then added modseq place row
        else row) rows.old) }
    ensures err { OnErr result (rows.new ≡ rows.old) }
{
    let mut given = Vec::new(alloc);
    match give_each(alloc, rows, uids, place, modseq, &mut given) {
        Ok(()) => Ok(()),
        Err(e) => {
            take_back(alloc, rows, given, place);
            Err(e)
        }
    }
}

/// Adds a keyword to the rows in the ranges, whose keywords rise, each in its place. After
/// `NoMemory` they are as before.
pub fn add_keyword(
    alloc: Global,
    rows: &mut Vec<Row>,
    pairs: &[Pair],
    place: u32,
    modseq: u64,
) -> Result<(), NoMemory>
    requires rows { AreRows rows.old.items }
    requires order { AreInOrder rows.old.items }
    ensures ok { OnOk result (rows.new.items
        ≡ map (λ row. restamped modseq row
        (changed_keywords pairs.now (keywords_after Add place) row)) rows.old.items) }
    ensures err { OnErr result (rows.new.items ≡ rows.old.items) }
    ensures len { vec_len rows.new ≡ vec_len rows.old }
    ensures capacity { vec_capacity rows.new ≡ vec_capacity rows.old }
{
    let mut uids = Vec::new(alloc);
    name_ranges(rows, pairs, &mut uids)?;
    add_to(alloc, rows.as_mut_slice(), &uids, place, modseq)
}
