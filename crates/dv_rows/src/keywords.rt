ghost use Rattle.std.specs.Prelude.{◌≡◌, ℕ, ◌<◌, true, List, All, IfOk, get_or, OnErr, OnOk, length, map, refl, vec_capacity, vec_len};
ghost use Rattle.dv_model.specs.Effects.{is_in_pair, is_in_pairs, keywords_after};
ghost use Rattle.dv_model.specs.declared.types.How.{How};
ghost use Rattle.dv_model.specs.declared.types.Pair.{Pair};
ghost use Rattle.dv_model.specs.declared.types.Row.{Row};
ghost use Rattle.dv_rows.specs.Changed.{IsOther, changed_keywords};
ghost use Rattle.dv_rows.specs.Kept.{AreRows};
ghost use Rattle.dv_rows.specs.Plans.{IsPlan, IsPlanned, IsRight};
ghost use Rattle.dv_rows.specs.Steps.{without_keywords};
ghost use Rattle.dv_validity.specs.Laws.{restamped};

use crate::places::place_from;
use crate::walks::Step;
use dv_model::{Duplicate, How, List, NoMemory, Pair, Row};
use std::alloc::Global;

/// Other keywords of the row at a place.
#[derive(Drop)]
pub struct Other {
    pub at: usize,
    pub keywords: List<u32>,
}

// A row's keywords, which are places in the table, behind a change of one of them, where they are
// others then.
fn other_keywords(
    alloc: Global,
    row: &Row,
    how: How,
    place: u32,
) -> Result<Option<List<u32>>, NoMemory>
    ensures { IfOk result (λ other. IsOther how place row.now other) }
{
    let mut keywords = row.keywords.duplicate(alloc)?;
    dv_keywords::change(alloc, how, place, &mut keywords)?;
    if keywords.as_slice() == row.keywords.as_slice() {
        return Ok(None);
    }
    Ok(Some(keywords))
}

// Adds those of the row at a place.
fn plan_row(
    alloc: Global,
    rows: &[Row],
    at: usize,
    how: How,
    place: u32,
    others: &mut Vec<Other>,
) -> Result<(), NoMemory>
    requires { at < length rows.now }
    ensures right { (pairs : List Pair) →
        ((d : Row) → is_in_pairs pairs (get_or rows.now at d).uid ≡ true)
        → All (IsRight pairs how place rows.now) others.old.items →
        OnOk result (All (IsRight pairs how place rows.now) others.new.items) }
    ensures more { (k : ℕ) → IsPlanned how place rows.now others.old.items k →
        OnOk result (IsPlanned how place rows.now others.new.items k) }
    ensures here { OnOk result (IsPlanned how place rows.now others.new.items at) }
{
    let Some(keywords) = other_keywords(alloc, &rows[at], how, place)? else {
        return Ok(());
    };
    others.push(Other { at, keywords })?;
    Ok(())
}

// Adds those of the rows in one range.
fn plan_range(
    alloc: Global,
    rows: &[Row],
    pair: &Pair,
    how: How,
    place: u32,
    others: &mut Vec<Other>,
) -> Result<(), NoMemory>
    requires { AreRows rows.now }
    ensures right { (pairs : List Pair) →
        ((uid : ℕ) → is_in_pair uid pair.now ≡ true → is_in_pairs pairs uid ≡ true)
        → All (IsRight pairs how place rows.now) others.old.items →
        OnOk result (All (IsRight pairs how place rows.now) others.new.items) }
    ensures more { (k : ℕ) → IsPlanned how place rows.now others.old.items k →
        OnOk result (IsPlanned how place rows.now others.new.items k) }
    ensures all { OnOk result ((k : ℕ) (d : Row) → k < length rows.now →
        is_in_pair (get_or rows.now k d).uid pair.now ≡ true →
        IsPlanned how place rows.now others.new.items k) }
{
    let mut at = place_from(rows, pair.first);
    while at < rows.len() && rows[at].uid <= pair.last {
        plan_row(alloc, rows, at, how, place, others)?;
        at += 1;
    }
    Ok(())
}

fn plan(
    alloc: Global,
    rows: &[Row],
    pairs: &[Pair],
    how: How,
    place: u32,
) -> Result<Vec<Other>, NoMemory>
    requires { AreRows rows.now }
    ensures { IfOk result (λ others. IsPlan pairs.now how place rows.now others.items) }
{
    let mut others = Vec::new(alloc);
    for pair in pairs {
        plan_range(alloc, rows, pair, how, place, &mut others)?;
    }
    Ok(others)
}

fn put(row: &mut Row, keywords: List<u32>, modseq: u64)
    ensures { row.new ≡ record row.old { keywords = keywords; modseq = modseq } }
{
    row.keywords = keywords;
    row.modseq = modseq;
}

// Puts them into the rows, which then have this modification sequence.
fn put_others(rows: &mut [Row], others: Vec<Other>, modseq: u64)
    requires { All (λ other. other.at < length rows.old) others.items }
    ensures { (pairs : List Pair) (how : How) (place : ℕ) →
        IsPlan pairs how place rows.old others.items
        → rows.new
        ≡ map (λ row. restamped modseq row
        (changed_keywords pairs (keywords_after how place) row)) rows.old }
{
    let mut others = others;
    while let Some(other) = others.pop() {
        put(&mut rows[other.at], other.keywords, modseq);
    }
}

/// Changes one keyword of the rows in the ranges. After `NoMemory` they are as before.
pub fn change_keywords(
    alloc: Global,
    rows: &mut Vec<Row>,
    pairs: &[Pair],
    how: How,
    place: u32,
    modseq: u64,
) -> Result<(), NoMemory>
    requires { AreRows rows.old.items }
    ensures ok { OnOk result (rows.new.items
        ≡ map (λ row. restamped modseq row
        (changed_keywords pairs.now (keywords_after how place) row)) rows.old.items) }
    ensures err { OnErr result (rows.new.items ≡ rows.old.items) }
    ensures len { vec_len rows.new ≡ vec_len rows.old }
    ensures capacity { vec_capacity rows.new ≡ vec_capacity rows.old }
{
    let others = plan(alloc, rows, pairs, how, place)?;
    put_others(rows.as_mut_slice(), others, modseq);
    Ok(())
}

/// Takes all keywords from a row. One that had some then has this modification sequence.
#[derive(Drop)]
pub struct ClearKeywords {
    pub alloc: Global,
    pub modseq: u64,
}

impl Step<Pair> for ClearKeywords {
    ghost after = { λ s r. without_keywords s.modseq };

    fn step(&self, _range: &Pair, row: &mut Row, _note: &mut u8) {
        if row.keywords.is_empty() {
            return;
        }
        row.keywords = List::new(self.alloc);
        row.modseq = self.modseq;
    }

    ghost keeps = { λ s r p. refl };
}
