ghost use Rattle.std.specs.Prelude.{◌≡◌, ◌∷◌, ◌+◌, ◌<◌, ◌≤◌, ◌^◌, IfOk, OnErr, OnOk, List, drop, length, map, option_to_list};
ghost use Rattle.dv_model.specs.declared.types.Reply.TheVariants as reply;
ghost use Rattle.dv_model.specs.declared.types.Shown.{Shown as Given};
ghost use Rattle.dv_model.specs.declared.types.Step.TheVariants.{Full};
ghost use Rattle.dv_view.specs.Following.{AreGiven, rows_after};
ghost use Rattle.dv_view.specs.Told.{GoesOn, IsPlace, IsToldTo, row_of, tells, without};
ghost use Rattle.dv_view.specs.Orders.{AreRising};
ghost use Rattle.dv_view.specs.Taken.{HasTaken};
ghost use Rattle.dv_view.specs.Tells.{fetch_of, removals_of, said_of};

use crate::Replies;
use crate::fresh_places::{count_before, left_number};
use crate::places::{is_told, shows};
use dv_keywords::Table;
use dv_model::{Fresh, NoMemory, Reply, Shown, Step};
use std::alloc::Global;

fn add_expunge<R: Replies>(number: Option<u32>, said: &mut R) -> Result<(), NoMemory>
    ensures ok { OnOk result (said.new
        ≡ R.with said.old (map (λ n. reply.Expunge n) (option_to_list number))) }
    ensures err { OnErr result (said.new ≡ said.old) }
{
    if let Some(number) = number {
        said.take(Reply::Expunge(number))?;
    }
    Ok(())
}

// Adds one EXPUNGE for each row that has left, from the highest number down.
fn add_lost<R: Replies>(rows: &[Shown], fresh: &[Fresh], said: &mut R) -> Result<(), NoMemory>
    requires rising { AreRising rows.now }
    requires given { AreGiven fresh.now }
    ensures ok { OnOk result (said.new
        ≡ R.with said.old (removals_of (rows_after Full rows.now fresh.now) rows.now)) }
    ensures err { OnErr result (HasTaken R.with said.old said.new) }
{
    let mut at = fresh.len();
    while at > 0 {
        at -= 1;
        add_expunge(left_number(rows, &fresh[at]), said)?;
    }
    Ok(())
}

// Adds the EXPUNGEs of a step.
fn lost<R: Replies>(
    rows: &[Shown],
    fresh: &[Fresh],
    step: Step,
    said: &mut R,
) -> Result<(), NoMemory>
    requires rising { AreRising rows.now }
    requires given { AreGiven fresh.now }
    ensures ok { OnOk result (said.new
        ≡ R.with said.old (removals_of (rows_after step rows.now fresh.now) rows.now)) }
    ensures err { OnErr result (HasTaken R.with said.old said.new) }
{
    match step {
        Step::Held => Ok(()),
        Step::Full => add_lost(rows, fresh, said),
    }
}

// Whether the step tells of this change.
fn tells(step: Step, f: &Fresh) -> bool
    ensures { result ≡ tells step f.now }
{
    match step {
        Step::Held => f.row.is_some(),
        Step::Full => true,
    }
}

// A row of which is told, with its number behind the step.
#[derive(Clone, Copy)]
struct Told<'a> {
    number: u32,
    row: &'a Shown,
}

// What is told of the rows up to a place.
#[derive(Drop)]
struct Telling<'a> {
    // The place of the next row.
    from: usize,
    // The number that it has behind the step.
    number: usize,
    // Whether some row is new.
    grows: bool,
    // The rows that are new or changed.
    told: Vec<Told<'a>>,
}

// Tells of a row that is given.
fn tell_row<'a>(rows: &[Shown], s: &'a Shown, told: &mut Telling<'a>) -> Result<(), NoMemory>
    requires rising { AreRising rows.now }
    requires number { told.old.number < 2 ^ 32 }
    ensures told { OnOk result ((new rest : List Given)
        → GoesOn rows.now new (s.now ∷ rest) told.old
        → GoesOn rows.now new rest told.new) }
    ensures from { told.new.from ≡ told.old.from }
{
    if is_told(rows, s) {
        let number = told.number as u32;
        told.told.push(Told { number, row: s })?;
    }
    told.grows = told.grows || !shows(rows, s.uid);
    told.number += 1;
    Ok(())
}

// Goes on to the place of a UID, and gives the number of rows between.
fn pass(rows: &[Shown], uid: u32, told: &mut Telling<'_>) -> usize
    requires rising { AreRising rows.now }
    requires from { told.old.from ≤ length rows.now }
    requires number { told.old.number ≤ 2 ^ 32 }
    ensures is { IsPlace (drop told.old.from rows.now) uid result }
    ensures told { told.new ≡ record told.old {
      from = told.old.from + result;
      number = told.old.number + result;
    } }
{
    let more = count_before(rows, told.from, uid);
    told.from += more;
    told.number += more;
    more
}

// Leaves the row of a UID behind, where it is the next one.
fn leave(rows: &[Shown], uid: u32, told: &mut Telling<'_>)
    requires { told.old.from ≤ length rows.now }
    ensures is { drop told.new.from rows.now ≡ without uid (drop told.old.from rows.now) }
    ensures told { told.new ≡ record told.old { from = told.new.from } }
    ensures inside { told.new.from ≤ length rows.now }
{
    if told.from < rows.len() && rows[told.from].uid == uid {
        told.from += 1;
    }
}

// Tells of one change.
fn tell<'a>(
    rows: &[Shown],
    fresh: &'a [Fresh],
    at: usize,
    step: Step,
    told: &mut Telling<'a>,
) -> Result<(), NoMemory>
    requires rising { AreRising rows.now }
    requires given { AreGiven fresh.now }
    requires count { length (rows_after step rows.now fresh.now) < 2 ^ 32 }
    requires at { at < length fresh.now }
    requires told { IsToldTo step rows.now fresh.now at told.old }
    ensures { OnOk result (IsToldTo step rows.now fresh.now (at + 1) told.new) }
{
    let f = &fresh[at];
    if !tells(step, f) {
        return Ok(());
    }
    pass(rows, f.uid, told);
    if let Some(s) = &f.row {
        tell_row(rows, s, told)?;
    }
    leave(rows, f.uid, told);
    Ok(())
}

// Tells of all changes.
fn tell_all<'a>(
    alloc: Global,
    rows: &[Shown],
    fresh: &'a [Fresh],
    step: Step,
) -> Result<Telling<'a>, NoMemory>
    requires rising { AreRising rows.now }
    requires given { AreGiven fresh.now }
    requires count { length (rows_after step rows.now fresh.now) < 2 ^ 32 }
    ensures { IfOk result (IsToldTo step rows.now fresh.now (length fresh.now)) }
{
    let mut told = Telling {
        from: 0,
        number: 1,
        grows: false,
        told: Vec::new(alloc),
    };
    for at in 0..fresh.len() {
        tell(rows, fresh, at, step, &mut told)?;
    }
    Ok(told)
}

// Adds one FETCH for each row of which is told.
fn add_told<R: Replies>(
    alloc: Global,
    names: &Table,
    told: &[Told<'_>],
    said: &mut R,
) -> Result<(), NoMemory>
    ensures ok { OnOk result (said.new
        ≡ R.with said.old (map (λ t. fetch_of names.now.names (row_of t)) told.now)) }
    ensures err { OnErr result (HasTaken R.with said.old said.new) }
{
    for t in told {
        said.take_flags(alloc, names, t.number, t.row)?;
    }
    Ok(())
}

/// Adds what is said of the changes by a step. After `NoMemory`, which is the only error, some of
/// it may have been added.
pub fn add_said_by<R: Replies>(
    alloc: Global,
    names: &Table,
    rows: &[Shown],
    fresh: &[Fresh],
    step: Step,
    said: &mut R,
) -> Result<(), NoMemory>
    requires rising { AreRising rows.now }
    requires given { AreGiven fresh.now }
    requires count { length (rows_after step rows.now fresh.now) < 2 ^ 32 }
    ensures ok { OnOk result (said.new ≡ R.with said.old
        (said_of names.now.names rows.now (rows_after step rows.now fresh.now))) }
    ensures err { OnErr result (HasTaken R.with said.old said.new) }
{
    lost(rows, fresh, step, said)?;
    let told = tell_all(alloc, rows, fresh, step)?;
    if told.grows {
        let count = told.number + (rows.len() - told.from) - 1;
        said.take(Reply::Exists(count as u32))?;
    }
    add_told(alloc, names, &told.told, said)?;
    Ok(())
}
