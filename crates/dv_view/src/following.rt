ghost use Rattle.std.specs.Prelude.{◌≡◌, ◌+◌, ◌<◌, ◌≤◌, ◌∷◌, [], ◌++◌, OnErr, OnOk, drop, filter, length, map, nat_le, nat_lt, not, take, vec_capacity, vec_len};
ghost use Rattle.dv_model.specs.declared.types.Step.TheVariants.{Held, Full};
ghost use Rattle.dv_view.specs.Following.{AreGiven, AreKnown, given, has_left, renewed, rows_after};
ghost use Rattle.dv_view.specs.Orders.{AreRising, IsOrdered};

use crate::fresh_places::{has_left, loses_row};
use crate::places::place_of;
use dv_model::{Fresh, NoMemory, Shown, Step};

// How many rows are given with a UID from this one on.
fn count_new(fresh: &[Fresh], next_uid: u32) -> usize
    ensures { result ≡ length (filter (λ s. nat_le next_uid s.uid) (given fresh.now)) }
{
    let mut count = 0;
    for f in fresh {
        if let Some(s) = &f.row {
            if s.uid >= next_uid {
                count += 1;
            }
        }
    }
    count
}

// Removes the rows that have left, where the step tells of them.
fn lose(rows: &mut Vec<Shown>, fresh: &[Fresh], step: Step)
    requires rising { AreRising rows.old.items }
    requires given { AreGiven fresh.now }
    ensures held { step ≡ Held → rows.new.items ≡ rows.old.items }
    ensures full { step ≡ Full →
        rows.new.items ≡ filter (λ s. not (has_left fresh.now s.uid)) rows.old.items }
    ensures len { vec_len rows.new ≤ vec_len rows.old }
    ensures capacity { vec_capacity rows.new ≡ vec_capacity rows.old }
{
    let loses = match step {
        Step::Held => false,
        Step::Full => loses_row(rows, fresh),
    };
    if loses {
        rows.retain(|s| !has_left(fresh, s.uid));
    }
}

// Sets the row of this UID, where there is one among the first so many.
fn renew(rows: &mut Vec<Shown>, count: usize, s: Shown)
    requires inside { count ≤ vec_len rows.old }
    requires rising { AreRising (take count rows.old.items) }
    ensures items { rows.new.items
        ≡ map (renewed (s ∷ [])) (take count rows.old.items) ++ drop count rows.old.items }
    ensures len { vec_len rows.new ≡ vec_len rows.old }
    ensures capacity { vec_capacity rows.new ≡ vec_capacity rows.old }
{
    let (old, _) = rows.split_at(count);
    if let Some(at) = place_of(old, s.uid) {
        rows[at] = s;
    }
}

// Puts a row that is given in the place of the one of its UID, or behind all, where there is room.
fn put(rows: &mut Vec<Shown>, count: usize, next_uid: u32, s: Shown)
    requires inside { count ≤ vec_len rows.old }
    requires rising { AreRising (take count rows.old.items) }
    requires room { next_uid ≤ s.uid → vec_len rows.old < vec_capacity rows.old }
    ensures items { rows.new.items
        ≡ map (renewed (filter (λ t. nat_lt t.uid next_uid) (s ∷ []))) (take count rows.old.items)
        ++ (drop count rows.old.items ++ filter (λ t. nat_le next_uid t.uid) (s ∷ [])) }
    ensures len { vec_len rows.new
        ≡ vec_len rows.old + length (filter (λ t. nat_le next_uid t.uid) (s ∷ [])) }
    ensures capacity { vec_capacity rows.new ≡ vec_capacity rows.old }
{
    if s.uid < next_uid {
        renew(rows, count, s);
    } else {
        rows.push_reserved(s);
    }
}

// The rows with those that are given, for which there is room.
fn put_all(rows: &mut Vec<Shown>, next_uid: u32, fresh: Vec<Fresh>)
    requires rising { AreRising rows.old.items }
    requires given { AreGiven fresh.items }
    requires room { vec_len rows.old
        + length (filter (λ s. nat_le next_uid s.uid) (given fresh.items))
        ≤ vec_capacity rows.old }
    ensures { rows.new.items
        ≡ map (renewed (filter (λ s. nat_lt s.uid next_uid) (given fresh.items))) rows.old.items
        ++ filter (λ s. nat_le next_uid s.uid) (given fresh.items) }
{
    let count = rows.len();
    for f in fresh {
        if let Some(s) = f.row {
            put(rows, count, next_uid, s);
        }
    }
}

/// Moves the rows of a view on. No row is copied. After `NoMemory` they are as before.
pub fn follow(
    rows: &mut Vec<Shown>,
    next_uid: u32,
    fresh: Vec<Fresh>,
    step: Step,
) -> Result<(), NoMemory>
    requires ordered { IsOrdered (record { rows = rows.old.items; next_uid = next_uid }) }
    requires given { AreGiven fresh.items }
    requires known { AreKnown rows.old.items next_uid fresh.items }
    ensures ok { OnOk result (rows.new.items ≡ rows_after step rows.old.items fresh.items) }
    ensures err { OnErr result (rows.new.items ≡ rows.old.items) }
{
    rows.reserve(count_new(&fresh, next_uid))?;
    lose(rows, &fresh, step);
    put_all(rows, next_uid, fresh);
    Ok(())
}
