ghost use Rattle.std.specs.Prelude.{◌≡◌, ◌⊎◌, ◌+◌, ◌-◌, ◌^◌, ◌<◌, ℕ, length, IfOk, Some};
ghost use mathlib.Core.List.{IsPrefix};
ghost use Rattle.atomic_table.specs.Seated.{TableId};
ghost use Rattle.dv_front.specs.Rolls.{new_listing, table_at, with_item};

use crate::listings::{Count, Leaf, Roll};
use crate::pass::Pass;
use crate::roll_rule::{Appends, ComparesItems, LearnsItems, NamesTable, RollSharing};
use atomic_table::Table;
use dv_model::NoMemory;
use std::alloc::Global;
use std::marker::Brand;
use std::sync::Arc;

/// A roll without items.
pub fn new_roll(alloc: Global) -> Result<Roll, NoMemory>
    ensures { IfOk result (λ r. r ≡ new_listing r.table) }
{
    let (table, seat) = Table::of_words(alloc, &[0], &())?;
    let table: Arc<Count, Global> = Arc::new(alloc, table)?;
    Ok(Roll {
        table,
        seat,
        count: 0,
    })
}

/// Appends the table of a pass: that of the next generation.
pub fn enter(r: &mut Roll, p: &Pass)
    requires next { p.now.generation.number ≡ length r.old.items + 1 }
    requires room { length r.old.items < 2 ^ 64 - 1 }
    ensures { r.new ≡ with_item r.old p.now.table }
{
    append::<Brand>(r, p);
}

// Appends the table that the caller picks by the pass.
fn append<J: NamesTable>(r: &mut Roll, p: &Pass)
    requires { length r.old.items < 2 ^ 64 - 1 }
    ensures { r.new ≡ with_item r.old J.table }
{
    let _ = p;
    let count = r.count + 1;
    r.table.shared.store::<Appends<J>>(&mut r.seat, 0, count);
    r.count = count;
}

/// A leaf with the whole list. After `NoMemory` the roll is as before.
pub fn leaf(r: &mut Roll) -> Result<Leaf, NoMemory>
    ensures leaf { IfOk result (λ l. l ≡ r.old) }
    ensures roll { r.new ≡ r.old }
{
    let table = Arc::try_clone(&r.table)?;
    let seat = r.table.shared.split_seat::<RollSharing>(&mut r.seat);
    Ok(Leaf { table, seat })
}

/// Makes the leaf's list the whole one, which begins with what the leaf had.
#[tactic(auto, using(crate::proofs::Prefixes::prefix_both))]
pub fn extend(r: &mut Roll, l: &mut Leaf)
    requires { l.old.table ≡ r.old.table }
    ensures leaf { l.new ≡ r.old }
    ensures begins { IsPrefix l.old.items l.new.items }
    ensures roll { r.new ≡ r.old }
{
    let second = r.table.shared.split_seat::<RollSharing>(&mut r.seat);
    l.table.shared.join_seat::<RollSharing>(&mut l.seat, second);
    l.table.shared.load::<LearnsItems>(&mut l.seat, 0);
    let second = l.table.shared.split_seat::<RollSharing>(&mut l.seat);
    r.table.shared.join_seat::<RollSharing>(&mut r.seat, second);
    r.table.shared.load::<ComparesItems>(&mut r.seat, 0);
}

/// Of the lists of two leaves of one roll, one begins the other. So they name one table for one
/// generation number.
#[tactic(auto, using(crate::proofs::Tables::one_table))]
pub fn agree_leaves(a: &mut Leaf, b: &mut Leaf)
    requires { b.old.table ≡ a.old.table }
    ensures either { IsPrefix a.old.items b.old.items ⊎ IsPrefix b.old.items a.old.items }
    ensures tables { (number : ℕ) (t u : TableId)
        → table_at a.old.items number ≡ Some t → table_at b.old.items number ≡ Some u → t ≡ u }
    ensures same { (a.new ≡ a.old) × (b.new ≡ b.old) }
{
    let second = b.table.shared.split_seat::<RollSharing>(&mut b.seat);
    a.table.shared.join_seat::<RollSharing>(&mut a.seat, second);
    a.table.shared.load::<ComparesItems>(&mut a.seat, 0);
}
