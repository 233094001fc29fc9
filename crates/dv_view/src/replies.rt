ghost use Rattle.std.specs.Prelude.{◌≡◌, ◌<◌, ◌^◌, length, OnErr, OnOk};
ghost use Rattle.dv_view.specs.Taken.{HasTaken};
ghost use Rattle.dv_view.specs.Orders.{AreRising};
ghost use Rattle.dv_view.specs.Tells.{changes_of, removals_of, said_of, shows_all};

use crate::Replies;
use crate::places::{is_told, shows};
use dv_keywords::Table;
use dv_model::{NoMemory, Reply, Shown};
use std::alloc::Global;

/// Adds one EXPUNGE for each old row that left, from the highest number down. After `NoMemory`,
/// which is the only error, some may have been added.
pub fn add_removals<R: Replies>(old: &[Shown], new: &[Shown], said: &mut R) -> Result<(), NoMemory>
    requires count { length old.now < 2 ^ 32 }
    requires rising { AreRising new.now }
    ensures ok { OnOk result (said.new ≡ R.with said.old (removals_of new.now old.now)) }
    ensures err { OnErr result (HasTaken R.with said.old said.new) }
{
    let mut number = old.len() as u32;
    while number > 0 {
        let uid = old[number as usize - 1].uid;
        if !shows(new, uid) {
            said.take(Reply::Expunge(number))?;
        }
        number -= 1;
    }
    Ok(())
}

/// Whether no row is new.
pub fn shows_all(old: &[Shown], new: &[Shown]) -> bool
    requires { AreRising old.now }
    ensures { result ≡ shows_all old.now new.now }
{
    for s in new {
        if !shows(old, s.uid) {
            return false;
        }
    }
    true
}

/// Adds one FETCH for each row that is new or changed, by rising number. After `NoMemory`, which is
/// the only error, some may have been added.
pub fn add_changes<R: Replies>(
    alloc: Global,
    names: &Table,
    old: &[Shown],
    new: &[Shown],
    said: &mut R,
) -> Result<(), NoMemory>
    requires count { length new.now < 2 ^ 32 }
    requires rising { AreRising old.now }
    ensures ok { OnOk result
        (said.new ≡ R.with said.old (changes_of names.now.names old.now 1 new.now)) }
    ensures err { OnErr result (HasTaken R.with said.old said.new) }
{
    let mut number = 0;
    for s in new {
        number += 1;
        if is_told(old, s) {
            said.take_flags(alloc, names, number, s)?;
        }
    }
    Ok(())
}

/// Adds what is said where the old rows become the new ones. After `NoMemory`, which is the only
/// error, some of it may have been added.
pub fn add_said<R: Replies>(
    alloc: Global,
    names: &Table,
    old: &[Shown],
    new: &[Shown],
    said: &mut R,
) -> Result<(), NoMemory>
    requires old_rows { AreRising old.now }
    requires new_rows { AreRising new.now }
    ensures ok { OnOk result
        (said.new ≡ R.with said.old (said_of names.now.names old.now new.now)) }
    ensures err { OnErr result (HasTaken R.with said.old said.new) }
{
    add_removals(old, new, said)?;
    if !shows_all(old, new) {
        said.take(Reply::Exists(new.len() as u32))?;
    }
    add_changes(alloc, names, old, new, said)
}
