ghost use Rattle.std.specs.Prelude.{◌≡◌, IfOk, map, true};
ghost use Rattle.dv_model.specs.declared.types.Key.{Key as Searched};
ghost use Rattle.dv_search.specs.Sought.{IsReady};
ghost use Rattle.dv_live.specs.declared.verdicts.Verdict.{Verdict as Judged};
ghost use Rattle.dv_live.specs.Steadiness.{steady};
ghost use Rattle.dv_live.specs.Turning.{is_met, is_met_now, verdict_of};

use dv_model::{Bytes, Fresh, NoMemory, Shown};
use dv_search::Sought;
use std::alloc::Global;

/// Whether the row of a UID meets a key now.
#[derive(Clone, Copy, PartialEq, Eq, Debug, Drop)]
pub struct Verdict {
    pub uid: u32,
    pub met: bool,
}

/// Whether a row meets a key that was made ready; the places of its keywords are read in these
/// names. `NoMemory` is the only error.
pub fn is_met(
    alloc: Global,
    sought: &Sought,
    names: &[Bytes],
    shown: &Shown,
) -> Result<bool, NoMemory>
    ensures { (key : Searched) → IsReady key sought.now → steady key ≡ true →
        IfOk result (λ met. met ≡ is_met key names.now shown.now) }
{
    sought.is_met_by(alloc, names, shown)
}

// Whether what is there of a UID meets the key; a row that has left doesn't.
fn is_met_now(
    alloc: Global,
    sought: &Sought,
    names: &[Bytes],
    row: &Option<Shown>,
) -> Result<bool, NoMemory>
    ensures { (key : Searched) → IsReady key sought.now → steady key ≡ true →
        IfOk result (λ met. met ≡ is_met_now key names.now row.now) }
{
    match row {
        Some(shown) => is_met(alloc, sought, names, shown),
        None => Ok(false),
    }
}

// The verdict on what is told of a UID.
fn verdict_of(
    alloc: Global,
    sought: &Sought,
    names: &[Bytes],
    f: &Fresh,
) -> Result<Verdict, NoMemory>
    ensures verdict { (key : Searched) → IsReady key sought.now → steady key ≡ true →
        IfOk result (λ v. v ≡ verdict_of key names.now f.now) }
    ensures uid { IfOk result (λ v. v.uid ≡ f.now.uid) }
{
    let met = is_met_now(alloc, sought, names, &f.row)?;
    Ok(Verdict { uid: f.uid, met })
}

/// The verdicts on what is told of these UIDs, by a key that was made ready; the places of keywords
/// are read in these names. `NoMemory` is the only error.
pub fn verdicts_of(
    alloc: Global,
    sought: &Sought,
    names: &[Bytes],
    fresh: &[Fresh],
) -> Result<Vec<Verdict>, NoMemory>
    ensures verdicts { (key : Searched) → IsReady key sought.now → steady key ≡ true →
        IfOk result (λ made. made.items ≡ map (verdict_of key names.now) fresh.now) }
    ensures uids { IfOk result (λ made. map (λ (v : Judged). v.uid) made.items
        ≡ map (λ f. f.uid) fresh.now) }
{
    let mut made = Vec::with_capacity(alloc, fresh.len())?;
    for f in fresh {
        made.push(verdict_of(alloc, sought, names, f)?)?;
    }
    Ok(made)
}
