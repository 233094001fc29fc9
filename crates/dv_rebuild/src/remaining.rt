//! What was left of a mailbox beside its message files.

ghost use Rattle.std.specs.Prelude.{◌≡◌, ◌+◌, IfOk, not, is_some, if◌then◌else◌};
ghost use Rattle.dv_model.specs.Views.{row_of};
ghost use Rattle.dv_rebuild.specs.Reports.{remains_of, unknown_of, validity_of};
ghost use Rattle.dv_rebuild.specs.Walks.{salvaged_of};

use crate::reporting::{Remains, Sources, Validity};
use crate::salvage::Salvage;
use dv_apply::Live;
use dv_model::NoMemory;

/// Whether there is no row of this UID.
fn is_unknown(live: &Live, uid: u32) -> bool
    ensures { result ≡ not (is_some (row_of live.now.mailbox uid)) }
{
    match live.position(uid) {
        Some(_) => false,
        None => true,
    }
}

/// One more, where it counts.
fn counted(count: u32, counts: bool) -> Result<u32, NoMemory>
    ensures { IfOk result (λ now. now ≡ (if counts then count + 1 else count)) }
{
    if counts {
        count.checked_add(1).ok_or(NoMemory)
    } else {
        Ok(count)
    }
}

/// How many of the kept messages have no row. `NoMemory` is also the answer where there are more
/// than 4,294,967,295.
fn unknown_of(live: &Live, kept: &[u32]) -> Result<u32, NoMemory>
    ensures { IfOk result (λ unknown. unknown ≡ unknown_of live.now.mailbox kept.now) }
{
    let mut unknown: u32 = 0;
    for uid in kept {
        unknown = counted(unknown, is_unknown(live, *uid))?;
    }
    Ok(unknown)
}

/// The UIDVALIDITY: the salvaged one where it was given, else this new one.
fn validity_of(salvage: &Salvage, n: u32) -> Validity
    ensures { result ≡ validity_of (salvaged_of salvage.now) n }
{
    if salvage.given {
        Validity::Kept(salvage.live.uid_validity())
    } else {
        Validity::New(n)
    }
}

/// What was left, for messages that are kept, and a UIDVALIDITY where none was given. `NoMemory` is
/// the only error.
pub fn remains_of(
    salvage: &Salvage,
    sources: Sources,
    kept: &[u32],
    n: u32,
) -> Result<Remains, NoMemory>
    ensures { IfOk result (λ remains. remains
        ≡ remains_of sources (salvaged_of salvage.now) kept.now n) }
{
    Ok(Remains {
        sources,
        is_cut: !salvage.going,
        unknown: unknown_of(&salvage.live, kept)?,
        validity: validity_of(salvage, n),
    })
}
