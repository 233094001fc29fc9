//! Records that are applied to the rows where they stand once they are to be shown, since they take
//! no memory then: no row is copied for them but to find out which are touched, some at a time.

ghost use Rattle.std.specs.Prelude.{◌≡◌, ◌↔◌, ◌≤◌, ℕ, All, Contains, IfOk, Some, true};
ghost use Rattle.std.specs.List.Sorted.{IsStrictlyIncreasing};
ghost use Rattle.dv_model.specs.declared.types.Mailbox.{Mailbox};
ghost use Rattle.dv_model.specs.Effects.{after_record, applied};
ghost use Rattle.dv_model.specs.Fresh.{IsTouched};
ghost use Rattle.dv_model.specs.Spelling.{IsRecord};
ghost use Rattle.dv_apply.specs.Answers.{OnBadAppend};
ghost use Rattle.dv_apply.specs.Preparing.{AreLight, IsLight, IsLightFirst, IsRefused};
ghost use Rattle.dv_apply.specs.States.{IsKept, kept_of, mailbox_of};
ghost use Rattle.dv_ext.specs.Sizes.{have_sizes};

use crate::apart::apply_apart;
use crate::each::apply_record;
use crate::fault::ApplyFault;
use crate::state::State;
use dv_ext::Extensions;
use dv_model::{Body, List, NoMemory, Record};
use dv_touched::Touched;
use std::alloc::Global;

// In how many parts rows are copied at least, and how many are copied at once however few they are.
const PARTS: usize = 8;

const FEWEST: usize = 64;

fn is_light(body: &Body) -> bool
    ensures { result ≡ true → IsLight body.now }
{
    match body {
        Body::Expunge(_) => true,
        Body::ExpungeGuid(_) => true,
        Body::FlagUpdate(_) => true,
        Body::ExtReset { .. } => true,
        Body::ExtRecordUpdate(_) => true,
        _ => false,
    }
}

fn is_light_first(extensions: &Extensions, body: &Body) -> bool
    ensures { result ≡ true → IsLightFirst extensions.now.extensions body.now }
{
    match body {
        Body::ExtIntro(intros) => extensions.are_quiet(intros.as_slice()),
        _ => is_light(body),
    }
}

fn are_all_light(records: &[Record]) -> bool
    ensures { result ≡ true → All (λ r. IsLight r.body) records.now }
{
    for r in records {
        if !is_light(&r.body) {
            return false;
        }
    }
    true
}

/// Whether records remove rows, or change flags or parts of rows alone, behind introductions that
/// leave the extensions as they are.
pub fn are_light(extensions: &Extensions, records: &[Record]) -> bool
    ensures { result ≡ true → AreLight extensions.now.extensions records.now }
{
    let Some((first, later)) = records.split_first() else {
        return true;
    };
    is_light_first(extensions, &first.body) && are_all_light(later)
}

// Those of these UIDs that records touch, found from copies of their rows.
fn touched_among(state: &mut State, uids: &[u32], records: &[Record]) -> Result<Touched, ApplyFault>
    requires kept { IsKept state.old }
    requires rising { IsStrictlyIncreasing uids.now }
    requires records { All IsRecord records.now }
    ensures is { kept_of state.new ≡ kept_of state.old }
    ensures kept { IsKept state.new }
    ensures touched { IfOk result (λ touched. (after : Mailbox) →
        applied (mailbox_of state.old) records.now ≡ Some after → (uid : ℕ) →
        Contains touched uid
        ↔ (Contains uids.now uid × IsTouched (mailbox_of state.old) after uid)) }
    ensures bad { OnBadAppend result (IsRefused (mailbox_of state.old) records.now) }
{
    let share = match apply_apart(state, uids, records) {
        Ok(share) => share,
        Err(e) => return Err(e),
    };
    Ok(Touched::between(state.alloc, uids, &state.rows, &share.rows)?)
}

/// Those of these UIDs that records touch. The mailbox stays as it is.
pub fn touched_by(
    state: &mut State,
    uids: &[u32],
    records: &[Record],
) -> Result<Touched, ApplyFault>
    requires kept { IsKept state.old }
    requires rising { IsStrictlyIncreasing uids.now }
    requires records { All IsRecord records.now }
    ensures is { kept_of state.new ≡ kept_of state.old }
    ensures kept { IsKept state.new }
    ensures touched { IfOk result (λ touched. (after : Mailbox) →
        applied (mailbox_of state.old) records.now ≡ Some after → (uid : ℕ) →
        Contains touched uid
        ↔ (Contains uids.now uid × IsTouched (mailbox_of state.old) after uid)) }
    ensures bad { OnBadAppend result (IsRefused (mailbox_of state.old) records.now) }
{
    let many = (uids.len() / PARTS).max(FEWEST);
    let mut touched = Touched::empty(state.alloc);
    let mut rest = uids;
    while !rest.is_empty() {
        let (some, others) = rest.split_at(many.min(rest.len()));
        let more = match touched_among(state, some, records) {
            Ok(more) => more,
            Err(e) => return Err(e),
        };
        touched = touched.with(state.alloc, &more)?;
        rest = others;
    }
    Ok(touched)
}

/// Equal records.
pub fn copies(alloc: Global, records: &[Record]) -> Result<List<Record>, NoMemory>
    ensures { IfOk result (λ made. made ≡ records.now) }
{
    let mut made = List::from_vec(Vec::with_capacity(alloc, records.len())?);
    for r in records {
        made.push(r.copy(alloc)?)?;
    }
    Ok(made)
}

// Applies a record that takes no memory.
fn apply_one(state: &mut State, r: &Record)
    requires kept { IsKept state.old }
    requires record { IsRecord r.now }
    requires light { IsLightFirst state.old.extensions.extensions r.now.body }
    ensures is { after_record (mailbox_of state.old) r.now ≡ Some (mailbox_of state.new) }
    ensures kept { IsKept state.new }
    ensures spare { state.new.spare ≡ state.old.spare }
{
    match apply_record(state, r) {
        Ok(()) => (),
        Err(_) => unreachable!(),
    }
}

/// Applies records that take no memory, in turn.
pub fn apply_light(state: &mut State, records: &[Record])
    requires kept { IsKept state.old }
    requires records { All IsRecord records.now }
    requires light { AreLight state.old.extensions.extensions records.now }
    ensures is { applied (mailbox_of state.old) records.now ≡ Some (mailbox_of state.new) }
    ensures kept { IsKept state.new }
    ensures spare { state.new.spare ≡ state.old.spare }
    ensures sizes { have_sizes state.old.extensions.extensions state.new.extensions.extensions
        ≡ true }
{
    for r in records {
        apply_one(state, r);
    }
}
