ghost use Rattle.std.specs.Prelude.{◌≡◌, All, Ok, OnErr, OnOk, Some};
ghost use Rattle.dv_model.specs.Effects.{after_record, applied};
ghost use Rattle.dv_model.specs.Spelling.{IsRecord};
ghost use Rattle.dv_validity.specs.Laws.{GrowsTo, IsInRange};
ghost use Rattle.dv_apply.specs.Answers.{OnBadAppend};
ghost use Rattle.dv_apply.specs.Bodies.{refused_row};
ghost use Rattle.dv_apply.specs.Preparing.{IsLightFirst, IsRefused};
ghost use Rattle.dv_apply.specs.States.{IsKept, kept_of, mailbox_of};

use crate::bodies::{apply_body, is_request, pass};
use crate::fault::ApplyFault;
use crate::state::State;
use dv_model::Record;

/// Applies a record.
pub fn apply_record(state: &mut State, r: &Record) -> Result<(), ApplyFault>
    requires kept { IsKept state.old }
    requires record { IsRecord r.now }
    ensures ok { OnOk result
        (after_record (mailbox_of state.old) r.now ≡ Some (mailbox_of state.new)) }
    ensures bad { OnBadAppend result (λ refused. refused_row (mailbox_of state.old) r.now.body
        ≡ Some refused) }
    ensures err { OnErr result (kept_of state.new ≡ kept_of state.old) }
    ensures kept { IsKept state.new }
    ensures light { IsLightFirst state.old.extensions.extensions r.now.body → result ≡ Ok tt }
    ensures spare { OnOk result (IsLightFirst state.old.extensions.extensions r.now.body →
        state.new.spare ≡ state.old.spare) }
{
    if is_request(r) {
        pass(state);
        return Ok(());
    }
    apply_body(state, &r.body)
}

/// Applies records in turn, until one is refused or memory runs out.
pub fn apply_each(state: &mut State, records: &[Record]) -> Result<(), ApplyFault>
    requires kept { IsKept state.old }
    requires records { All IsRecord records.now }
    ensures ok { OnOk result
        (applied (mailbox_of state.old) records.now ≡ Some (mailbox_of state.new)) }
    ensures range { OnOk result (All (λ r. IsInRange r.body) records.now) }
    ensures bad { OnBadAppend result (IsRefused (mailbox_of state.old) records.now) }
    ensures names { GrowsTo state.old.names.names state.new.names.names }
    ensures kept { IsKept state.new }
{
    for record in records {
        apply_record(state, record)?;
    }
    Ok(())
}
