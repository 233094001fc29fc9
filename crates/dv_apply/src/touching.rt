ghost use Rattle.std.specs.Prelude.{◌≡◌, ◌↔◌, ◌⊎◌, ℕ, Contains, Err, None, OnErr, OnOk, Some};
ghost use Rattle.dv_model.specs.Effects.{after_record};
ghost use Rattle.dv_model.specs.Fresh.{IsTouched};
ghost use Rattle.dv_model.specs.Spelling.{IsRecord};
ghost use Rattle.dv_apply.specs.Answers.{OnBadAppend};
ghost use Rattle.dv_apply.specs.Bodies.{IsSound, Refused, refused_row};
ghost use Rattle.dv_apply.specs.States.{IsKept, kept_of, mailbox_of};
ghost use Rattle.dv_apply.specs.declared.fault.ApplyFault.TheVariants as fault;

use crate::appends::test_rows;
use crate::completing::complete;
use crate::fault::ApplyFault;
use crate::prepare::prepare;
use crate::state::State;
use dv_model::{Body, Record};
use dv_touched::Touched;
use std::slice;

// Tests that a record with this body is no append with a refused row.
fn test_body(state: &State, body: &Body) -> Result<(), ApplyFault>
    requires { IsSound body.now }
    ensures ok { OnOk result (refused_row (mailbox_of state.now) body.now ≡ None) }
    ensures bad { OnBadAppend result (λ refused. refused_row (mailbox_of state.now) body.now
        ≡ Some refused) }
    ensures refused { (refused : Refused) →
        refused_row (mailbox_of state.now) body.now ≡ Some refused →
        result ≡ Err (fault.BadAppend refused.uid refused.next_uid) }
{
    match body {
        Body::Append(rows) => {
            test_rows(rows.as_slice(), state.next_uid)?;
            Ok(())
        }
        _ => Ok(()),
    }
}

/// Applies a record, and adds the UIDs that it touches to others. After a fault both are as before.
pub fn apply_touched(state: &mut State, r: &Record, touched: &mut Touched) -> Result<(), ApplyFault>
    requires kept { IsKept state.old }
    requires record { IsRecord r.now }
    ensures kept { IsKept state.new }
    ensures ok { OnOk result
        (after_record (mailbox_of state.old) r.now ≡ Some (mailbox_of state.new)) }
    ensures bad { OnBadAppend result (λ refused. refused_row (mailbox_of state.old) r.now.body
        ≡ Some refused) }
    ensures refused { (refused : Refused) →
        refused_row (mailbox_of state.old) r.now.body ≡ Some refused →
        result ≡ Err (fault.BadAppend refused.uid refused.next_uid) }
    ensures err { OnErr result (kept_of state.new ≡ kept_of state.old) }
    ensures touched { OnOk result ((uid : ℕ) →
        Contains touched.new uid ↔ (Contains touched.old uid
        ⊎ IsTouched (mailbox_of state.old) (mailbox_of state.new) uid)) }
    ensures untouched { OnErr result (touched.new ≡ touched.old) }
{
    test_body(state, &r.body)?;
    let spare = state.spare;
    let way = match prepare(state, slice::from_ref(r)) {
        Ok(way) => way,
        Err(e) => return Err(e),
    };
    match touched.with(state.alloc, way.touched()) {
        Ok(all) => {
            complete(state, way);
            *touched = all;
            Ok(())
        }
        Err(e) => {
            state.spare = spare;
            Err(ApplyFault::from(e))
        }
    }
}
