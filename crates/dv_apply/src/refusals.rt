ghost use Rattle.std.specs.Prelude.{◌≡◌, ⊤, All, IfOk, IsSomeAnd, OnOk, Err, Some};
ghost use Rattle.dv_model.specs.declared.types.Mailbox.{Mailbox};
ghost use Rattle.dv_model.specs.Effects.{applied, effect};
ghost use Rattle.dv_model.specs.Spelling.{IsRecord};
ghost use Rattle.dv_apply.specs.Answers.{OnBadAppend};
ghost use Rattle.dv_apply.specs.Bodies.{IsSound, Refused, refused_row};
ghost use Rattle.dv_apply.specs.Preparing.{IsRefused};
ghost use Rattle.dv_apply.specs.declared.fault.ApplyFault.TheVariants as fault;

use crate::appends::test_rows;
use crate::fault::ApplyFault;
use crate::headers::numbers_after;
use dv_model::{Body, Record};

// The UIDNEXT behind a record with this body, unless one of its rows is refused.
fn next_behind(body: &Body, next_uid: u32) -> Result<u32, ApplyFault>
    requires { IsSound body.now }
    ensures ok { IfOk result (λ next. (m : Mailbox) → m.next_uid ≡ next_uid →
        IsSomeAnd (effect m body.now) (λ n. n.next_uid ≡ next)) }
    ensures bad { OnBadAppend result (λ refused. (m : Mailbox) → m.next_uid ≡ next_uid →
        refused_row m body.now ≡ Some refused) }
    ensures memory { result ≡ Err fault.NoMemory → ⊥ }
{
    match body {
        Body::Append(rows) => test_rows(rows.as_slice(), next_uid),
        Body::HeaderUpdate(parts) => Ok(numbers_after(parts.as_slice(), 0, next_uid).1),
        _ => Ok(next_uid),
    }
}

/// Tests that no record is an append with a refused row, in a mailbox with this UIDNEXT. Takes no
/// memory.
pub fn test_records(records: &[Record], next_uid: u32) -> Result<(), ApplyFault>
    requires { All IsRecord records.now }
    ensures ok { OnOk result ((m : Mailbox) → m.next_uid ≡ next_uid →
        IsSomeAnd (applied m records.now) (λ n. ⊤)) }
    ensures bad { OnBadAppend result (λ refused. (m : Mailbox) → m.next_uid ≡ next_uid →
        IsRefused m records.now refused) }
    ensures memory { result ≡ Err fault.NoMemory → ⊥ }
{
    let mut next = next_uid;
    for record in records {
        match next_behind(&record.body, next) {
            Ok(behind) => next = behind,
            Err(e) => return Err(e),
        }
    }
    Ok(())
}
