ghost use Rattle.std.specs.Prelude.{◌≡◌, ◌^◌, ◌<◌, IfSome, fold};
ghost use Rattle.dv_model.specs.declared.types.Body.TheVariants.{HeaderUpdate};
ghost use Rattle.dv_model.specs.declared.types.Mailbox.{Mailbox};
ghost use Rattle.dv_model.specs.Effects.{header_number, with_header_part};
ghost use Rattle.dv_apply.specs.States.{Becomes, IsKept};
ghost use Rattle.dv_validity.specs.Laws.{IsInRange};

use crate::changes::higher;
use crate::state::State;
use dv_model::Part;
use dv_num::u32_at;

// The place of the UIDVALIDITY in the header (Dovecot's `mail_index_header`).
const VALIDITY_AT: usize = 24;

// The place of the UIDNEXT.
const NEXT_UID_AT: usize = 28;

// The four bytes from a place on of the header, where the part covers them all.
fn number_at(part: &Part, at: usize) -> Option<u32>
    requires { at < 2 ^ 16 }
    ensures { result ≡ header_number part.now at }
{
    let from = usize::from(part.offset);
    let bytes = part.bytes.as_slice();
    if from <= at && at + 4 <= from + bytes.len() {
        Some(u32_at(bytes, at - from))
    } else {
        None
    }
}

// The UIDVALIDITY and the UIDNEXT behind a part of a header update.
fn numbers_behind(part: &Part, uid_validity: u32, next_uid: u32) -> (u32, u32)
    ensures is { (m : Mailbox) → m.uid_validity ≡ uid_validity → m.next_uid ≡ next_uid
        → with_header_part m part.now ≡ record m { uid_validity = result.0; next_uid = result.1 } }
    ensures range { IfSome (header_number part.now 28) (λ n. n < 2 ^ 32) }
{
    let validity = number_at(part, VALIDITY_AT);
    let next = number_at(part, NEXT_UID_AT);
    (
        validity.unwrap_or(uid_validity),
        next_uid.max(next.unwrap_or(0)),
    )
}

/// The UIDVALIDITY and the UIDNEXT behind all parts.
pub fn numbers_after(parts: &[Part], uid_validity: u32, next_uid: u32) -> (u32, u32)
    ensures is { (m : Mailbox) → m.uid_validity ≡ uid_validity → m.next_uid ≡ next_uid
        → fold with_header_part m parts.now
        ≡ record m { uid_validity = result.0; next_uid = result.1 } }
    ensures range { IsInRange (HeaderUpdate parts.now) }
{
    let mut numbers = (uid_validity, next_uid);
    for part in parts {
        numbers = numbers_behind(part, numbers.0, numbers.1);
    }
    numbers
}

/// Sets the UIDVALIDITY and raises the UIDNEXT, where parts cover them (Dovecot's
/// `mail_transaction_header_update`).
pub fn update_numbers(state: &mut State, parts: &[Part])
    requires { IsKept state.old }
    ensures { Becomes state.old (HeaderUpdate parts.now) state.new }
{
    let (uid_validity, next_uid) = numbers_after(parts, state.uid_validity, state.next_uid);
    state.highest = higher(state.highest);
    state.uid_validity = uid_validity;
    state.next_uid = next_uid;
}
