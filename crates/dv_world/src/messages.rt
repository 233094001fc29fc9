ghost use Rattle.std.specs.Prelude.{◌≡◌, find, map, nat_eq};
ghost use Rattle.std.specs.Option.{option_copied};
ghost use Rattle.dv_model.specs.Journals.{new_guid};
ghost use Rattle.dv_interleavings.specs.Worlds.{guid_of, mail_of};
ghost use Rattle.dv_world.specs.Shapes.{held_in, stored_of};

use crate::kept::Stored;
use dv_model::Bytes;

// The first message of a UID.
fn found(stored: &[Stored], uid: u32) -> Option<&Stored>
    ensures { option_copied result ≡ find (λ s. nat_eq s.0 uid) stored.now }
{
    stored.iter().find(|kept| kept.0 == uid)
}

/// The bytes of a UID's message, where they are there.
pub fn message_of(stored: &[Stored], uid: u32) -> Option<&Bytes>
    ensures { option_copied result ≡ held_in (mail_of (map stored_of stored.now) uid) }
{
    match found(stored, uid) {
        Some(kept) => kept.1.as_ref(),
        None => None,
    }
}

/// The GUID of a UID's message, or 16 zero bytes.
pub fn guid_of(stored: &[Stored], uid: u32) -> [u8; 16]
    ensures { result ≡ guid_of (map stored_of stored.now) uid }
{
    match found(stored, uid) {
        Some(kept) => kept.2,
        None => [0; 16],
    }
}

/// The GUID of an appended message: which mailbox, which UID, and when it came.
pub fn new_guid(indexid: u32, validity: u32, uid: u32, received: u32) -> [u8; 16]
    ensures { result ≡ new_guid indexid validity uid received }
{
    let [a, b, c, d] = indexid.to_be_bytes();
    let [e, f, g, h] = validity.to_be_bytes();
    let [i, j, k, l] = uid.to_be_bytes();
    let [m, n, o, p] = received.to_be_bytes();
    [a, b, c, d, e, f, g, h, i, j, k, l, m, n, o, p]
}
