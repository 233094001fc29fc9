//! Room for the data of a command. What is counted is a guess from above of what is printed, and
//! only memory and time go by it.

ghost use Rattle.std.specs.Prelude.{◌≡◌, min};
ghost use Rattle.std.specs.Option.{option_copied};
ghost use Rattle.dv_responses.specs.Rooms.{data_room, known_bytes, known_room, room_in};

use dv_model::Bytes;
use dv_search::{Mail, MailFacts};

// More than what stands around the value of a field.
const AROUND: usize = 32;

fn known_bytes(known: &Option<Bytes>) -> usize
    ensures { result ≡ known_bytes known.now }
{
    match known {
        Some(bytes) => bytes.len(),
        None => 0,
    }
}

fn known_room(facts: &MailFacts) -> usize
    ensures { result ≡ min (known_room facts.now) usize.MAX }
{
    let mut room = known_bytes(&facts.body);
    for field in facts.fields.as_slice() {
        room = room
            .saturating_add(field.0.len())
            .saturating_add(known_bytes(&field.1))
            .saturating_add(AROUND);
    }
    room
}

fn room_in(known: Option<&MailFacts>) -> usize
    ensures { result ≡ min (room_in (option_copied known.entry)) usize.MAX }
{
    match known {
        Some(facts) => known_room(facts),
        None => 0,
    }
}

/// How many bytes the data of these messages have, as far as they are known; it stops at the end of
/// its type.
pub fn data_room(uids: &[u32], facts: &Mail) -> usize
    ensures { result ≡ min (data_room uids.now facts.now) usize.MAX }
{
    let mut room: usize = 0;
    for uid in uids {
        room = room.saturating_add(room_in(facts.of(*uid)));
    }
    room
}
