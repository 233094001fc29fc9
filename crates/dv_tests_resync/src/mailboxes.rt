//! Live mailboxes, by the records of a log.

use dv_apply::Live;
use dv_records::decode;
use std::alloc::Global;
use std::test::Fail;

/// A message of UID 1, and of those behind it in turn.
pub const APPEND_1: &[u8] = b"\x80\x80\x80\x84\x02\0\0\x10\x01\0\0\0\0\0\0\0";

pub const APPEND_2: &[u8] = b"\x80\x80\x80\x84\x02\0\0\x10\x02\0\0\0\0\0\0\0";

pub const APPEND_3: &[u8] = b"\x80\x80\x80\x84\x02\0\0\x10\x03\0\0\0\0\0\0\0";

pub const APPEND_4: &[u8] = b"\x80\x80\x80\x84\x02\0\0\x10\x04\0\0\0\0\0\0\0";

pub const APPEND_5: &[u8] = b"\x80\x80\x80\x84\x02\0\0\x10\x05\0\0\0\0\0\0\0";

pub const APPEND_6: &[u8] = b"\x80\x80\x80\x84\x02\0\0\x10\x06\0\0\0\0\0\0\0";

pub const APPEND_7: &[u8] = b"\x80\x80\x80\x84\x02\0\0\x10\x07\0\0\0\0\0\0\0";

pub const APPEND_8: &[u8] = b"\x80\x80\x80\x84\x02\0\0\x10\x08\0\0\0\0\0\0\0";

pub const APPEND_9: &[u8] = b"\x80\x80\x80\x84\x02\0\0\x10\x09\0\0\0\0\0\0\0";

/// UID 1 gets the flag Seen.
pub const SEE_1: &[u8] = b"\x80\x80\x80\x85\x04\0\0\x10\x01\0\0\0\x01\0\0\0\x08\0\0\0";

/// UIDs 5 to 9 get the flag Deleted.
pub const DELETE_5_TO_9: &[u8] = b"\x80\x80\x80\x85\x04\0\0\x10\x05\0\0\0\x09\0\0\0\x04\0\0\0";

/// UIDs 5 to 9 leave.
pub const EXPUNGE_5_TO_9: &[u8] = b"\x80\x80\x80\x84\x91\xcd\0\x10\x05\0\0\0\x09\0\0\0";

/// UID 2 leaves.
pub const EXPUNGE_2: &[u8] = b"\x80\x80\x80\x84\x91\xcd\0\x10\x02\0\0\0\x02\0\0\0";

/// UIDs 1 to 9 get the keyword k1.
pub const NAME_1_TO_9: &[u8] = b"\x80\x80\x80\x86\0\x04\0\x10\0\0\x02\0k1\0\0\x01\0\0\0\x09\0\0\0";

/// The UIDVALIDITY becomes 2000.
pub const VALIDITY_2000: &[u8] = b"\x80\x80\x80\x84\x20\0\0\0\x18\0\x04\0\xd0\x07\0\0";

/// The UIDNEXT becomes 4,000,000.
pub const NEXT_4000000: &[u8] = b"\x80\x80\x80\x84\x20\0\0\0\x1c\0\x04\0\0\x09\x3d\0";

/// Applies these records in turn.
pub fn apply(alloc: Global, live: &mut Live, records: &[&[u8]]) -> Result<(), Fail> {
    for bytes in records {
        let Ok((record, _)) = decode(alloc, bytes, 0) else {
            return Err(Fail::from("no record"));
        };
        if live.apply(&record).is_err() {
            return Err(Fail::from("a refused record"));
        }
    }
    Ok(())
}

/// The mailbox of a new folder with the UIDVALIDITY 1000, whose one record has the modification
/// sequence 2.
pub fn new_mailbox(alloc: Global) -> Live {
    let mut live = Live::empty(alloc, 1000);
    live.raise(2);
    live
}
