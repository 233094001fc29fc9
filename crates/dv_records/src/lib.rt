//! Records of the transaction log as bytes (Dovecot's `mail-transaction-log.h`).
#![tactic(auto)]

mod bodies;
mod checking;
mod decoding;
mod encoding;
mod fault;
mod items;
mod keyword;
mod lists;
mod types;
mod writing;

pub use checking::check;
pub use decoding::{decode, one_reading, spelled_is_valid};
pub use encoding::{encode, room_for};
pub use fault::{DecodeEnd, RecordFault};
pub use keyword::is_name;
