//! What the clients of transcripts know, as laws of the definitions: one place shows one mailbox,
//! and a number keeps its UID.
#![tactic(auto)]

mod laws;

pub use laws::{numbers_stay, places_show_one_mailbox};
