//! What becomes of transcripts while their log goes on, as laws of the definitions: a transcript
//! stays one, a session's story goes on, and all sessions' stories together have each entry.
#![tactic(auto)]

mod laws;

pub use laws::{entries_are_written, logs_go_on, none_is_shorter, stories_go_on, transcripts_stay};
