//! What the calls of sessions in threads are as steps of a world, as laws of the definitions: each
//! call is some events, and the transcripts of all sessions are those of an interleaving.
#![tactic(auto)]

mod laws;

pub use laws::{
    answers_are_events, calls_are_events, commits_are_events, loads_are_events,
    transcripts_are_interleaved,
};
