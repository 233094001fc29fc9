//! What a folder gives behind the notes of a log and the writes that the disk failed, as laws of
//! the definitions: a store that stands behind notes rests there after each commit, whatever comes
//! of it, and a crash at any moment since a run began leaves a front of the notes, or that with the
//! group of a failed write.
#![tactic(auto)]

mod laws;

pub use laws::{
    commits_keep, commits_stand, images_go_on, last_is_durable, notes_and_tries_grow,
    rest_gives_last,
};
