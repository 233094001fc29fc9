//! The log of a start and notes: its entries, mailboxes, marks, messages and GUIDs as functions of
//! the notes, as laws of the definitions. A note is an entry with the message of the APPEND that
//! wrote it.
#![tactic(auto)]

mod laws;

pub use laws::{
    fronts_apply, fronts_are_good, logs_are_sound, logs_extend, logs_go_on, mailboxes_by_notes,
    marks_by_notes, notes_go_on, writes_are_good,
};
