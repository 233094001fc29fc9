//! What records of the log leave of a mailbox, as laws of the definitions: it stays valid, its
//! numbers never fall, no UID comes back, and keywords keep their places. What a command writes is
//! an entry, and a sound log goes on by it.
#![tactic(auto)]

mod laws;

pub use laws::{
    entries_keep_valid, groups_are_entries, keywords_stay, numbers_never_fall, ranges_keep_valid,
    records_keep_valid, sound_logs_go_on, stamped_as_before, stamped_by_rows, uids_never_return,
};
