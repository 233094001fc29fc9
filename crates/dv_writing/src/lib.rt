//! The one place that writes a group to a mailbox folder: what an earlier write left is repaired, a
//! long log is rotated, the files before the group are written, and then the group (Dovecot's
//! `mail-transaction-log.h`). Of these calls only `unlisted` takes memory.
#![tactic(auto)]

mod carrying;
mod committing;
mod files;
mod laws;
mod messages;
mod removals;
mod renewals;
mod repairs;
mod sends;
mod steps;
mod turns;
mod way;

pub use carrying::carry_out;
pub use committing::{Committed, commit, heal};
pub use files::write_files;
pub use laws::{kept_where_same, kept_with_group, opened_is_kept, rest_gives, rest_opens};
pub use messages::put_message;
pub use removals::{clear, unlisted};
pub use renewals::renew;
pub use repairs::repair;
pub use steps::{Files, Renewal, Steps};
pub use turns::{is_due, turn_over};
pub use way::make_way;
