//! The file of the transaction log: its texts, what a file holds, and groups of records that one
//! byte makes visible.
//!
//! Behind the log's last record stands the gate, a byte that begins no record. A commit writes a
//! group's bytes behind it and syncs them; then it writes the group's first byte, 0x80, at the
//! gate and syncs that. So a crash leaves the group whole or not at all. Where the second write or
//! its sync fails, it isn't known which: this debt is paid by a heal, which shuts the gate again.
#![tactic(auto)]

mod commit;
mod counting;
mod header;
mod outcome;
mod scanning;
mod texts;

pub use commit::{CommitFault, Debt, LogFile};
pub use header::{LogHeader, read_header};
pub use outcome::{Scan, ScanEnd};
pub use scanning::{log_is_good, next_place, next_record, one_scan, scan};
pub use texts::{create, group_text, one_log};
