//! A mailbox folder that is opened: its log, its rotated log and its snapshot together give one
//! mailbox (Dovecot's `mail-transaction-log.h` and `mail-index.h`).
#![tactic(auto)]

mod chain;
mod creating;
mod file;
mod index;
mod joining;
mod looking;
mod mending;
mod opening;
mod sends;
mod walking;

pub use chain::Chain;
pub use creating::{create, first_header};
pub use dv_apply::Live;
pub use file::File;
pub use index::{Index, read_index};
pub use joining::{goes_before, is_before, is_next};
pub use mending::closed;
pub use opening::open;
pub use walking::{measure, record_at};
