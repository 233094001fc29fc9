//! The rows of a mailbox by rising UID, with what each kind of log record does to them (Dovecot's
//! `mail-transaction-log.h`).
#![tactic(auto)]

mod adding;
mod bare;
mod counts;
mod flags;
mod keywords;
mod naming;
mod parting;
mod parts;
mod places;
mod ranges;
mod replacing;
mod rows;
mod uids;
mod walks;

pub use naming::sort_uids;
pub use ranges::Range;
pub use rows::Rows;
