//! The files of a mailbox folder beside its log: the snapshot of a mailbox that is kept by its log,
//! and the rotation of that log, where a new log file begins and the old one and the snapshot stay
//! beside it (Dovecot's `mail-transaction-log.h`); and the message files, written, read and removed,
//! one to a message (Dovecot's dbox format).
#![tactic(auto)]

mod checkpoints;
mod fault;
mod laws;
mod reading;
mod rotation;
mod sends;
mod snapshots;
mod storing;
mod texts;
mod turning;
mod writing;

pub use checkpoints::checkpoint;
pub use fault::{ChainFault, TurnEnd};
pub use laws::{other_messages_stay, removals_are_single};
pub use reading::{MailFile, guids_of, read_mail};
pub use rotation::{finish, rotate};
pub use snapshots::{snapshot, snapshot_at};
pub use texts::Turn;
pub use turning::turn;
pub use writing::{mail_text, put, sweep};

#[cfg(test)]
mod tests;
