//! The table of a mailbox's extensions, and what the records of extensions do to it (Dovecot's
//! `mail-transaction-log.h`).
#![tactic(auto)]

mod change;
mod edits;
mod extensions;
mod limits;
mod sends;
mod sizes;
mod updates;

pub use change::PartsChange;
pub use extensions::Extensions;
pub use sizes::have_sizes;
pub use updates::RowUpdates;
