//! A mailbox store behind one lock, and the calls of its sessions that take it: they come to the
//! newest table, and two of them to one place; they write, and they read messages of what they were
//! shown before or are shown then. What reads only a session's own view stands in dv_member, and
//! takes no lock.
#![tactic(auto)]

mod closing;
mod fault;
mod holds;
mod keeper;
mod mailing;
mod making;
mod selecting;
mod sends;
mod writing;

pub use fault::SessionFault;
pub use keeper::Keeper;
