//! A mailbox as a store keeps it while the records of its log are applied, one after another
//! (Dovecot's `mail-transaction-log.h`).
#![tactic(auto)]

mod apart;
mod appends;
mod blanks;
mod bodies;
mod changes;
mod completing;
mod each;
mod extensions;
mod fault;
mod headers;
mod keywords;
mod law;
mod light;
mod live;
mod parts;
mod prepare;
mod raising;
mod refusals;
mod sends;
mod share;
mod state;
mod touching;

pub use fault::ApplyFault;
pub use law::refused_by_a_row;
pub use live::{Live, Prepared};
