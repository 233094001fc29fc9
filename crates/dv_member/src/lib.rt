//! A session of a keeper: what it has seen of the words that sessions share, the mailbox behind
//! that, and what it was told. It reads and is answered without a lock; what the holder of the lock
//! does to it stands here too. The session rules are dv_answer's.
#![tactic(auto)]

mod answering;
mod batch;
mod counting;
mod finishing;
mod holding;
mod meeting;
mod mirror;
mod reaching;
mod reader;
mod refreshing;
mod sends;
mod session;

pub use holding::gather;
pub use meeting::{Met, meet};
pub use session::Session;
