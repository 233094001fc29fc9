//! Catching up by QRESYNC (RFC 7162, section 3.2.5): what a client with an older state of a mailbox
//! hears, and a client's copy that becomes equal to the mailbox by that alone.
#![tactic(auto)]

mod fetching;
mod law;
mod merging;
mod ranges;
mod replicas;
mod resyncs;
mod texts;
mod types;

pub use law::replicas_catch_up;
pub use replicas::replica_of;
pub use resyncs::resync;
pub use texts::answer_text;
pub use types::{Answer, Cached, Old, Replica};
