//! What a command writes to a mailbox folder, made ready: its limits are tested, the clock and the
//! files are read and all memory is taken, before anything is written.
#![tactic(auto)]

mod before;
mod bounds;
mod changes;
mod fault;
mod groups;
mod guids;
mod limits;
mod making;
mod places;
mod plan;
mod renewals;
mod sends;
mod times;
mod turns;

pub use bounds::is_number;
pub use changes::plan_group;
pub use fault::StoreFault;
pub use guids::message_guid;
pub use limits::{is_empty, limit_met};
pub use making::make_ready;
pub use plan::Plan;
