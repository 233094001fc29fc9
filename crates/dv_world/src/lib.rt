//! Sessions over one log, whose steps come in any order, as a program: what each is answered, and
//! what holds of all of them (RFC 3501, section 5.5, and RFC 2180, which leave the order open).
#![tactic(auto)]

mod between;
mod crashing;
mod event;
mod facts;
mod healing;
mod kept;
mod loading;
mod marks;
mod messages;
mod opening;
mod publishing;
mod same;
mod seats;
mod syncing;
mod telling;
mod world;
mod writing;

pub use event::Event;
pub use world::{World, run_events};
