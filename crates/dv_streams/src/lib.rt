//! Script, output and clock over calls of the system that read and write parts, are interrupted
//! or fail.
#![tactic(auto)]

mod calls;
mod clock;
mod input;
mod mem_calls;
mod output;

pub use calls::{CallFault, ReadCalls, TimeCalls, WriteCalls};
pub use clock::CutClock;
pub use input::ReadStream;
pub use mem_calls::{Event, MemInput, MemOutput, MemTime};
pub use output::WriteStream;
