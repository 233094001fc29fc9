//! The values of a mailbox, of its transaction log and of its sessions, and what they mean.
#![tactic(auto)]

mod copies;
mod laws;
mod list;
mod memory;
mod types;

pub use laws::{client_has_view, marks_rise, runs_go_on, serial_is_spoken, transcripts_go_on};
pub use list::{Bytes, List};
pub use memory::{Duplicate, NoMemory, OutOfMemory};
pub use sqlite_items::{Boxed, Items};
pub use types::{
    Body, Change, Command, Current, End, Entry, Extension, Fresh, Group, GuidRow, How, Intro, Item,
    Key, Mailbox, Mark, NewRow, OpenFault, Pair, Part, Record, Reply, Row, Shown, Span, Step,
    Value, Word,
};
