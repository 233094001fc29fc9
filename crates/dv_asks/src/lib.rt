//! Commands and looks as plain values, and stores over folders in memory that are asked them.
#![tactic(auto)]

mod asks;
mod folders;

pub use asks::{Ask, MemStore, append, range, store, write};
pub use folders::{File, clock_of, created, has_file, opened, put_all, shelf_of, shelf_with};
