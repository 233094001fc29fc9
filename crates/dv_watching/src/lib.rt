//! A script served beside a kept search: after each command that wrote an entry its result is told.
#![tactic(auto)]

mod beginning;
mod keys;
mod law;
mod lines;
mod telling;
mod writing;

pub use beginning::begin;
pub use keys::steady_key;
pub use law::told_is_searched;
pub use lines::watch_lines;
pub use telling::watch_text;
