//! The cache file: the sizes and five header fields of a mailbox's messages, in a layout of this
//! project's own, written whole and looked up row by row.
#![tactic(auto)]

mod fields;
mod finding;
mod law;
mod row;
mod writing;

pub use finding::find;
pub use law::{found_is_written, one_row, written_is_found};
pub use row::{CacheRow, Known};
pub use writing::{CacheText, write};
