//! What is looked up of a mailbox's messages: facts, fields, sizes and bodies, each message file
//! read once at most, and the cache file in its place where it has what is asked.
#![tactic(auto)]

mod cache_file;
mod checking;
mod facts;
mod fetching;
mod found;
mod headers;
mod known;
mod lines;
mod looks;
mod memory;
mod reading;
mod searching;
mod sends;
mod singles;
mod source;

pub use cache_file::CacheFile;
pub use checking::cache_of_messages;
pub use found::{BodyFound, FactsFound, FieldFound, SizesFound};
pub use singles::body;
