//! A mailbox folder over any system's calls: what it tells is proved from what they tell.
#![tactic(auto)]

mod files;
mod folder;
mod kept;
mod names;

pub use files::Missing;
pub use folder::Folder;
