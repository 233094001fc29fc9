//! The salvage of a mailbox folder that is damaged, or that another server made: its message files
//! are kept, with what is left of their flags and keywords in its log and its snapshot.
#![tactic(auto)]

mod fault;
mod joining;
mod keywords;
mod mails;
mod naming;
mod planning;
mod reading;
mod rebuilding;
mod records;
mod remaining;
mod reporting;
mod salvage;
mod sends;
mod sourcing;

pub use dv_dbox::BoxFault;
pub use fault::RebuildFault;
pub use rebuilding::{Rebuilt, rebuild};
pub use reporting::{Remains, Report, Skip, SkipCause, Source, Sources, Validity};

#[cfg(test)]
mod tests;
