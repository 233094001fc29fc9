//! The files of single messages, one to a file (Dovecot's dbox format).
#![tactic(auto)]

mod digits;
mod fault;
mod items;
mod law;
mod message;
mod reading;
mod values;
mod writing;

pub use fault::{BoxEnd, BoxFault};
pub use law::{reading_is_one, written_is_read};
pub use message::Message;
pub use reading::read;
pub use writing::write;
