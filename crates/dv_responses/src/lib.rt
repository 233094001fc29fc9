//! The responses to a command of a session (RFC 3501, section 7): the data that it asked, and how
//! it ended.
#![tactic(auto)]

mod asking;
mod damaged;
mod data;
mod endings;
mod facts;
mod fetching;
mod gone;
mod kinds;
mod looking;
mod meeting;
mod room;
mod rows;
mod searching;
mod selecting;
mod taking;

pub use asking::{Asked, asked_by};
pub use damaged::damaged_among;
pub use data::add_data_lines;
pub use endings::ending;
pub use facts::facts_from;
pub use fetching::{add_fetch_lines, fields_in};
pub use gone::gone_uid;
pub use kinds::{is_append, is_select, is_shallow, is_write, reads_mail, step_of, word_of};
pub use looking::{named_uids, uids_looked_at};
pub use meeting::{Met, meet};
pub use room::data_room;
pub use rows::{named, row_at};
pub use searching::search_line;
pub use selecting::add_select_lines;
pub use taking::Responses;
