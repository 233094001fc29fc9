//! The table of a mailbox's keyword names, its bytes in a snapshot, and the change of a row's
//! keywords (RFC 3501, section 2.3.2).
#![tactic(auto)]

mod end;
mod index;
mod law;
mod places;
mod table;
mod text;

pub use end::TableEnd;
pub use law::{one_table, places_stay_places, written_is_read};
pub use places::change;
pub use table::Table;
pub use text::write_name;
