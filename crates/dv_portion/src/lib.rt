//! Some of a mailbox's rows: those that ranges of UIDs name, changed each once also where ranges
//! overlap (in the time of sorting the ranges, and that of the rows that they have); those that the
//! records of a group may change, found before they are applied; and that records act on a portion
//! of the rows as on all of them.
#![tactic(auto)]

mod changes;
mod law;
mod names;
mod survey;

pub use changes::{add_keyword, change_flags, change_keywords, clear_keywords, expunge};
pub use law::records_act_on_portions;
pub use names::{name_changed, name_pairs};
pub use survey::named_rows;
