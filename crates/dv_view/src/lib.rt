//! What a session was shown of a mailbox, and what it is told when that moves on (RFC 3501,
//! section 7.4.1).
#![tactic(auto)]

mod client;
mod copies;
mod following;
mod fresh_places;
mod laws;
mod moves;
mod places;
mod replies;
mod sends;
mod taking;
mod telling;
mod view;

pub use client::Client;
pub use copies::{names_at, shown};
pub use dv_apply::Live;
pub use laws::{bare_client_has_view, changes_follow};
pub use replies::add_changes;
pub use taking::Replies;
pub use view::View;
