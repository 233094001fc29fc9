//! Search keys over the rows that a session was shown (RFC 3501, section 6.4.4).
#![tactic(auto)]

mod facts;
mod keys;
mod known;
mod law;
mod levels;
mod mail;
mod prepared;
mod search;
mod sought;
mod stars;
mod text;

pub use facts::MailFacts;
pub use known::Mail;
pub use law::{largest_is_for_stars, search_says_found, sought_is_shallow};
pub use levels::is_shallow;
pub use mail::needs_mail;
pub use search::eval;
pub use sought::Sought;
pub use stars::names_star;
