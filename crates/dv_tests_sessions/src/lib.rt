//! Tests of what a session is shown, and of what it writes: views, sets, searches, responses and
//! groups.
#![tactic(auto)]

#[cfg(test)]
mod cases;
#[cfg(test)]
mod groups;
#[cfg(test)]
mod mailboxes;
#[cfg(test)]
mod responses;
#[cfg(test)]
mod search;
#[cfg(test)]
mod sets;
#[cfg(test)]
mod view;
