//! What a session is shown and answered, from the bytes of records to the lines of its replies.
#![tactic(auto)]

#[cfg(test)]
mod follower;
#[cfg(test)]
mod sessions;
