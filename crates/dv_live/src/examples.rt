//! Worked examples of what a kept search agrees with.
ghost use Rattle.dv_live.specs.Examples.{DeletedLeave, SeenIsFound};

/// A message is found by SEEN once it is seen.
pub fn seen_message_is_found()
    ensures { SeenIsFound }
{}

/// Of nine messages those that get the flag Deleted leave the result of NOT DELETED, and it stays
/// where they are expunged.
pub fn deleted_messages_leave()
    ensures { DeletedLeave }
{}
