ghost use Rattle.dv_live.specs.Laws.{GroupsBecome, KeptIsSearched, TouchedAreFollowed, TurnsAreSearched};

/// The UIDs that are kept of a mailbox are those that a UID SEARCH of it gives, whatever its
/// messages are (RFC 3501, section 6.4.8).
pub fn kept_is_searched()
    ensures { KeptIsSearched }
{}

/// What a mailbox has of the UIDs that were touched may be followed, and what is kept then is kept
/// of that mailbox; the records of each group make such a mailbox.
pub fn touched_are_followed()
    ensures follows { TouchedAreFollowed }
    ensures groups { GroupsBecome }
{}

/// Behind each of any list of groups, the UIDs that are kept are those that a UID SEARCH gives
/// there.
pub fn turns_are_searched()
    ensures { TurnsAreSearched }
{}
