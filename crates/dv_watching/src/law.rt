//! What is told is what a search gives.

ghost use Rattle.dv_watching.specs.Laws.{ToldIsSearched};

/// Behind any lines, what is told of a key is what a UID SEARCH gives there, over the mailbox that
/// the log's entries so far make (RFC 3501, section 6.4.8).
pub fn told_is_searched()
    ensures { ToldIsSearched }
{}
