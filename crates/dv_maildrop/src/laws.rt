//! Laws of POP3 sessions.

ghost use Rattle.dv_maildrop.specs.Laws.{MessagesAreHeard, RowsStay};

/// A client that reads the answer to a RETR as RFC 1939, section 3, says has the message's lines.
pub fn messages_are_heard()
    ensures { MessagesAreHeard }
{}

/// The messages stay as they were when the session began, whatever lines it is given: no number and
/// no size changes.
pub fn rows_stay()
    ensures { RowsStay }
{}
