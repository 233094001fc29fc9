//! What holds of POP3 sessions, whatever lines they are given and whatever others write.

ghost use Rattle.dv_pop3.specs.Entries.{SessionsWriteOnce};
ghost use Rattle.dv_pop3.specs.Logins.{CountsListed};

/// A session writes nothing, or one entry by its QUIT: the group of UID REMOVE of the messages that
/// it has marked of those that it listed when it began.
pub fn sessions_write_once()
    ensures { SessionsWriteOnce }
{}

/// STAT of a session that has just begun tells how many messages were listed, and their octets.
pub fn listing_is_counted()
    ensures { CountsListed }
{}
