ghost use Rattle.dv_clients.specs.Laws.{ClientsHaveViews, SerialKeepsNumbers, SerialKnowAlike, SpokenKeepsNumbers, SpokenKnowAlike, ViewsAreEqual};

/// Two sessions of one log that were both told by Full steps up to one place have equal views, and
/// their clients know the same messages. Behind each answer a client has the view of its session,
/// which has each row of the mailbox up to which it was told (RFC 3501, section 7.4.1).
pub fn places_show_one_mailbox()
    ensures views { ViewsAreEqual }
    ensures spoken { SpokenKnowAlike }
    ensures serial { SerialKnowAlike }
    ensures clients { ClientsHaveViews }
{}

/// In a transcript each message number keeps its UID until an EXPUNGE is heard or a SELECT begins
/// (RFC 3501, section 7.4.1).
pub fn numbers_stay()
    ensures spoken { SpokenKeepsNumbers }
    ensures serial { SerialKeepsNumbers }
{}
