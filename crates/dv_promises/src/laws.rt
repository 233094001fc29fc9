ghost use Rattle.dv_promises.specs.Laws.{BeginsStanding, EventsKeep, AllEventsKeep, PrefixesAreValid, StandingHolds, AllHold, WritesAreDistinct, LogsGoOn, AllGoOn, AnswersAreAsSeen, SeenRises, StandingCrashKeeps, AllCrashesKeep};

/// What stands in a new world over a valid mailbox stands behind each event, in whatever order the
/// steps of the sessions come: the log stays sound, and each prefix of it has a valid mailbox.
pub fn worlds_stand()
    ensures begins { BeginsStanding }
    ensures one { EventsKeep }
    ensures all { AllEventsKeep }
    ensures valid { PrefixesAreValid }
{}

/// In each such world every session's replies are the session rules' answers over prefixes of one
/// log, which has each successful write once. A session's view has each row of the mailbox up to
/// which it was told, as it is shown; a client that listened has its session's view; sessions told
/// by Full steps up to one place have equal views. Each message number keeps its UID until an
/// EXPUNGE is heard or a SELECT begins (RFC 3501, section 7.4.1).
pub fn promises_hold()
    ensures standing { StandingHolds }
    ensures all { AllHold }
    ensures once { WritesAreDistinct }
{}

/// The log only goes on, and keeps the messages and GUIDs of the UIDs that were given out. A
/// session is answered at the end of what it has seen, and it never sees less than before.
pub fn prefixes_grow()
    ensures log { LogsGoOn }
    ensures all { AllGoOn }
    ensures answers { AnswersAreAsSeen }
    ensures seen { SeenRises }
{}

/// A crash keeps each durable entry and at most the pending one, and the replies of each session
/// that lived until it stay the session rules' answers over the log that it leaves.
pub fn crashes_keep()
    ensures standing { StandingCrashKeeps }
    ensures all { AllCrashesKeep }
{}
