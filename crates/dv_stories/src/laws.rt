ghost use Rattle.dv_stories.specs.Growing.{AllAreWritten, LogGoesFurther, LogStays, OwnRefusalsStand, SerialHasStories, SpeaksStays, SpokenStaysOn, StoriesAreNeverShorter, StoryBegins, StoryEnds, StoryGoesOn, StorySeesMore, TurnsStay, WrittenGoesOn};

/// A log goes on to itself, further, and by the group of a command with the message that it
/// appends.
pub fn logs_go_on()
    ensures stays { LogStays }
    ensures further { LogGoesFurther }
    ensures written { WrittenGoesOn }
{}

/// A session's turns stay answered by the rules where the log goes on, whoever wrote its new
/// entries, with their messages; where others wrote them, the transcript still has all its entries.
pub fn transcripts_stay()
    ensures turns { TurnsStay }
    ensures speaks { SpeaksStays }
    ensures spoken { SpokenStaysOn }
{}

/// What a session did since it was made goes on: the session sees more of the log, one command more
/// is answered, or its last one wrote its entry and isn't answered. A command that the session
/// refuses by itself is refused over whatever mailbox.
pub fn stories_go_on()
    ensures begins { StoryBegins }
    ensures sees { StorySeesMore }
    ensures on { StoryGoesOn }
    ensures ends { StoryEnds }
    ensures own { OwnRefusalsStand }
{}

/// No command is answered over fewer entries than its session had seen, nor refused over fewer.
pub fn none_is_shorter()
    ensures { StoriesAreNeverShorter }
{}

/// Where each session counts the entries that it wrote, and the counts make up the log, each entry
/// is that of one answered command, or the last of a session whose command isn't answered. So it is
/// with the sessions of a script, one command after another.
pub fn entries_are_written()
    ensures all { AllAreWritten }
    ensures serial { SerialHasStories }
{}
