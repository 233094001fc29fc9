ghost use Rattle.dv_notes.specs.Laws.{FrontsApply, FrontsAreGood, LogsAreSound, LogsExtend, LogsGoOn, MailboxesByNotes, MarksByNotes, NotesGoOn, WritesAreGood};

/// The first of good notes are good.
pub fn fronts_are_good()
    ensures { FrontsAreGood }
{}

/// The records of each front of good notes apply to the mailbox at the start.
pub fn fronts_apply()
    ensures { FrontsApply }
{}

/// Good notes stay good with one more that applies to the mailbox behind them, ends at a place of
/// 32 bits, and has a message of a UID that it gives out.
pub fn notes_go_on()
    ensures { NotesGoOn }
{}

/// A write's note at the end of others gives exactly the log that the write gives: with its group
/// as one entry more, and its message and GUID where it is an APPEND.
pub fn logs_go_on()
    ensures { LogsGoOn }
{}

/// The log of good notes behind a sound start is sound.
pub fn logs_are_sound()
    ensures { LogsAreSound }
{}

/// Under more notes the log goes on: what was told and written in it stays so.
pub fn logs_extend()
    ensures { LogsExtend }
{}

/// The mailbox after k entries is that which the first k notes leave.
pub fn mailboxes_by_notes()
    ensures { MailboxesByNotes }
{}

/// The mark of k entries is the place behind the first k notes, one behind another.
pub fn marks_by_notes()
    ensures { MarksByNotes }
{}

/// What a command of its type writes over the mailbox at the end is one good note more.
pub fn writes_are_good()
    ensures { WritesAreGood }
{}
