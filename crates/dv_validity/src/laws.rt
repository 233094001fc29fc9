ghost use Rattle.dv_validity.specs.Laws.{RecordKeepsValid, RecordsKeepValid, RecordIsInRange, RangeKeepsValid, RangesKeepValid, StampedByItself, StampedByRows, StampedAlike, StampedWithout, StampedWithMore, FlagsByRows, RecordRises, RecordsNeverFall, NoneReturns, NoneReturnsInTurn, KeywordsStay, KeywordsStayInTurn, FollowingStays};
ghost use Rattle.dv_validity.specs.Entries.{GroupIsEntry, GroupApplies, EntryIsInRange, EntryKeepsValid, EntryKeepsResets, SoundLogsAreValid, SoundLogsGoOn, RunsStayWritten};

/// A valid mailbox stays valid under each record that has a spelling in bytes: as each message is
/// added it is assigned a higher UID than those which were added previously (RFC 3501, section
/// 2.3.1.1), a row's keywords are in the table, and it has a part of each extension.
pub fn records_keep_valid()
    ensures one { RecordKeepsValid }
    ensures all { RecordsKeepValid }
{}

/// What has a spelling in bytes is in range, and under records in range too a valid mailbox stays
/// valid.
pub fn ranges_keep_valid()
    ensures range { RecordIsInRange }
    ensures one { RangeKeepsValid }
    ensures all { RangesKeepValid }
{}

/// The modification sequences of a record's rows can be set in one pass: a row is compared with the
/// one that had its UID, which refers to no other message (RFC 3501, section 2.3.1.1).
pub fn stamped_by_rows()
    ensures alone { StampedByItself }
    ensures rows { StampedByRows }
    ensures flags { FlagsByRows }
{}

/// Rows that stay as they are keep their modification sequences, where others leave or are new.
pub fn stamped_as_before()
    ensures alike { StampedAlike }
    ensures without { StampedWithout }
    ensures more { StampedWithMore }
{}

/// The UIDNEXT and the highest modification sequence never fall. Each record has the next one, and
/// its rows are as before with theirs, or have the record's (RFC 7162, section 3.1).
pub fn numbers_never_fall()
    ensures one { RecordRises }
    ensures all { RecordsNeverFall }
{}

/// A UID that was given out must not refer to any other message (RFC 3501, section 2.3.1.1): where
/// it has no row any more, no record gives it one.
pub fn uids_never_return()
    ensures one { NoneReturns }
    ensures all { NoneReturnsInTurn }
{}

/// A keyword keeps its place in the table, so a view that was read in an older table is read the
/// same in a later one, and a mailbox that may follow the view may still follow it behind more
/// records.
pub fn keywords_stay()
    ensures one { KeywordsStay }
    ensures all { KeywordsStayInTurn }
    ensures following { FollowingStays }
{}

/// What a command of its type writes over a valid mailbox is no record or an entry of a sound log:
/// each record has a spelling in bytes, however many messages are named, and applies to the
/// mailbox.
pub fn groups_are_entries()
    ensures entry { GroupIsEntry }
    ensures applies { GroupApplies }
{}

/// An entry leaves a valid mailbox of a valid one, and each extension's reset number one of
/// 32 bits.
pub fn entries_keep_valid()
    ensures range { EntryIsInRange }
    ensures valid { EntryKeepsValid }
    ensures resets { EntryKeepsResets }
{}

/// A sound log goes on by the group of each write that is allowed, with its message and GUID: the
/// longer log is sound, and what was answered stays so, since a UID must not refer to any other
/// message at any time (RFC 3501, section 2.3.1.1).
pub fn sound_logs_go_on()
    ensures valid { SoundLogsAreValid }
    ensures sound { SoundLogsGoOn }
    ensures runs { RunsStayWritten }
{}
