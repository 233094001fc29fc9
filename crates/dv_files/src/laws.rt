//! What putting and removing leave, file by file.

ghost use Rattle.dv_files.specs.Writing.{StaysAtPut, StaysAtSweep, SweepsEach};

/// While message files are removed each of them is as before or gone, and every other file is as
/// before.
pub fn removals_are_single()
    ensures { SweepsEach }
{}

/// The message file of a UID stays while that of another is put, and while those of others are
/// removed.
pub fn other_messages_stay()
    ensures put { StaysAtPut }
    ensures swept { StaysAtSweep }
{}
