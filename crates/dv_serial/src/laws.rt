//! From what a next run may begin.

ghost use Rattle.dv_serial.specs.NextRuns.{GivesTrue};

/// A next run may begin from the folder that lines leave, whether they were served or the disk
/// failed them, and from each folder that a crash may leave, then or at any moment before.
pub fn next_runs_begin()
    ensures { GivesTrue }
{}
