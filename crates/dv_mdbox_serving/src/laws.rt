//! What holds of the calls of several runs.

ghost use Rattle.dv_mdbox_serving.specs.Laws.{CountsGoOn, MessagesGoOn, NextRunsBegin};

/// Behind the calls of a run, and those before it since the storage was made, each id has the
/// references that were made less those that were dropped, and while it has one its message is got
/// as it was saved. Nothing is computed.
pub fn counts_go_on()
    ensures counts { CountsGoOn }
    ensures messages { MessagesGoOn }
{}

/// From what a run leaves, or a crash at any moment of it, a next one may begin, and what it finds
/// is what the calls before the run and the first of its own make of a new storage, with what the
/// next of them makes, where that is found. Nothing is computed.
pub fn next_runs_begin()
    ensures { NextRunsBegin }
{}
