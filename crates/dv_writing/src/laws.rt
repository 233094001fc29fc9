//! What is found in the folder of a store at rest, and what is kept where files stay or with a
//! group.

ghost use Rattle.dv_writing.specs.Opening.{OpenedAreKept, RestOpens};
ghost use Rattle.dv_writing.specs.Laws.{KeptWhereSame, RestGives};
ghost use Rattle.dv_writing.specs.GroupLaws.{KeptWithCheck, KeptWithGroup};

use dv_shelf::Shelf;

/// Whatever a crash leaves of a chain at rest opens to the chain's mailbox at its mark; or, where
/// the gate of a group may be open, to the mailbox with the group behind it; or, where the last
/// replace of a rotation is owed, to the mailbox at the new file's first place.
pub fn rest_opens()
    ensures { RestOpens }
{}

/// Where nothing is owed, a chain that is opened equals the one that is kept, but for spare rows
/// and hidden names.
pub fn opened_is_kept()
    ensures { OpenedAreKept }
{}

/// Where the cache file and the message files of a mailbox's rows are as before, what was kept of
/// that mailbox still is.
pub fn kept_where_same()
    ensures { KeptWhereSame }
{}

/// Whatever a crash leaves of a store at rest gives its mailbox at its place; or, where the gate of
/// a group may be open, the mailbox with the group behind it; or, where the last replace of a
/// rotation is owed, the mailbox at the new file's first place.
pub fn rest_gives<S: Shelf>()
    ensures { RestGives S.sees }
{}

/// A folder that keeps the mailbox keeps that with a command's group too: for APPEND where the file
/// of the new message is there, for CHECK where the cache file is of the mailbox's messages.
pub fn kept_with_group()
    ensures group { KeptWithGroup }
    ensures check { KeptWithCheck }
{}
