use dv_model::{Entry, Mailbox, Mark};
use std::collections::LinkedList;
use std::marker::Brand;

/// The message of an APPEND: the UID that it was given, its bytes, and its GUID of 16 bytes. No
/// value of it is made.
pub struct Post {
    pub uid: u32,
    pub message: LinkedList<u8>,
    pub guid: LinkedList<u8>,
}

/// An entry of the log, and the message of the APPEND that wrote it. No value of it is made.
pub struct Note {
    pub entry: Entry,
    pub post: Option<Post>,
}

/// Where the log starts: the mailbox before its first entry, and the place of that entry. No value
/// of it is made.
pub struct Origin {
    pub mailbox: Mailbox,
    pub mark: Mark,
}

/// What a table is told when it is made. No value of it is made.
pub struct Generation {
    /// The number of data words.
    pub room: u64,
    /// The number of the generation, from 1.
    pub number: u64,
    pub origin: Origin,
    /// The notes before those of its words, from the start of the log.
    pub base: LinkedList<Note>,
    /// The folder's count of failures when all began.
    pub start_count: u64,
}

/// The note that is published, for contracts alone: each call that publishes picks it.
pub trait NamesNote {
    ghost use Rattle.dv_front.specs.declared.notes.Note.{Note};

    ghost note: { Note };
}

impl NamesNote for Brand {
    ghost use Rattle.dv_front.specs.Notes.{empty_note};

    ghost note = { empty_note };
}
