use dv_model::Bytes;

/// A line that a client gives (RFC 1939, sections 5 and 7). Messages are counted from 1.
#[derive(Clone, Copy, PartialEq, Eq, Debug)]
pub enum PopLine {
    /// How many messages there are, and their size in octets.
    Stat,
    /// The size of a message, or of each.
    List(Option<u32>),
    /// The unique identifier of a message, or of each.
    Uidl(Option<u32>),
    /// A message.
    Retr(u32),
    /// Marks a message as deleted.
    Dele(u32),
    Noop,
    /// Takes all marks away.
    Rset,
    /// Removes the marked messages, and ends the session.
    Quit,
    /// None of these.
    Bad,
}

/// A message of a maildrop, as it is listed.
#[derive(Clone, Copy, PartialEq, Eq, Debug)]
pub struct Listed {
    /// The UID (RFC 3501, section 2.3.1.1).
    pub uid: u32,
    /// The size in octets, each line ended by CRLF (RFC 1939, section 11).
    pub size: u64,
}

/// What a store is to be asked, before a line can be answered.
#[derive(Clone, Copy, PartialEq, Eq, Debug)]
pub enum Asked {
    Nothing,
    /// The bytes of this message.
    Message(Listed),
    /// To remove the marked messages.
    Removal,
}

/// What a store says of a message.
#[derive(Drop)]
pub enum Found {
    /// The message's bytes.
    Held(Bytes),
    /// The message was expunged.
    Gone,
    /// The message's file is missing or damaged.
    Damaged,
    /// The disk failed: so many calls of it so far.
    Disk(u64),
}

/// What a store says of the removal of the marked messages.
#[derive(Clone, Copy, PartialEq, Eq, Debug)]
pub enum Removal {
    /// Those of them that were there are removed.
    Done,
    /// The disk failed: so many calls of it so far.
    Disk(u64),
    /// The removal would take this many bytes, which is over a limit.
    TooLong(u64),
}
