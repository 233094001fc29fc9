use dv_model::{Bytes, List, Pair, Span};

/// What a client still knows of the mailbox's state (RFC 7162, section 3.2.5).
#[derive(Drop)]
pub struct Old {
    /// The last known UIDVALIDITY.
    pub uid_validity: u32,
    /// The last known highest modification sequence.
    pub modseq: u64,
    /// The known UIDs, in any order; `*` is the last UID below the mailbox's UIDNEXT.
    pub uids: List<Span>,
}

/// One thing that a client with an older state hears.
#[derive(Drop)]
pub enum Answer {
    /// Nothing of the state holds any more: the mailbox's UIDVALIDITY is this one (RFC 3501,
    /// section 2.3.1.1).
    Stale(u32),
    /// The messages with these UIDs, in rising ranges, are gone (RFC 7162, section 3.2.10.1).
    Vanished(List<Pair>),
    /// The mailbox's highest modification sequence (RFC 7162, section 3.1.2.1).
    Highest(u64),
    /// What a message is like now (RFC 7162, section 3.1.4).
    Fetch {
        /// The message number, from 1.
        number: u32,
        uid: u32,
        /// The five system flags, by the bits of [dv_model::Row].
        flags: u8,
        /// The keyword names, in the order of the mailbox's table.
        keywords: List<Bytes>,
        /// The modification sequence of its last change.
        modseq: u64,
    },
}

/// A message as a replica has it.
#[derive(Drop)]
pub struct Cached {
    pub uid: u32,
    /// The five system flags, by the bits of [dv_model::Row].
    pub flags: u8,
    /// The keyword names, in the order of the mailbox's table.
    pub keywords: List<Bytes>,
    /// The modification sequence of its last change.
    pub modseq: u64,
}

/// A client's copy of a mailbox, without its messages.
#[derive(Drop)]
pub struct Replica {
    /// The UIDVALIDITY (RFC 3501, section 2.3.1.1).
    pub uid_validity: u32,
    /// The highest modification sequence up to which it is (RFC 7162, section 3.1.2.1).
    pub highest: u64,
    /// The messages, by rising UID.
    pub rows: List<Cached>,
}
