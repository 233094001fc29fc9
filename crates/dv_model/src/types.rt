use crate::{Bytes, List};
use sqlite_items::{Boxed, Items};

/// A place in the transaction log: the file's sequence number and a byte offset in that file
/// (`log_file_seq` and `log_file_head_offset` of Dovecot's index header).
#[derive(Clone, Copy, PartialEq, Eq, Debug)]
pub struct Mark {
    pub file_seq: u32,
    pub offset: u32,
}

/// One message of the mailbox as its index knows it (Dovecot's `mail_index_record`).
#[derive(Drop)]
pub struct Row {
    /// The message's UID (RFC 3501, section 2.3.1.1), from 1 to 4294967294.
    pub uid: u32,
    /// Flag bits: Answered 0x01, Flagged 0x02, Deleted 0x04, Seen 0x08, Draft 0x10; the higher
    /// bits are kept and not shown.
    pub flags: u8,
    /// Places in the mailbox's keyword table, rising.
    pub keywords: List<u32>,
    /// The row's data, one for each extension of the mailbox.
    pub parts: List<Bytes>,
    /// The modification sequence of the row's last change (RFC 7162, section 3.1).
    pub modseq: u64,
}

/// An extension of the index: a named header, and a fixed number of bytes in each row.
#[derive(Drop)]
pub struct Extension {
    pub name: Bytes,
    pub reset_id: u32,
    pub header: Bytes,
    /// The number of bytes in each row.
    pub record_size: u16,
    pub record_align: u16,
    pub flags: u16,
}

/// The extension that the last introduction named, with the record size that it gave.
#[derive(Clone, Copy)]
pub struct Current {
    /// The place in the table of extensions, from 0.
    pub extension: u32,
    /// The number of bytes of each row that a record update carries.
    pub size: u16,
}

/// A mailbox folder as its index has it.
#[derive(Drop)]
pub struct Mailbox {
    /// The UIDVALIDITY (RFC 3501, section 2.3.1.1).
    pub uid_validity: u32,
    /// The UIDNEXT: no UID from here on was given out.
    pub next_uid: u32,
    /// The messages, by rising UID.
    pub rows: List<Row>,
    /// The keyword names, in the order of their first use.
    pub keywords: List<Bytes>,
    pub extensions: List<Extension>,
    pub current: Option<Current>,
    /// The highest modification sequence (RFC 7162, section 3.1.2.1), from 1 to 2^63 - 1.
    pub highest: u64,
}

/// A row as a session is shown it: without the high flag bits and the extensions' data.
#[derive(Drop)]
pub struct Shown {
    pub uid: u32,
    pub flags: u8,
    pub keywords: List<u32>,
    pub modseq: u64,
}

/// A UID whose row a session is to be told of: as it is shown now, or that it has left.
#[derive(Drop)]
pub struct Fresh {
    pub uid: u32,
    pub row: Option<Shown>,
}

/// A range of UIDs, both ends included (Dovecot's `mail_transaction_expunge` and
/// `mail_transaction_keyword_reset`).
#[derive(Clone, Copy)]
pub struct Pair {
    pub first: u32,
    pub last: u32,
}

/// A message that is added (the row of Dovecot's append record).
#[derive(Clone, Copy)]
pub struct NewRow {
    pub uid: u32,
    pub flags: u8,
}

/// A change of flags of a range of UIDs (Dovecot's `mail_transaction_flag_update`).
#[derive(Clone, Copy)]
pub struct Change {
    pub first: u32,
    pub last: u32,
    pub add: u8,
    pub remove: u8,
}

/// Bytes that are written into a header at an offset (Dovecot's
/// `mail_transaction_header_update`).
#[derive(Drop)]
pub struct Part {
    pub offset: u16,
    pub bytes: Bytes,
}

/// An introduction of an extension (Dovecot's `mail_transaction_ext_intro`).
#[derive(Drop)]
pub struct Intro {
    /// A place in the table of extensions, or 4294967295 for one that is named.
    pub ext_id: u32,
    pub reset_id: u32,
    pub hdr_size: u32,
    pub record_size: u16,
    pub record_align: u16,
    pub flags: u16,
    pub name: Bytes,
}

/// A message that is removed, with its GUID (Dovecot's `mail_transaction_expunge_guid`).
#[derive(Clone, Copy)]
pub struct GuidRow {
    pub uid: u32,
    pub guid: [u8; 16],
}

/// What is done with named flags or keywords: `+FLAGS`, `-FLAGS` or `FLAGS` of STORE
/// (RFC 3501, section 6.4.6).
#[derive(Clone, Copy, PartialEq, Eq)]
pub enum How {
    Add,
    Remove,
    Replace,
}

/// What a record of the transaction log says (Dovecot's `enum mail_transaction_type`).
#[derive(Drop)]
pub enum Body {
    Expunge(List<Pair>),
    Append(List<NewRow>),
    FlagUpdate(List<Change>),
    HeaderUpdate(List<Part>),
    ExtIntro(List<Intro>),
    ExtReset {
        reset_id: u32,
        /// 0 sets the extension's header and rows to zero bytes.
        preserve: u8,
    },
    ExtHeaderUpdate(List<Part>),
    ExtRecordUpdate(Bytes),
    KeywordUpdate {
        how: How,
        name: Bytes,
        pairs: List<Pair>,
    },
    KeywordReset(List<Pair>),
    ExpungeGuid(List<GuidRow>),
    /// A record of another type, which is kept as it is and has no effect.
    Carried {
        code: u32,
        bytes: Bytes,
    },
}

/// A record of the transaction log.
#[derive(Drop)]
pub struct Record {
    /// The four highest bits of the type word, 0 to 15; the lowest of them is Dovecot's
    /// `MAIL_TRANSACTION_EXTERNAL`.
    pub top: u8,
    pub body: Body,
}

/// The records that one command writes.
#[derive(Drop)]
pub struct Group {
    pub records: List<Record>,
}

/// A group of the log, with the number of the session that wrote it.
#[derive(Drop)]
pub struct Entry {
    pub author: u32,
    pub group: Group,
}

/// How a view moves on: `Held` keeps each message number (RFC 3501, section 7.4.1), `Full` shows
/// the mailbox as it is.
#[derive(Clone, Copy, PartialEq, Eq)]
pub enum Step {
    Held,
    Full,
}

/// The name of an answered command.
#[derive(Clone, Copy, PartialEq, Eq)]
pub enum Word {
    Select,
    Noop,
    Check,
    Append,
    Expunge,
    Fetch,
    Store,
    Search,
    UidFetch,
    UidStore,
    UidSearch,
    UidRemove,
}

/// What FETCH asks for (RFC 3501, section 6.4.5; MODSEQ of RFC 7162, section 3.1.5).
#[derive(Drop)]
pub enum Item {
    Flags,
    Size,
    Body,
    /// The value of a header field of this name.
    Field(Bytes),
    Modseq,
}

/// An end of a range of a sequence set (RFC 3501, section 9, `seq-number`).
#[derive(Clone, Copy)]
pub enum End {
    Number(u32),
    Star,
}

/// A range of a sequence set; its ends stand in either order (RFC 3501, section 9, `seq-range`).
#[derive(Clone, Copy)]
pub struct Span {
    pub from: End,
    pub to: End,
}

/// A search key (RFC 3501, section 6.4.4).
#[derive(Drop)]
pub enum Key {
    All,
    /// The message has these flag bits.
    Has(u8),
    Lacks(u8),
    Keyword(Bytes),
    Uid(List<Span>),
    /// The virtual size is above this number of bytes.
    Larger(u32),
    Header { name: Bytes, text: Bytes },
    Not(Boxed<Key>),
    Or(Boxed<Key>, Boxed<Key>),
    And(Items<Key>),
}

/// A command of a session.
#[derive(Drop)]
pub enum Command {
    Select,
    Noop,
    Check,
    Expunge,
    Append {
        flags: u8,
        keywords: List<Bytes>,
        message: Bytes,
    },
    Fetch {
        by_uid: bool,
        set: List<Span>,
        items: List<Item>,
    },
    Store {
        by_uid: bool,
        set: List<Span>,
        how: How,
        flags: u8,
        keywords: List<Bytes>,
        /// Rows with a higher modification sequence stay (RFC 7162, section 3.1.3).
        unchanged_since: Option<u64>,
    },
    Search {
        by_uid: bool,
        key: Key,
    },
    /// Removes the named messages, whatever their flags.
    UidRemove {
        set: List<Span>,
    },
}

/// A value of a FETCH reply.
#[derive(Drop)]
pub enum Value {
    /// The five system flags, and keyword names.
    Flags(u8, List<Bytes>),
    Size(u64),
    Body(Bytes),
    /// A field's name as asked, and its value where the message has the field.
    Field(Bytes, Option<Bytes>),
    Modseq(u64),
}

/// One line of a reply (RFC 3501, section 7).
#[derive(Drop)]
pub enum Reply {
    Exists(u32),
    Expunge(u32),
    Fetch {
        number: u32,
        uid: u32,
        values: List<Value>,
    },
    Search(List<u32>),
    Validity(u32),
    NextUid(u32),
    /// The command was done, at this place of the log.
    Done {
        word: Word,
        mark: Mark,
        /// UIDVALIDITY and UID of an appended message (RFC 4315, section 3, APPENDUID).
        appended: Option<(u32, u32)>,
        /// The messages that `unchanged_since` kept (RFC 7162, section 3.1.3, MODIFIED).
        modified: List<u32>,
    },
    /// A named message was expunged meanwhile (RFC 5530, EXPUNGEISSUED).
    Gone {
        uid: u32,
        mark: Mark,
        modified: List<u32>,
    },
    /// A message file is missing or damaged (RFC 5530, CORRUPTION).
    Damaged {
        uid: u32,
        mark: Mark,
    },
    /// The disk failed, so often until now (RFC 5530, UNAVAILABLE).
    Unavailable {
        faults: u64,
    },
    /// No UID is left (RFC 5530, LIMIT).
    UidsUsedUp,
    /// The message or the group has so many bytes (RFC 5530, LIMIT).
    TooLong {
        bytes: u64,
    },
    NotSelected,
    /// There is no message of this number.
    NoMessage(u32),
}

/// Why a folder's mailbox isn't opened.
#[derive(Clone, Copy, PartialEq, Eq, Debug)]
pub enum OpenFault {
    /// The disk failed, so often until now.
    Disk(u64),
    /// Memory ran out.
    NoMemory,
    /// There is no transaction log.
    NoLog,
    /// The log's header isn't that of a log that is read.
    BadLogHeader,
    /// The record at this offset of its file is damaged, or its append is refused.
    BadRecord { offset: u32 },
    /// The log goes on behind files of which there is no good snapshot.
    BadIndex,
    /// The log doesn't go on where the snapshot stands.
    Gap { index: Mark, log: Mark },
}
