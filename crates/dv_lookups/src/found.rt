use dv_dbox::Message;
use dv_model::Bytes;
use dv_search::MailFacts;

/// What is found of a UID for a command that reads messages.
#[derive(Drop)]
pub enum FactsFound {
    /// What is asked of its message.
    Known(MailFacts),
    /// The mailbox has no such row.
    Gone,
    /// The message file is missing or not of the format.
    Damaged,
}

/// The message of a UID.
#[derive(Drop)]
pub enum BodyFound {
    Held(Message),
    /// The mailbox has no such row.
    Gone,
    /// The message file is missing or not of the format.
    Damaged,
}

/// A header field of a UID's message.
#[derive(Drop)]
pub enum FieldFound {
    /// The value; `None` where the message has no such field.
    Value(Option<Bytes>),
    /// The mailbox has no such row.
    Gone,
    /// The message file is missing or not of the format.
    Damaged,
}

/// The sizes of a UID's message, in bytes.
#[derive(Clone, Copy, PartialEq, Eq)]
pub enum SizesFound {
    Sizes {
        /// As the message is.
        physical: u64,
        /// With CRLF line ends.
        virtual_size: u64,
    },
    /// The mailbox has no such row.
    Gone,
    /// The message file is missing or not of the format.
    Damaged,
}
