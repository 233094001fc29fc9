//! What is told of a rebuild, beside how many messages it keeps.

use dv_dbox::BoxFault;
use dv_model::List;

/// What came of a file that may hold flags and keywords.
#[derive(Clone, Copy, PartialEq, Eq, Debug)]
pub enum Source {
    /// There is no such file.
    Missing,
    /// Nothing of it can be read: the header of a log, any part of a rotated log or of a snapshot
    /// isn't of the format.
    Broken,
    /// A snapshot of another mailbox than the log, or a rotated log that doesn't go before the log.
    Apart,
    /// A rotated log whose records the snapshot has, or a log that doesn't go on from the snapshot.
    Unused,
    /// The flags and keywords come from it.
    Taken,
}

/// What came of each of these files.
#[derive(Clone, Copy, PartialEq, Eq, Debug)]
pub struct Sources {
    /// The log, up to its first fault.
    pub log: Source,
    /// The rotated log.
    pub rotated: Source,
    /// The snapshot.
    pub index: Source,
}

/// The UIDVALIDITY of a rebuilt folder.
#[derive(Clone, Copy, PartialEq, Eq, Debug)]
pub enum Validity {
    /// This one was left in the files that are taken.
    Kept(u32),
    /// None was left, and this one is new.
    New(u32),
}

/// What was left of a mailbox beside its message files.
#[derive(Clone, Copy, PartialEq, Eq, Debug)]
pub struct Remains {
    /// Where the flags and keywords come from.
    pub sources: Sources,
    /// A log has an append that is refused, and no record from there on counts.
    pub is_cut: bool,
    /// How many of the kept messages none of the files has a row of: they have no flags.
    pub unknown: u32,
    /// The UIDVALIDITY.
    pub validity: Validity,
}

/// Why a message file is skipped.
#[derive(Clone, Copy, PartialEq, Eq, Debug)]
pub enum SkipCause {
    /// Its number may be no UID.
    NoUid,
    /// It was listed, and then it was gone.
    Gone,
    /// It isn't of the format, and this is the first part that breaks it.
    Broken(BoxFault),
}

/// A message file that is skipped.
#[derive(Clone, Copy, PartialEq, Eq, Debug)]
pub struct Skip {
    /// The number in its name.
    pub number: u32,
    /// Why it is skipped.
    pub cause: SkipCause,
}

/// What is told of a rebuild, beside its counts.
#[derive(Drop)]
pub struct Report {
    /// What was left beside the message files.
    pub remains: Remains,
    /// The first hundred of the skipped message files, by rising number.
    pub skips: List<Skip>,
    /// There is a cache file: it is neither read nor changed.
    pub has_cache: bool,
}
