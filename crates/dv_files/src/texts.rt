//! The texts of a rotation.
use dv_model::Bytes;

/// The three files that a rotation replaces, in this order.
#[derive(Drop)]
pub struct Turn {
    /// `dovecot.index`: the snapshot at the end of the old log.
    pub index: Bytes,
    /// `dovecot.index.log.2`: the old log up to its end, and four zero bytes.
    pub old: Bytes,
    /// `dovecot.index.log`: the header of the new log, and four zero bytes.
    pub new: Bytes,
}
