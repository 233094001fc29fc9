//! Mailboxes as plain tables.

use dv_apply::Live;
use dv_asks::MemStore;
use dv_lookups::{BodyFound, FieldFound, SizesFound};
use dv_model::{Mark, Row};

/// The row of a UID: its flags, the number of its keywords and its modification sequence.
pub type RowState = (u32, u8, usize, u64);

/// The rows of a mailbox.
#[derive(Clone, Copy)]
pub enum Rows {
    Are(&'static [RowState]),
    /// Those of the long log, and so many behind them.
    Long(u32),
}

/// A mailbox, and where its log ends.
#[derive(Clone, Copy)]
pub struct State {
    pub file_seq: u32,
    pub offset: u32,
    pub next_uid: u32,
    pub highest: u64,
    pub rows: Rows,
    /// Messages of one line that are held.
    pub mails: &'static [(u32, &'static [u8])],
}

/// How many messages the long log has.
pub const LONG_ROWS: u32 = 164;

/// Behind the appends of the long log comes the record that changed the odd UIDs first.
pub const LONG_CHANGE: u64 = 167;

/// The modification sequence of the last record of the long log.
pub const LONG_HIGHEST: u64 = 296;

fn is_row(row: &Row, expected: RowState) -> bool {
    let (uid, flags, keywords, modseq) = expected;
    row.uid == uid && row.flags == flags && row.keywords.len() == keywords && row.modseq == modseq
}

// The row of the long log at this place, or of a message that was added behind it.
fn long_row(at: u32) -> RowState {
    let uid = at.saturating_add(1);
    if at >= LONG_ROWS {
        let behind = u64::from(at - LONG_ROWS).saturating_add(1);
        return (uid, 0, 0, LONG_HIGHEST.saturating_add(behind));
    }
    if at % 2 == 0 {
        (uid, 8, 0, LONG_CHANGE)
    } else {
        (uid, 0, 0, u64::from(uid).saturating_add(2))
    }
}

fn are_rows(live: &Live, rows: &[RowState]) -> bool {
    if live.count() as usize != rows.len() {
        return false;
    }
    for at in 0..live.count() {
        if !is_row(live.row(at), rows[at as usize]) {
            return false;
        }
    }
    true
}

fn are_long(live: &Live, more: u32) -> bool {
    if live.count() != LONG_ROWS.saturating_add(more) {
        return false;
    }
    for at in 0..live.count() {
        if !is_row(live.row(at), long_row(at)) {
            return false;
        }
    }
    true
}

/// Whether a mailbox with this end of its log is so.
pub fn is_state(live: &Live, place: Mark, state: &State) -> bool {
    if place.file_seq != state.file_seq || place.offset != state.offset {
        return false;
    }
    if live.next_uid() != state.next_uid || live.highest() != state.highest {
        return false;
    }
    match state.rows {
        Rows::Are(rows) => are_rows(live, rows),
        Rows::Long(more) => are_long(live, more),
    }
}

fn has_body(store: &mut MemStore, uid: u32, bytes: &[u8]) -> bool {
    match store.body(uid) {
        Ok(BodyFound::Held(message)) => message.bytes.as_slice() == bytes,
        _ => false,
    }
}

fn has_sizes(store: &mut MemStore, uid: u32, size: u64) -> bool {
    match store.sizes(uid) {
        Ok(found) => found
            == SizesFound::Sizes {
                physical: size,
                virtual_size: size,
            },
        Err(_) => false,
    }
}

fn has_no_subject(store: &mut MemStore, uid: u32) -> bool {
    match store.field(uid, b"Subject") {
        Ok(FieldFound::Value(None)) => true,
        _ => false,
    }
}

/// Whether these messages of one line are held, as their files and the cache file have them.
pub fn has_mails(store: &mut MemStore, mails: &[(u32, &'static [u8])]) -> bool {
    for mail in mails {
        let (uid, bytes) = *mail;
        let size = bytes.len() as u64;
        if !has_body(store, uid, bytes) || !has_sizes(store, uid, size) {
            return false;
        }
        if !has_no_subject(store, uid) {
            return false;
        }
    }
    true
}
