//! Replicas, compared and caught up.

use dv_apply::Live;
use dv_model::Bytes;
use dv_qresync::{Cached, Replica, replica_of, resync};
use std::alloc::Global;
use std::test::Fail;

fn are_same_names(names: &[Bytes], others: &[Bytes]) -> bool {
    if names.len() != others.len() {
        return false;
    }
    for (name, other) in names.iter().zip(others) {
        if name.as_slice() != other.as_slice() {
            return false;
        }
    }
    true
}

fn is_same_row(row: &Cached, other: &Cached) -> bool {
    row.uid == other.uid
        && row.flags == other.flags
        && row.modseq == other.modseq
        && are_same_names(row.keywords.as_slice(), other.keywords.as_slice())
}

fn is_same(replica: &Replica, other: &Replica) -> bool {
    if replica.uid_validity != other.uid_validity
        || replica.highest != other.highest
        || replica.rows.len() != other.rows.len()
    {
        return false;
    }
    for (row, other) in replica.rows.as_slice().iter().zip(other.rows.as_slice()) {
        if !is_same_row(row, other) {
            return false;
        }
    }
    true
}

/// Lets a replica hear what its state asks of a mailbox. Fails unless it is the mailbox's then.
pub fn catch_up(alloc: Global, replica: &mut Replica, live: &Live) -> Result<(), Fail> {
    let old = replica.old(alloc)?;
    let answers = resync(alloc, live, &old)?;
    replica.catch_up(alloc, &answers)?;
    if is_same(replica, &replica_of(alloc, live)?) {
        Ok(())
    } else {
        Err(Fail::from("another replica"))
    }
}

/// The same, hearing one answer after another.
pub fn hear_each(alloc: Global, replica: &mut Replica, live: &Live) -> Result<(), Fail> {
    let old = replica.old(alloc)?;
    let answers = resync(alloc, live, &old)?;
    for a in answers.as_slice() {
        replica.hear(alloc, a)?;
    }
    if is_same(replica, &replica_of(alloc, live)?) {
        Ok(())
    } else {
        Err(Fail::from("another replica"))
    }
}
