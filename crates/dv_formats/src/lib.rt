//! The texts that a mailbox folder's program reads and writes, as definitions: scripts, the index's
//! snapshot, and the words that sessions share.
#![tactic(auto)]

ghost use Rattle.dv_formats.specs.Laws.{ReplyIsOne, SnapshotIsOne};

/// A text is of one snapshot: one version, one mailbox, one identifier and one place of the log.
pub fn snapshot_is_one()
    ensures { SnapshotIsOne }
{}

/// No line of a reply begins another, and each is of one session and one reply.
pub fn reply_is_one()
    ensures { ReplyIsOne }
{}
