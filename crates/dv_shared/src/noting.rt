ghost use Rattle.std.specs.Prelude.{◌≡◌, ◌+◌, ◌++◌, ◌∷◌, [], ◌/◌, ◌<◌, ◌≤◌, ◌^◌, Ok, length, true};
ghost use Rattle.dv_front.specs.Notes.{AreNotes};
ghost use Rattle.dv_generations.specs.Feeds.{Fits, journal, turned};
ghost use Rattle.dv_model.specs.Journals.{IsU32};
ghost use Rattle.dv_model.specs.Spelling.{group_text};
ghost use Rattle.dv_notes.specs.Logs.{AreNotesOf, log_of, note_of};
ghost use Rattle.dv_tries.specs.Commits.{notes_behind};
ghost use Rattle.dv_shared.specs.Committing.{KeepsWords};

use crate::written::Written;
use dv_front::NamesNote;
use dv_generations::{Generations, Next};
use dv_model::Command;
use dv_naming::Keeping;
use dv_store::{Receipt, Store};
use std::marker::Brand;
use std::snapshot::Snapshot;

// Publishes the group of a receipt as one note more, which the caller names: that of the command by
// this author, over the mailbox that it met, when its message came.
fn publish_noted<S, C, K: Keeping, J: NamesNote>(
    feed: &mut Generations<K>,
    next: Option<Next<K>>,
    author: u32,
    c: &Command,
    before: &Snapshot<Store<S, C>>,
    receipt: &Receipt,
)
    requires note { J.note ≡ note_of (log_of K.start (journal feed.old)) author c.now
        receipt.now.received receipt.now.group before.now.value.chain.live.mailbox }
    requires good { AreNotes K.start.start K.start.start_mark (journal feed.old ++ J.note ∷ []) }
    requires text { receipt.now.text ≡ group_text receipt.now.group }
    requires fits { Fits (length receipt.now.text / 4) feed.old next }
    ensures notes { journal feed.new ≡ journal feed.old ++ J.note ∷ [] }
    ensures pass { feed.new.pass ≡ (turned feed.old next).pass }
{
    let _ = c;
    let _ = before;
    feed.publish::<J>(next, author, receipt.text.as_slice());
}

/// The place of a receipt has 32 bits, and the length of its text 64. Nothing is computed.
pub(crate) fn bounds(receipt: &Receipt)
    ensures place { IsU32 receipt.now.mark.offset }
    ensures text { length receipt.now.text < 2 ^ 64 }
{
    let _offset = receipt.mark.offset;
    let _length = receipt.text.len();
}

// What is told of a receipt, behind so many notes.
fn written_by(receipt: &Receipt, number: u64) -> Written
    ensures { result ≡ record {
      mark = receipt.now.mark;
      uid = receipt.now.uid;
      number = number;
    } }
{
    Written {
        mark: receipt.mark,
        uid: receipt.uid,
        number,
    }
}

/// Publishes what a receipt has, where that is a group with a record, and counts it.
pub(crate) fn note_receipt<S, C, K: Keeping>(
    feed: &mut Generations<K>,
    count: &mut u64,
    next: Option<Next<K>>,
    author: u32,
    c: &Command,
    before: &Snapshot<Store<S, C>>,
    receipt: &Receipt,
) -> Written
    requires count { (count.old ≡ length (journal feed.old)) × (count.old + 1 < 2 ^ 64) }
    requires good { AreNotesOf K.start (notes_behind K.start (journal feed.old) author c.now
        before.now.value (Ok receipt.now)) }
    requires text { receipt.now.text ≡ group_text receipt.now.group }
    requires fits { Fits (length receipt.now.text / 4) feed.old next }
    requires pass { (turned feed.old next).pass ≡ true }
    ensures notes { journal feed.new ≡ notes_behind K.start (journal feed.old) author c.now
        before.now.value (Ok receipt.now) }
    ensures same { receipt.now.group.records ≡ [] → feed.new ≡ feed.old }
    ensures pass { 1 ≤ length receipt.now.group.records → feed.new.pass ≡ true }
    ensures written { result ≡ record {
      mark = receipt.now.mark;
      uid = receipt.now.uid;
      number = length (journal feed.new);
    } }
    ensures count { count.new ≡ length (journal feed.new) }
{
    if receipt.group.records.is_empty() {
        return written_by(receipt, *count);
    }
    publish_noted::<S, C, K, Brand>(feed, next, author, c, before, receipt);
    *count += 1;
    written_by(receipt, *count)
}
