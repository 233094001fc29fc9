ghost use Rattle.std.specs.Prelude.{◌≡◌, ◌*◌, List, All};
ghost use Rattle.dv_model.specs.declared.types.Entry.{Entry};
ghost use Rattle.dv_model.specs.Journals.{IsEntry, IsU32};
ghost use Rattle.dv_formats.specs.Feeds.{feed_text};
ghost use Rattle.dv_feed.specs.Feeds.{AreWordsFrom, mark_from};
ghost use Rattle.dv_feed.specs.Marking.{mark_by};

use dv_model::{List, Mark};

// A file of the log that ends here or later is rotated before the next group, but for the last.
const ROTATE_AT: u32 = 131_072;

const LAST_FILE_SEQ: u32 = 4_294_967_295;

const HEADER_SIZE: u32 = 40;

/// The place behind the entries that have these words, in the log from a mark on. No group is
/// decoded, and no memory taken.
pub fn mark_behind_words(mark: Mark, words: &List<u32>) -> Mark
    requires { AreWordsFrom mark words.now }
    ensures { (entries : List Entry) → All IsEntry entries → feed_text entries ≡ words.now
        → result ≡ mark_from mark entries }
{
    let mut behind = mark;
    let mut rest = words.as_slice();
    while rest.len() >= 2 {
        let (head, group) = rest.split_at(2);
        let (_, next) = group.split_at(head[1] as usize);
        behind = mark_behind(behind, head[1]);
        rest = next;
    }
    behind
}

// The place behind a group of so many words that is written at this one.
fn mark_behind(mark: Mark, words: u32) -> Mark
    requires { IsU32 (mark_by mark (4 * words)).offset }
    ensures { result ≡ mark_by mark (4 * words) }
{
    if mark.offset >= ROTATE_AT && mark.file_seq < LAST_FILE_SEQ {
        Mark {
            file_seq: mark.file_seq + 1,
            offset: HEADER_SIZE + 4 * words,
        }
    } else {
        Mark {
            file_seq: mark.file_seq,
            offset: mark.offset + 4 * words,
        }
    }
}
