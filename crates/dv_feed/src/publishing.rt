ghost use Rattle.std.specs.Prelude.{◌≡◌, ◌+◌, ◌++◌, ◌∷◌, [], ◌/◌, ◌^◌, ◌<◌, ◌≤◌, false, length};
ghost use Rattle.dv_model.specs.Spelling.{group_text};
ghost use Rattle.dv_formats.specs.Feeds.{words_of};
ghost use Rattle.dv_front.specs.Ends.{published};
ghost use Rattle.dv_front.specs.Notes.{AreGood};
ghost use Rattle.dv_feed.specs.Publishing.{with_entry, with_words};

use dv_front::{NamesNote, Pen, publish, put_word, words_put};
use dv_num::u32_at;

/// Puts a group's words, which are the author, the number of words that follow and the text of its
/// records, four bytes to a word, and publishes them by one store. The caller names the entry, with
/// the message of the APPEND that wrote it. Takes no memory.
pub fn publish_group<J: NamesNote>(pen: &mut Pen, author: u32, text: &[u8])
    requires author { J.note.entry.author ≡ author }
    requires text { group_text J.note.entry.group ≡ text.now }
    requires good { AreGood pen.old.generation (pen.old.notes ++ J.note ∷ []) }
    requires room { length pen.old.put + 2 + length text.now / 4 ≤ pen.old.generation.room }
    requires open { pen.old.sealed ≡ false }
    requires all { pen.old.put ≡ published pen.old }
    ensures { pen.new ≡ with_entry pen.old J.note }
{
    let at = words_put(pen);
    let count = (text.len() / 4) as u32;
    put_word(pen, at + 1, author);
    put_word(pen, at + 2, count);
    put_text(pen, at + 2, text, count);
    publish::<J>(pen, at + 2 + count);
}

// Puts the words of a text behind those that were put.
fn put_text(pen: &mut Pen, at: u32, text: &[u8], count: u32)
    requires next { at ≡ length pen.old.put }
    requires room { at + count ≤ pen.old.generation.room }
    requires count { count ≡ length text.now / 4 }
    requires small { pen.old.generation.room < 2 ^ 32 }
    ensures { pen.new ≡ with_words pen.old (words_of count text.now) }
{
    for k in 0..count {
        put_word(pen, at + k + 1, u32_at(text, k as usize * 4));
    }
}
