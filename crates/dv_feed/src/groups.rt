ghost use Rattle.std.specs.Prelude.{◌≡◌, ℕ, All, IfOk};
ghost use Rattle.dv_model.specs.declared.types.Group.{Group};
ghost use Rattle.dv_model.specs.Journals.{AreByteValues, IsEntry};
ghost use Rattle.dv_model.specs.Spelling.{IsRecord, group_text};
ghost use Rattle.dv_formats.specs.Feeds.{feed_text, group_words};
ghost use Rattle.dv_feed.specs.Feeds.{IsFeed};
ghost use Rattle.dv_feed.specs.Publishing.{IsGroupText, IsGroupWords};

use dv_model::{Entry, Group, List, NoMemory};
use dv_records::{DecodeEnd, decode};
use std::alloc::Global;

/// The entries of a feed's words.
pub fn groups_of(alloc: Global, words: &List<u32>) -> Result<List<Entry>, NoMemory>
    requires { IsFeed words.now }
    ensures { IfOk result (λ entries. All IsEntry entries × (feed_text entries ≡ words.now)) }
{
    let mut entries = List::new(alloc);
    let mut rest = words.as_slice();
    while rest.len() >= 2 {
        let (head, behind) = rest.split_at(2);
        let (group, behind) = behind.split_at(head[1] as usize);
        let author = head[0];
        let group = group_of(alloc, group)?;
        entries.push(Entry { author, group })?;
        rest = behind;
    }
    Ok(entries)
}

// The group of these words.
fn group_of(alloc: Global, words: &[u32]) -> Result<Group, NoMemory>
    requires { IsGroupWords words.now }
    ensures { (group : Group) → All IsRecord group.records → AreByteValues (group_text group)
        → group_words group ≡ words.now → IfOk result (λ made. made ≡ group) }
{
    let mut text = Vec::new(alloc);
    for word in words {
        text.extend_from_slice(&word.to_le_bytes())?;
    }
    group_in(alloc, &text)
}

// The group of this text.
fn group_in(alloc: Global, text: &[u8]) -> Result<Group, NoMemory>
    requires { IsGroupText text.now }
    ensures { (group : Group) → All IsRecord group.records → group_text group ≡ text.now
        → IfOk result (λ made. made ≡ group) }
{
    let mut records = List::new(alloc);
    let mut at = 0;
    while at < text.len() {
        match decode(alloc, text, at) {
            Ok((record, next)) => {
                records.push(record)?;
                at = next;
            }
            Err(DecodeEnd::NoMemory) => return Err(NoMemory),
            Err(DecodeEnd::Fault(_)) => unreachable!(),
        }
    }
    Ok(Group { records })
}
