ghost use Rattle.std.specs.Prelude.{◌≡◌, ◌<◌, length, position, IfSome};
ghost use Rattle.std.specs.List.{list_all};
ghost use Rattle.std.specs.Option.{option_map};
ghost use Rattle.dv_dbox.specs.BoxTexts.{first_line, is_feed, is_item};
ghost use Rattle.dv_dbox.specs.Reading.{texts};

/// The place of the first line feed.
fn place_of_feed(text: &[u8]) -> Option<usize>
    ensures { result ≡ position is_feed text.now }
{
    text.iter().position(|b| *b == b'\n')
}

/// A text up to its first line feed, and what follows that.
pub(crate) fn split_line(text: &[u8]) -> Option<(&[u8], &[u8])>
    ensures value { option_map (λ x. (x.0.now, x.1.now)) result ≡ first_line text.now }
    ensures shorter { IfSome result (λ x. length x.1.now < length text.now) }
{
    match place_of_feed(text) {
        Some(end) => Some((&text[..end], &text[end + 1..])),
        None => None,
    }
}

/// Whether a text begins with a letter, the key of an item.
fn is_item(text: &[u8]) -> bool
    ensures { result ≡ is_item text.now }
{
    matches!(text, [key, ..] if key.is_ascii_alphabetic())
}

/// Whether each text is an item.
pub(crate) fn are_items(items: &[&[u8]]) -> bool
    ensures { result ≡ list_all is_item (texts items.now) }
{
    for text in items {
        if !is_item(*text) {
            return false;
        }
    }
    true
}
