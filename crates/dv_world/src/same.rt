ghost use Rattle.std.specs.Prelude.{◌≡◌, ◌&&◌, bytes_eq};
ghost use Rattle.dv_interleavings.specs.Worlds.{same_bool, same_end, same_items, same_number, same_set, same_write};

use dv_model::{Bytes, Command, End, List, Span};

// Two ends of a range are one.
fn same_end(one: End, other: End) -> bool
    ensures { result ≡ same_end one other }
{
    match (one, other) {
        (End::Number(m), End::Number(n)) => m == n,
        (End::Star, End::Star) => true,
        _ => false,
    }
}

// Two sequence sets are one, range by range.
fn same_set(one: &[Span], other: &[Span]) -> bool
    ensures { result ≡ same_set one.now other.now }
{
    if one.len() != other.len() {
        return false;
    }
    for i in 0..one.len() {
        if !same_end(one[i].from, other[i].from) || !same_end(one[i].to, other[i].to) {
            return false;
        }
    }
    true
}

// Two lists of names are one.
fn same_names(one: &[Bytes], other: &[Bytes]) -> bool
    ensures { result ≡ same_items bytes_eq one.now other.now }
{
    if one.len() != other.len() {
        return false;
    }
    for i in 0..one.len() {
        if one[i].as_slice() != other[i].as_slice() {
            return false;
        }
    }
    true
}

fn same_lists(one: &List<Bytes>, other: &List<Bytes>) -> bool
    ensures { result ≡ same_items bytes_eq one.now other.now }
{
    same_names(one.as_slice(), other.as_slice())
}

// The messages that two STOREs name are one.
fn same_target(by_uid: (bool, bool), one: &List<Span>, other: &List<Span>) -> bool
    ensures { result ≡ (same_bool by_uid.0 by_uid.1 && same_set one.now other.now) }
{
    by_uid.0 == by_uid.1 && same_set(one.as_slice(), other.as_slice())
}

// Two numbers are one, or neither is there.
fn same_number(one: Option<u64>, other: Option<u64>) -> bool
    ensures { result ≡ same_number one other }
{
    match (one, other) {
        (Some(m), Some(n)) => m == n,
        (None, None) => true,
        _ => false,
    }
}

/// Two writes are one command.
pub fn same_write(one: &Command, other: &Command) -> bool
    ensures { result ≡ same_write one.now other.now }
{
    match (one, other) {
        (Command::Check, Command::Check) => true,
        (Command::Expunge, Command::Expunge) => true,
        (
            Command::Append {
                flags,
                keywords,
                message,
            },
            Command::Append {
                flags: flags_2,
                keywords: keywords_2,
                message: message_2,
            },
        ) => {
            *flags == *flags_2
                && same_lists(keywords, keywords_2)
                && message.as_slice() == message_2.as_slice()
        }
        (
            Command::Store {
                by_uid,
                set,
                how,
                flags,
                keywords,
                unchanged_since,
            },
            Command::Store {
                by_uid: by_uid_2,
                set: set_2,
                how: how_2,
                flags: flags_2,
                keywords: keywords_2,
                unchanged_since: since_2,
            },
        ) => {
            same_target((*by_uid, *by_uid_2), set, set_2)
                && *how == *how_2
                && *flags == *flags_2
                && same_lists(keywords, keywords_2)
                && same_number(*unchanged_since, *since_2)
        }
        (Command::UidRemove { set }, Command::UidRemove { set: set_2 }) => {
            same_set(set.as_slice(), set_2.as_slice())
        }
        _ => false,
    }
}
