ghost use Rattle.std.specs.Prelude.{◌≡◌, ◌↔◌, IsTrue};
ghost use Rattle.std.specs.List.{list_any};
ghost use Rattle.dv_model.specs.Sessions.{is_append, is_select, is_write, reads_mail, reads_message, step_of, word_of};
ghost use Rattle.dv_responses.specs.Depth.{IsShallow};

use dv_model::{Command, Item, Step, Word};
use dv_search::needs_mail;

/// Whether the key of a SEARCH nests no deeper than its grammar lets it. The recursion ends there
/// too.
pub fn is_shallow(c: &Command) -> bool
    ensures { IsTrue result ↔ IsShallow c.now }
{
    match c {
        Command::Search { key, .. } => dv_search::is_shallow(key),
        _ => true,
    }
}

/// Whether the command opens the mailbox (RFC 3501, section 6.3.1).
pub fn is_select(c: &Command) -> bool
    ensures { result ≡ is_select c.now }
{
    matches!(c, Command::Select)
}

/// Whether the command adds a message (RFC 3501, section 6.3.11).
pub fn is_append(c: &Command) -> bool
    ensures { result ≡ is_append c.now }
{
    matches!(c, Command::Append { .. })
}

/// Whether the command may change the mailbox or its files.
pub fn is_write(c: &Command) -> bool
    ensures { result ≡ is_write c.now }
{
    matches!(
        c,
        Command::Append { .. }
            | Command::Expunge
            | Command::Check
            | Command::Store { .. }
            | Command::UidRemove { .. }
    )
}

/// The name of the command in its last line.
pub fn word_of(c: &Command) -> Word
    ensures { result ≡ word_of c.now }
{
    match c {
        Command::Select => Word::Select,
        Command::Noop => Word::Noop,
        Command::Check => Word::Check,
        Command::Expunge => Word::Expunge,
        Command::Append { .. } => Word::Append,
        Command::Fetch { by_uid: true, .. } => Word::UidFetch,
        Command::Fetch { .. } => Word::Fetch,
        Command::Store { by_uid: true, .. } => Word::UidStore,
        Command::Store { .. } => Word::Store,
        Command::Search { by_uid: true, .. } => Word::UidSearch,
        Command::Search { .. } => Word::Search,
        Command::UidRemove { .. } => Word::UidRemove,
    }
}

/// How the view moves on behind the command: FETCH, STORE and SEARCH by message numbers leave the
/// numbers as they are (RFC 3501, section 7.4.1).
pub fn step_of(c: &Command) -> Step
    ensures { result ≡ step_of c.now }
{
    match c {
        Command::Fetch { by_uid: false, .. } => Step::Held,
        Command::Store { by_uid: false, .. } => Step::Held,
        Command::Search { by_uid: false, .. } => Step::Held,
        _ => Step::Full,
    }
}

fn reads_message(item: &Item) -> bool
    ensures { result ≡ reads_message item.now }
{
    matches!(item, Item::Size | Item::Body | Item::Field(_))
}

/// Whether one of the items is taken from the message itself.
pub fn reads_messages(items: &[Item]) -> bool
    ensures { result ≡ list_any reads_message items.now }
{
    items.iter().any(|item| reads_message(item))
}

/// Whether the command is a FETCH or a SEARCH that reads messages.
pub fn reads_mail(c: &Command) -> bool
    requires { IsShallow c.now }
    ensures { result ≡ reads_mail c.now }
{
    match c {
        Command::Fetch { items, .. } => reads_messages(items.as_slice()),
        Command::Search { key, .. } => needs_mail(key),
        _ => false,
    }
}
