//! Commands and looks as plain values.

ghost use Rattle.std.specs.Prelude.{All, IfOk, length, ◌^◌, ◌≤◌};
ghost use Rattle.dv_model.specs.Names.{IsName};
ghost use Rattle.dv_model.specs.Sessions.{IsCommand};
ghost use Rattle.dv_groups.specs.Groups.{HasFewKeywords};

use dv_model::{Bytes, Command, End, How, List, Span};
use dv_plans::StoreFault;
use dv_records::is_name;
use dv_shelf::{MemClock, MemShelf};
use dv_store::{Receipt, Store};
use dv_view::View;
use std::alloc::Global;
use std::test::Fail;

/// What a store is asked.
#[derive(Clone, Copy)]
pub enum Ask {
    /// A message of these flags and bytes is added.
    Append(u8, &'static [u8]),
    /// The same, with a keyword.
    AppendKeyword(u8, &'static [u8], &'static [u8]),
    /// The messages of these UIDs get or lose these flags.
    Store(u32, u32, How, u8),
    /// The same of a keyword beside the flags.
    StoreKeyword(u32, u32, How, u8, &'static [u8]),
    /// The same of those that haven't changed since.
    StoreSince(u32, u32, u8, u64),
    Expunge,
    Check,
    Noop,
    /// The messages of these UIDs are removed.
    Remove(u32, u32),
    /// The message of a UID.
    Body(u32),
    /// Its sizes.
    Sizes(u32),
    /// Its first header field of this name.
    Field(u32, &'static [u8]),
    /// Its sizes and that field at once.
    Facts(u32, &'static [u8]),
    /// What a FETCH of its size and its bytes is answered from.
    Fetch(u32),
    /// What a removal of these UIDs would write.
    Plan(u32, u32),
    /// The message file of a UID is removed, which has no row.
    Sweep(u32),
    /// The index is replaced.
    Checkpoint,
}

/// The messages of the UIDs of a range.
pub fn range(alloc: Global, first: u32, last: u32) -> Result<List<Span>, Fail> {
    let span = Span {
        from: End::Number(first),
        to: End::Number(last),
    };
    Ok(List::from_slice(alloc, &[span])?)
}

// A list of one keyword.
fn keyword(alloc: Global, name: &[u8]) -> Result<List<Bytes>, Fail>
    ensures names { IfOk result (All IsName) }
    ensures few { IfOk result (λ names. length names ≤ 2 ^ 26) }
{
    if !is_name(name) {
        return Err(Fail::from("no keyword"));
    }
    let mut names = List::new(alloc);
    names.push(Bytes::from_slice(alloc, name)?)?;
    Ok(names)
}

/// An APPEND.
pub fn append(flags: u8, keywords: List<Bytes>, message: Bytes) -> Command
    requires names { All IsName keywords }
    requires few { length keywords ≤ 2 ^ 26 }
    ensures command { IsCommand result }
    ensures few { HasFewKeywords result }
{
    Command::Append {
        flags,
        keywords,
        message,
    }
}

/// A STORE by UID.
pub fn store(
    set: List<Span>,
    how: How,
    flags: u8,
    keywords: List<Bytes>,
    unchanged_since: Option<u64>,
) -> Command
    requires names { All IsName keywords }
    requires few { length keywords ≤ 2 ^ 26 }
    ensures command { IsCommand result }
    ensures few { HasFewKeywords result }
{
    Command::Store {
        by_uid: true,
        set,
        how,
        flags,
        keywords,
        unchanged_since,
    }
}

// The command of what is asked, which is no look.
fn command_of(alloc: Global, ask: Ask) -> Result<Command, Fail>
    ensures command { IfOk result IsCommand }
    ensures few { IfOk result HasFewKeywords }
{
    let none = List::new(alloc);
    match ask {
        Ask::Append(flags, message) => {
            Ok(append(flags, none, Bytes::from_slice(alloc, message)?))
        }
        Ask::AppendKeyword(flags, name, message) => {
            let names = keyword(alloc, name)?;
            Ok(append(flags, names, Bytes::from_slice(alloc, message)?))
        }
        Ask::Store(first, last, how, flags) => {
            Ok(store(range(alloc, first, last)?, how, flags, none, None))
        }
        Ask::StoreKeyword(first, last, how, flags, name) => {
            let names = keyword(alloc, name)?;
            Ok(store(range(alloc, first, last)?, how, flags, names, None))
        }
        Ask::StoreSince(first, last, flags, since) => {
            Ok(store(
                range(alloc, first, last)?,
                How::Add,
                flags,
                none,
                Some(since),
            ))
        }
        Ask::Expunge => Ok(Command::Expunge),
        Ask::Check => Ok(Command::Check),
        Ask::Noop => Ok(Command::Noop),
        Ask::Remove(first, last) => Ok(Command::UidRemove {
            set: range(alloc, first, last)?,
        }),
        _ => Err(Fail::from("a look")),
    }
}

/// A store over a folder in memory.
pub type MemStore = Store<MemShelf, MemClock>;

/// What a store answers to a command, from this view. The text of its group is added to the others.
pub fn write(
    alloc: Global,
    store: &mut MemStore,
    view: &View,
    ask: Ask,
    texts: &mut Bytes,
) -> Result<Result<Receipt, StoreFault>, Fail> {
    let command = command_of(alloc, ask)?;
    let answer = store.commit_command(&command, view);
    if let Ok(receipt) = &answer {
        texts.extend(receipt.text.as_slice())?;
    }
    Ok(answer)
}
