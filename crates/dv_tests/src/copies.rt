use dv_apply::Live;
use dv_model::{
    Boxed, Command, End, Extension, How, Item, Items, Key, List, Mailbox, NoMemory, Row, Span,
};
use dv_records::{decode, encode};
use std::alloc::Global;
use std::test::*;

/// A record of each kind, in its written spelling.
pub const RECORDS: [&[u8]; 12] = [
    // UIDVALIDITY 1000
    b"\x80\x80\x80\x84\x20\0\0\0\x18\0\x04\0\xe8\x03\0\0",
    // UID 1, and UID 2 with Seen
    b"\x80\x80\x80\x86\x02\0\0\x10\x01\0\0\0\0\0\0\0\x02\0\0\0\x08\0\0\0",
    // UID 1 gets Seen
    b"\x80\x80\x80\x85\x04\0\0\x10\x01\0\0\0\x01\0\0\0\x08\0\0\0",
    // UID 1 gets the keyword k1
    b"\x80\x80\x80\x86\0\x04\0\x10\0\0\x02\0k1\0\0\x01\0\0\0\x01\0\0\0",
    // UID 2 loses its keywords
    b"\x80\x80\x80\x84\0\x08\0\x10\x02\0\0\0\x02\0\0\0",
    // the extension cache, four bytes of each row
    b"\x80\x80\x80\x89\x40\0\0\0\xff\xff\xff\xff\0\0\0\0\0\0\0\0\x04\0\x04\0\0\0\x05\0cache\0\0\0",
    // its number is 1
    b"\x80\x80\x80\x84\x80\0\0\0\x01\0\0\0\0\0\0\0",
    // four bytes of UID 1
    b"\x80\x80\x80\x84\0\x02\0\0\x01\0\0\0\x20\0\0\0",
    // two bytes at the front of its header
    b"\x80\x80\x80\x84\0\x01\0\0\0\0\x02\0\x07\x08\0\0",
    // UID 2 leaves
    b"\x80\x80\x80\x84\x91\xcd\0\x10\x02\0\0\0\x02\0\0\0",
    // UID 3, which isn't there, leaves with its GUID
    b"\x80\x80\x80\x87\x90\xed\0\x10\x03\0\0\0\x01\x02\x03\x04\x05\x06\x07\x08\x09\x0a\x0b\x0c\x0d\x0e\x0f\x10",
    // a boundary, which is carried
    b"\x80\x80\x80\x83\0\0\x08\0\x1c\0\0\0",
];

// Whether these bytes are written of a copy of their record.
fn is_copied(alloc: Global, bytes: &[u8]) -> Result<bool, NoMemory> {
    let Ok((record, _)) = decode(alloc, bytes, 0) else {
        return Err(NoMemory);
    };
    let copy = record.copy(alloc)?;
    let mut written = List::new(alloc);
    encode(alloc, &copy, &mut written)?;
    Ok(written.as_slice() == bytes)
}

#[test]
fn records_are_copied(rt: HostRuntime) {
    for bytes in RECORDS {
        assert_eq!(rt; is_copied(rt.alloc(), bytes), Ok(true), "{bytes:?}");
    }
}

// A record that is refused or can't be read counts as want of memory, which no test expects.
fn apply(alloc: Global, live: &mut Live, bytes: &[u8]) -> Result<(), NoMemory> {
    let Ok((record, _)) = decode(alloc, bytes, 0) else {
        return Err(NoMemory);
    };
    match live.apply(&record) {
        Ok(()) => Ok(()),
        Err(_) => Err(NoMemory),
    }
}

fn apply_all(alloc: Global, live: &mut Live) -> Result<(), NoMemory> {
    for bytes in RECORDS {
        apply(alloc, live, bytes)?;
    }
    Ok(())
}

fn mailbox_of(alloc: Global) -> Result<Mailbox, NoMemory> {
    let mut live = Live::empty(alloc, 1000);
    apply_all(alloc, &mut live)?;
    live.mailbox(alloc)
}

fn is_that_row(row: &Row) -> bool {
    let [part] = row.parts.as_slice() else {
        return false;
    };
    (row.uid, row.flags, row.modseq) == (1, 8, 5)
        && row.keywords.as_slice() == [0].as_slice()
        && part.as_slice() == [0x20, 0, 0, 0].as_slice()
}

fn is_that_extension(cache: &Extension) -> bool {
    cache.name.as_slice() == b"cache".as_slice() && (cache.reset_id, cache.record_size) == (1, 4)
}

// Whether the rows, the keywords and the extensions are each the one that is there.
fn has_those(mailbox: &Mailbox) -> [bool; 3] {
    [
        matches!(mailbox.rows.as_slice(), [row] if is_that_row(row)),
        are_those_keywords(&mailbox.keywords),
        matches!(mailbox.extensions.as_slice(), [cache] if is_that_extension(cache)),
    ]
}

// The UIDVALIDITY, the UIDNEXT and the highest modification sequence of a copy, and what it has.
fn copied(alloc: Global) -> Result<((u32, u32, u64), [bool; 3]), NoMemory> {
    let made = mailbox_of(alloc)?;
    let copy = made.copy(alloc)?;
    let numbers = (copy.uid_validity, copy.next_uid, copy.highest);
    Ok((numbers, has_those(&copy)))
}

#[test]
fn a_mailbox_is_copied(rt: HostRuntime) {
    assert_eq!(rt; copied(rt.alloc()), Ok(((1000, 3, 13), [true; 3])));
}

fn bytes_of(alloc: Global, text: &[u8]) -> Result<List<u8>, NoMemory> {
    Ok(List::from_slice(alloc, text)?)
}

// NOT of: DRAFT or (KEYWORD k1, LARGER 4)
fn key_of(alloc: Global) -> Result<Key, NoMemory> {
    let mut both = Items::new(alloc);
    both.push(Key::Keyword(bytes_of(alloc, b"k1")?))?;
    both.push(Key::Larger(4))?;
    let one = Boxed::new(alloc, Key::Has(0x10))?;
    let other = Boxed::new(alloc, Key::And(both))?;
    Ok(Key::Not(Boxed::new(alloc, Key::Or(one, other))?))
}

fn is_that_key(key: &Key) -> bool {
    let Key::Not(inner) = key else {
        return false;
    };
    let Key::Or(one, other) = inner.get() else {
        return false;
    };
    let (Key::Has(0x10), Key::And(both)) = (one.get(), other.get()) else {
        return false;
    };
    let [Key::Keyword(name), Key::Larger(4)] = both.as_slice() else {
        return false;
    };
    name.as_slice() == b"k1".as_slice()
}

fn all_of(alloc: Global) -> Result<List<Span>, NoMemory> {
    let all = Span {
        from: End::Number(1),
        to: End::Star,
    };
    Ok(List::from_slice(alloc, &[all])?)
}

fn is_all(set: &List<Span>) -> bool {
    let [span] = set.as_slice() else {
        return false;
    };
    matches!((span.from, span.to), (End::Number(1), End::Star))
}

fn search_of(alloc: Global) -> Result<Command, NoMemory> {
    Ok(Command::Search {
        by_uid: true,
        key: key_of(alloc)?,
    })
}

fn is_that_search(command: &Command) -> bool {
    matches!(command, Command::Search { by_uid: true, key } if is_that_key(key))
}

fn copy_of(alloc: Global, command: Result<Command, NoMemory>) -> Result<Command, NoMemory> {
    let command = command?;
    command.copy(alloc)
}

fn search_is_copied(alloc: Global) -> Result<bool, NoMemory> {
    let copy = copy_of(alloc, search_of(alloc))?;
    Ok(is_that_search(&copy))
}

#[test]
fn a_search_is_copied(rt: HostRuntime) {
    assert_eq!(rt; search_is_copied(rt.alloc()), Ok(true));
}

fn keywords_of(alloc: Global) -> Result<List<List<u8>>, NoMemory> {
    let mut keywords = List::new(alloc);
    keywords.push(bytes_of(alloc, b"k1")?)?;
    Ok(keywords)
}

fn are_those_keywords(keywords: &List<List<u8>>) -> bool {
    let [name] = keywords.as_slice() else {
        return false;
    };
    name.as_slice() == b"k1".as_slice()
}

fn append_of(alloc: Global) -> Result<Command, NoMemory> {
    Ok(Command::Append {
        flags: 8,
        keywords: keywords_of(alloc)?,
        message: bytes_of(alloc, b"hello")?,
    })
}

fn is_that_append(command: &Command) -> bool {
    let Command::Append {
        flags: 8,
        keywords,
        message,
    } = command
    else {
        return false;
    };
    are_those_keywords(keywords) && message.as_slice() == b"hello".as_slice()
}

fn append_is_copied(alloc: Global) -> Result<bool, NoMemory> {
    let copy = copy_of(alloc, append_of(alloc))?;
    Ok(is_that_append(&copy))
}

#[test]
fn an_append_is_copied(rt: HostRuntime) {
    assert_eq!(rt; append_is_copied(rt.alloc()), Ok(true));
}

fn store_of(alloc: Global) -> Result<Command, NoMemory> {
    Ok(Command::Store {
        by_uid: false,
        set: all_of(alloc)?,
        how: How::Remove,
        flags: 4,
        keywords: keywords_of(alloc)?,
        unchanged_since: Some(7),
    })
}

fn is_that_store(command: &Command) -> bool {
    let Command::Store {
        by_uid: false,
        set,
        how: How::Remove,
        flags: 4,
        keywords,
        unchanged_since: Some(7),
    } = command
    else {
        return false;
    };
    is_all(set) && are_those_keywords(keywords)
}

fn store_is_copied(alloc: Global) -> Result<bool, NoMemory> {
    let copy = copy_of(alloc, store_of(alloc))?;
    Ok(is_that_store(&copy))
}

#[test]
fn a_store_is_copied(rt: HostRuntime) {
    assert_eq!(rt; store_is_copied(rt.alloc()), Ok(true));
}

fn items_of(alloc: Global) -> Result<List<Item>, NoMemory> {
    let subject = bytes_of(alloc, b"Subject")?;
    let mut items = List::new(alloc);
    items.push(Item::Modseq)?;
    items.push(Item::Field(subject))?;
    Ok(items)
}

fn fetch_of(alloc: Global) -> Result<Command, NoMemory> {
    let items = items_of(alloc)?;
    Ok(Command::Fetch {
        by_uid: true,
        set: all_of(alloc)?,
        items,
    })
}

fn are_those_items(items: &List<Item>) -> bool {
    let [Item::Modseq, Item::Field(name)] = items.as_slice() else {
        return false;
    };
    name.as_slice() == b"Subject".as_slice()
}

fn is_that_fetch(command: &Command) -> bool {
    let Command::Fetch {
        by_uid: true,
        set,
        items,
    } = command
    else {
        return false;
    };
    is_all(set) && are_those_items(items)
}

fn fetch_is_copied(alloc: Global) -> Result<bool, NoMemory> {
    let copy = copy_of(alloc, fetch_of(alloc))?;
    Ok(is_that_fetch(&copy))
}

fn removal_of(alloc: Global) -> Result<Command, NoMemory> {
    Ok(Command::UidRemove {
        set: all_of(alloc)?,
    })
}

fn is_that_removal(command: &Command) -> bool {
    matches!(command, Command::UidRemove { set } if is_all(set))
}

fn removal_is_copied(alloc: Global) -> Result<bool, NoMemory> {
    let copy = copy_of(alloc, removal_of(alloc))?;
    Ok(is_that_removal(&copy))
}

#[test]
fn a_fetch_and_a_removal_are_copied(rt: HostRuntime) {
    assert_eq!(rt; fetch_is_copied(rt.alloc()), Ok(true));
    assert_eq!(rt; removal_is_copied(rt.alloc()), Ok(true));
}
