ghost use Rattle.std.specs.Prelude.{◌≡◌, IfOk};

use crate::{
    Body, Bytes, Change, Command, Duplicate, Extension, GuidRow, Intro, Item, Key, List, Mailbox,
    NewRow, NoMemory, Pair, Part, Record, Row, Span,
};
use sqlite_items::{Boxed, Items};
use std::alloc::Global;

impl Duplicate for u8 {
    fn duplicate(&self, _alloc: Global) -> Result<u8, NoMemory> {
        Ok(*self)
    }
}

impl Duplicate for u32 {
    fn duplicate(&self, _alloc: Global) -> Result<u32, NoMemory> {
        Ok(*self)
    }
}

impl Duplicate for Pair {
    fn duplicate(&self, _alloc: Global) -> Result<Pair, NoMemory> {
        Ok(*self)
    }
}

impl Duplicate for NewRow {
    fn duplicate(&self, _alloc: Global) -> Result<NewRow, NoMemory> {
        Ok(*self)
    }
}

impl Duplicate for Change {
    fn duplicate(&self, _alloc: Global) -> Result<Change, NoMemory> {
        Ok(*self)
    }
}

impl Duplicate for GuidRow {
    fn duplicate(&self, _alloc: Global) -> Result<GuidRow, NoMemory> {
        Ok(*self)
    }
}

impl Duplicate for Span {
    fn duplicate(&self, _alloc: Global) -> Result<Span, NoMemory> {
        Ok(*self)
    }
}

impl<T: Duplicate> Duplicate for List<T> {
    fn duplicate(&self, alloc: Global) -> Result<List<T>, NoMemory> {
        let mut made = List::from_vec(Vec::with_capacity(alloc, self.len())?);
        for item in self.as_slice() {
            made.push(item.duplicate(alloc)?)?;
        }
        Ok(made)
    }
}

impl Duplicate for Row {
    fn duplicate(&self, alloc: Global) -> Result<Row, NoMemory> {
        Ok(Row {
            uid: self.uid,
            flags: self.flags,
            keywords: self.keywords.duplicate(alloc)?,
            parts: self.parts.duplicate(alloc)?,
            modseq: self.modseq,
        })
    }
}

impl Duplicate for Extension {
    fn duplicate(&self, alloc: Global) -> Result<Extension, NoMemory> {
        Ok(Extension {
            name: self.name.duplicate(alloc)?,
            reset_id: self.reset_id,
            header: self.header.duplicate(alloc)?,
            record_size: self.record_size,
            record_align: self.record_align,
            flags: self.flags,
        })
    }
}

impl Mailbox {
    /// An equal mailbox.
    pub fn copy(&self, alloc: Global) -> Result<Mailbox, NoMemory>
        ensures { IfOk result (λ made. made ≡ self.now) }
    {
        Ok(Mailbox {
            uid_validity: self.uid_validity,
            next_uid: self.next_uid,
            rows: self.rows.duplicate(alloc)?,
            keywords: self.keywords.duplicate(alloc)?,
            extensions: self.extensions.duplicate(alloc)?,
            current: self.current,
            highest: self.highest,
        })
    }
}

impl Duplicate for Part {
    fn duplicate(&self, alloc: Global) -> Result<Part, NoMemory> {
        Ok(Part {
            offset: self.offset,
            bytes: self.bytes.duplicate(alloc)?,
        })
    }
}

impl Duplicate for Intro {
    fn duplicate(&self, alloc: Global) -> Result<Intro, NoMemory> {
        Ok(Intro {
            ext_id: self.ext_id,
            reset_id: self.reset_id,
            hdr_size: self.hdr_size,
            record_size: self.record_size,
            record_align: self.record_align,
            flags: self.flags,
            name: self.name.duplicate(alloc)?,
        })
    }
}

impl Duplicate for Body {
    fn duplicate(&self, alloc: Global) -> Result<Body, NoMemory> {
        match self {
            Body::Expunge(pairs) => Ok(Body::Expunge(pairs.duplicate(alloc)?)),
            Body::Append(rows) => Ok(Body::Append(rows.duplicate(alloc)?)),
            Body::FlagUpdate(changes) => Ok(Body::FlagUpdate(changes.duplicate(alloc)?)),
            Body::HeaderUpdate(parts) => Ok(Body::HeaderUpdate(parts.duplicate(alloc)?)),
            Body::ExtIntro(intros) => Ok(Body::ExtIntro(intros.duplicate(alloc)?)),
            Body::ExtReset { reset_id, preserve } => Ok(Body::ExtReset {
                reset_id: *reset_id,
                preserve: *preserve,
            }),
            Body::ExtHeaderUpdate(parts) => Ok(Body::ExtHeaderUpdate(parts.duplicate(alloc)?)),
            Body::ExtRecordUpdate(bytes) => Ok(Body::ExtRecordUpdate(bytes.duplicate(alloc)?)),
            Body::KeywordUpdate { how, name, pairs } => Ok(Body::KeywordUpdate {
                how: *how,
                name: name.duplicate(alloc)?,
                pairs: pairs.duplicate(alloc)?,
            }),
            Body::KeywordReset(pairs) => Ok(Body::KeywordReset(pairs.duplicate(alloc)?)),
            Body::ExpungeGuid(rows) => Ok(Body::ExpungeGuid(rows.duplicate(alloc)?)),
            Body::Carried { code, bytes } => Ok(Body::Carried {
                code: *code,
                bytes: bytes.duplicate(alloc)?,
            }),
        }
    }
}

impl Record {
    /// An equal record.
    pub fn copy(&self, alloc: Global) -> Result<Record, NoMemory>
        ensures { IfOk result (λ made. made ≡ self.now) }
    {
        Ok(Record {
            top: self.top,
            body: self.body.duplicate(alloc)?,
        })
    }
}

impl Duplicate for Item {
    fn duplicate(&self, alloc: Global) -> Result<Item, NoMemory> {
        match self {
            Item::Flags => Ok(Item::Flags),
            Item::Size => Ok(Item::Size),
            Item::Body => Ok(Item::Body),
            Item::Field(name) => Ok(Item::Field(name.duplicate(alloc)?)),
            Item::Modseq => Ok(Item::Modseq),
        }
    }
}

#[cycle(key)]
fn copy_key(key: &Key, alloc: Global) -> Result<Key, NoMemory>
    ensures { IfOk result (λ made. made ≡ key.now) }
{
    match key {
        Key::All => Ok(Key::All),
        Key::Has(bits) => Ok(Key::Has(*bits)),
        Key::Lacks(bits) => Ok(Key::Lacks(*bits)),
        Key::Keyword(name) => Ok(Key::Keyword(name.duplicate(alloc)?)),
        Key::Uid(set) => Ok(Key::Uid(set.duplicate(alloc)?)),
        Key::Larger(size) => Ok(Key::Larger(*size)),
        Key::Header { name, text } => Ok(Key::Header {
            name: name.duplicate(alloc)?,
            text: text.duplicate(alloc)?,
        }),
        Key::Not(one) => Ok(Key::Not(Boxed::new(alloc, copy_key(one.get(), alloc)?)?)),
        Key::Or(one, other) => Ok(Key::Or(
            Boxed::new(alloc, copy_key(one.get(), alloc)?)?,
            Boxed::new(alloc, copy_key(other.get(), alloc)?)?,
        )),
        Key::And(keys) => Ok(Key::And(copy_keys(keys, alloc)?)),
    }
}

#[cycle(key)]
fn copy_keys(keys: &Items<Key>, alloc: Global) -> Result<Items<Key>, NoMemory>
    ensures { IfOk result (λ made. made ≡ keys.now) }
{
    let mut made = Items::new(alloc);
    for key in keys.as_slice() {
        made.push(copy_key(key, alloc)?)?;
    }
    Ok(made)
}

impl Command {
    /// An equal command.
    pub fn copy(&self, alloc: Global) -> Result<Command, NoMemory>
        ensures { IfOk result (λ made. made ≡ self.now) }
    {
        match self {
            Command::Select => Ok(Command::Select),
            Command::Noop => Ok(Command::Noop),
            Command::Check => Ok(Command::Check),
            Command::Expunge => Ok(Command::Expunge),
            Command::Append {
                flags,
                keywords,
                message,
            } => Ok(Command::Append {
                flags: *flags,
                keywords: keywords.duplicate(alloc)?,
                message: message.duplicate(alloc)?,
            }),
            Command::Fetch { by_uid, set, items } => Ok(Command::Fetch {
                by_uid: *by_uid,
                set: set.duplicate(alloc)?,
                items: items.duplicate(alloc)?,
            }),
            Command::Store {
                by_uid,
                set,
                how,
                flags,
                keywords,
                unchanged_since,
            } => Ok(Command::Store {
                by_uid: *by_uid,
                set: set.duplicate(alloc)?,
                how: *how,
                flags: *flags,
                keywords: keywords.duplicate(alloc)?,
                unchanged_since: *unchanged_since,
            }),
            Command::Search { by_uid, key } => Ok(Command::Search {
                by_uid: *by_uid,
                key: copy_key(key, alloc)?,
            }),
            Command::UidRemove { set } => Ok(Command::UidRemove {
                set: set.duplicate(alloc)?,
            }),
        }
    }
}
