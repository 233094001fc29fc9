use dv_chain::{Chain, open};
use dv_lookups::{
    BodyFound, CacheFile, FactsFound, FieldFound, SizesFound, body, cache_of_messages,
};
use dv_model::{Bytes, Command, End, Item, List, NoMemory, Reply, Span, Value};
use dv_responses::{Asked, is_shallow, reads_mail};
use dv_shelf::{MemShelf, Name, ShelfFault};
use dv_view::View;
use std::alloc::Global;

// A log of two messages, UID 1 and 2, whose rows of the extension `cache`, numbered 1, have the
// places 32 and 48.
const LOG: &[u8] = b"\x01\x03\x28\0\xe8\x03\0\0\x01\0\0\0\0\0\0\0\0\0\0\0\
    \xe8\x03\0\0\x01\0\0\0\0\0\0\0\x01\0\0\0\0\0\0\0\
    \x80\x80\x80\x84\x20\0\0\0\x18\0\x04\0\xe8\x03\0\0\
    \x80\x80\x80\x86\x02\0\0\x10\x01\0\0\0\0\0\0\0\x02\0\0\0\0\0\0\0\
    \x80\x80\x80\x89\x40\0\0\0\xff\xff\xff\xff\0\0\0\0\0\0\0\0\x04\0\x04\0\0\0\x05\0cache\0\0\0\
    \x80\x80\x80\x84\x80\0\0\0\x01\0\0\0\0\0\0\0\
    \x80\x80\x80\x86\0\x02\0\0\x01\0\0\0\x20\0\0\0\x02\0\0\0\x30\0\0\0\
    \0\0\0\0";

// The cache file numbered 1: of UID 1 it has the sizes 18 and 20 and the subject `Hi`, of UID 2
// nothing.
const CACHE: &[u8] = b"dvca\x01\0\0\0\xe8\x03\0\0\x01\0\0\0\x02\0\0\0\x56\0\0\0\0\0\0\0\0\0\0\0\
    \x01\0\0\0\x12\0\0\0\x14\0\0\0\x40\0\0\0\
    \x02\0\0\0\0\0\0\0\0\0\0\0\0\0\0\0\
    \xff\xff\xff\xff\xff\xff\xff\xff\xff\xff\xff\xff\x02\0\0\0Hi\xff\xff\xff\xff";

// The same, numbered 9.
const FOREIGN: &[u8] = b"dvca\x01\0\0\0\xe8\x03\0\0\x09\0\0\0\x02\0\0\0\x56\0\0\0\0\0\0\0\0\0\0\0\
    \x01\0\0\0\x12\0\0\0\x14\0\0\0\x40\0\0\0\
    \x02\0\0\0\0\0\0\0\0\0\0\0\0\0\0\0\
    \xff\xff\xff\xff\xff\xff\xff\xff\xff\xff\xff\xff\x02\0\0\0Hi\xff\xff\xff\xff";

// The cache file numbered 1 that has both messages, with the same sizes and fields.
const FULL: &[u8] = b"dvca\x01\0\0\0\xe8\x03\0\0\x01\0\0\0\x02\0\0\0\x6c\0\0\0\0\0\0\0\0\0\0\0\
    \x01\0\0\0\x12\0\0\0\x14\0\0\0\x40\0\0\0\
    \x02\0\0\0\x12\0\0\0\x14\0\0\0\x56\0\0\0\
    \xff\xff\xff\xff\xff\xff\xff\xff\xff\xff\xff\xff\x02\0\0\0Hi\xff\xff\xff\xff\
    \xff\xff\xff\xff\xff\xff\xff\xff\xff\xff\xff\xff\x02\0\0\0Hi\xff\xff\xff\xff";

const MESSAGE: &[u8] = b"Subject: Hi\n\nhello";

// The message in a file whose lines Z and V tell other sizes.
const FILE: &[u8] = b"2 M1e C3e9\n\x01\x02N          0000000000000012\nSubject: Hi\n\nhello\n\
    \x01\x03\nZ63\nV64\n\n";

// How a message is found.
enum Mail {
    Held(&'static [u8]),
    Damaged,
    Gone,
}

// What is looked up, with what is found.
enum Look {
    /// A header field of a UID's message: its value, or `None` where the read fails.
    Field(u32, &'static [u8], Option<&'static [u8]>),
    /// The size of a UID's message as it is, and with CRLF line ends.
    Sizes(u32, u64, u64),
    /// The size of a UID's message, where it is asked the message, and the fields of these names.
    Facts(u32, bool, &'static [&'static [u8]], Mail),
    /// A UID's message, whose file is damaged.
    DamagedBody(u32),
    /// By a FETCH of all messages the size and the subject of the first one, and the UIDs of those
    /// that are damaged.
    Rows(u64, &'static [u8], &'static [u32]),
    /// The cache file that is made of the messages, of this number.
    Made(u32, &'static [u8]),
}

// What is looked up in a folder behind its opening.
struct Case {
    name: &'static str,
    cache: &'static [u8],
    /// The calls that fail, counted from 1.
    fails: &'static [u32],
    looks: &'static [Look],
    /// How many calls the looks make, where these are counted.
    calls: Option<u64>,
}

// The opening reads the log, the rotated log and the snapshot.
const FIRST_LOOK: u32 = 4;

const CASES: &[Case] = &[
    Case {
        name: "kept fields cost no read",
        cache: CACHE,
        fails: &[],
        looks: &[
            Look::Field(1, b"SUBJECT", Some(b"Hi")),
            Look::Field(1, b"Subject", Some(b"Hi")),
        ],
        calls: Some(1),
    },
    Case {
        name: "foreign cache file tells nothing",
        cache: FOREIGN,
        fails: &[],
        looks: &[Look::Field(1, b"Subject", Some(b"Hi"))],
        calls: Some(2),
    },
    Case {
        name: "emptied file is damage",
        cache: CACHE,
        fails: &[],
        looks: &[
            Look::Facts(2, false, &[], Mail::Damaged),
            Look::Facts(3, false, &[], Mail::Gone),
            Look::DamagedBody(2),
        ],
        calls: None,
    },
    Case {
        name: "sizes are counted",
        cache: FOREIGN,
        fails: &[],
        looks: &[Look::Sizes(1, 18, 20)],
        calls: None,
    },
    Case {
        name: "row is read once",
        cache: CACHE,
        fails: &[],
        looks: &[Look::Facts(1, true, &[b"Subject", b"X"], Mail::Held(MESSAGE))],
        calls: Some(1),
    },
    Case {
        name: "failed read is told",
        cache: CACHE,
        fails: &[FIRST_LOOK],
        looks: &[
            Look::Field(1, b"Subject", None),
            Look::Field(1, b"Subject", Some(b"Hi")),
        ],
        calls: None,
    },
    Case {
        name: "only rows that are not in the cache file are read",
        cache: CACHE,
        fails: &[],
        looks: &[Look::Rows(20, b"Hi", &[2])],
        calls: Some(2),
    },
    Case {
        name: "cache file is made of the messages",
        cache: FOREIGN,
        fails: &[],
        looks: &[Look::Made(1, CACHE)],
        calls: Some(3),
    },
    Case {
        name: "only messages that are not in the old cache file are read for the new one",
        cache: CACHE,
        fails: &[],
        looks: &[Look::Made(1, CACHE)],
        calls: Some(2),
    },
    // The file of UID 2 was emptied behind its entry.
    Case {
        name: "no message file is read for a cache file with nothing new",
        cache: FULL,
        fails: &[],
        looks: &[Look::Made(1, FULL)],
        calls: Some(1),
    },
    Case {
        name: "file that was damaged later is noticed where the message is read",
        cache: FULL,
        fails: &[],
        looks: &[Look::Made(1, FULL), Look::DamagedBody(2)],
        calls: Some(2),
    },
];

// A folder of that log, with the cache file, the message as UID 1, and an emptied file as UID 2.
fn folder(alloc: Global, case: &Case) -> Result<MemShelf, NoMemory> {
    let mut files = List::new(alloc);
    for (name, bytes) in [
        (Name::Log, LOG),
        (Name::Cache, case.cache),
        (Name::Mail(1), FILE),
        (Name::Mail(2), b"".as_slice()),
    ] {
        files.push((name, Bytes::from_slice(alloc, bytes)?))?;
    }
    let fails = List::from_slice(alloc, case.fails)?;
    MemShelf::of(alloc, &files, 10_000, fails, None)
}

fn is_value(found: &Result<FieldFound, ShelfFault>, value: Option<&[u8]>) -> bool {
    match (found, value) {
        (Ok(FieldFound::Value(Some(found))), Some(bytes)) => found.as_slice() == bytes,
        (Err(ShelfFault::Failed), None) => true,
        _ => false,
    }
}

// What a FETCH of the sizes and of these fields asks.
fn asked(alloc: Global, body: bool, names: &[&[u8]]) -> Result<Asked, NoMemory> {
    let mut fields = List::new(alloc);
    for name in names {
        fields.push(Bytes::from_slice(alloc, name)?)?;
    }
    Ok(Asked {
        body,
        size: true,
        fields,
    })
}

fn are_facts(found: &Result<FactsFound, ShelfFault>, mail: &Mail) -> bool {
    match (found, mail) {
        (Ok(FactsFound::Known(facts)), Mail::Held(message)) => match &facts.body {
            Some(body) => body.as_slice() == *message,
            None => false,
        },
        (Ok(FactsFound::Damaged), Mail::Damaged) => true,
        (Ok(FactsFound::Gone), Mail::Gone) => true,
        _ => false,
    }
}

// A FETCH of sizes and subjects.
fn fetch(alloc: Global) -> Result<Command, NoMemory> {
    let mut items = List::new(alloc);
    items.push(Item::Size)?;
    items.push(Item::Field(Bytes::from_slice(alloc, b"Subject")?))?;
    let span = Span {
        from: End::Number(1),
        to: End::Star,
    };
    Ok(Command::Fetch {
        by_uid: false,
        set: List::from_slice(alloc, &[span])?,
        items,
    })
}

// Whether this is the one line of a FETCH, of the message of UID 1 with this size and subject.
fn is_line(lines: &List<Reply>, size: u64, subject: &[u8]) -> bool {
    let [
        Reply::Fetch {
            number: 1,
            uid: 1,
            values,
        },
    ] = lines.as_slice()
    else {
        return false;
    };
    match values.as_slice() {
        [Value::Size(found), Value::Field(_, Some(value))] => {
            *found == size && value.as_slice() == subject
        }
        _ => false,
    }
}

// A folder that is opened, with its cache file.
#[derive(Drop)]
struct Opened {
    shelf: MemShelf,
    chain: Chain,
    cache: CacheFile,
}

impl Opened {
    // Whether the rows that a FETCH reads are as it is said.
    fn are_rows(
        &mut self,
        alloc: Global,
        size: u64,
        subject: &[u8],
        damaged: &[u32],
    ) -> Result<bool, NoMemory> {
        let view = View::of(alloc, &self.chain.live)?;
        let fetch = fetch(alloc)?;
        if !is_shallow(&fetch) || !reads_mail(&fetch) {
            return Ok(false);
        }
        let mut lines = List::new(alloc);
        let found = self.cache.read_for(
            alloc,
            &mut self.shelf,
            &self.chain,
            &fetch,
            &view,
            &mut lines,
        );
        Ok(
            is_line(&lines, size, subject)
                && matches!(&found, Ok(uids) if uids.as_slice() == damaged),
        )
    }

    fn is_made(&mut self, alloc: Global, seq: u32, bytes: &[u8]) -> bool {
        if self.chain.live.count() > 8_388_608 {
            return false;
        }
        match cache_of_messages(alloc, &mut self.shelf, &self.chain, seq) {
            Ok(made) => made.as_slice() == bytes,
            Err(_) => false,
        }
    }

    // Whether what is looked up is found so.
    fn is_found(&mut self, alloc: Global, look: &Look) -> Result<bool, NoMemory> {
        let Opened {
            shelf,
            chain,
            cache,
        } = self;
        match look {
            Look::Field(uid, name, value) => {
                Ok(is_value(&cache.field(alloc, shelf, chain, *uid, name), *value))
            }
            Look::Sizes(uid, physical, virtual_size) => {
                let expected = SizesFound::Sizes {
                    physical: *physical,
                    virtual_size: *virtual_size,
                };
                let found = cache.sizes(alloc, shelf, chain, *uid);
                Ok(matches!(found, Ok(sizes) if sizes == expected))
            }
            Look::Facts(uid, body, names, mail) => {
                let asked = asked(alloc, *body, names)?;
                Ok(are_facts(&cache.facts(alloc, shelf, chain, &asked, *uid), mail))
            }
            Look::DamagedBody(uid) => {
                let found = body(alloc, shelf, &chain.live, *uid);
                Ok(matches!(found, Ok(BodyFound::Damaged)))
            }
            Look::Rows(size, subject, damaged) => self.are_rows(alloc, *size, subject, damaged),
            Look::Made(seq, bytes) => Ok(self.is_made(alloc, *seq, bytes)),
        }
    }

    // Whether all is found as the case says.
    fn are_found(&mut self, alloc: Global, case: &Case) -> Result<bool, NoMemory> {
        let before = self.shelf.call_count();
        for look in case.looks {
            if !self.is_found(alloc, look)? {
                return Ok(false);
            }
        }
        match case.calls {
            Some(calls) => Ok(self.shelf.call_count() == before.saturating_add(calls)),
            None => Ok(true),
        }
    }
}

fn is_as_said(alloc: Global, case: &Case) -> Result<bool, NoMemory> {
    let mut shelf = folder(alloc, case)?;
    match open(alloc, &mut shelf) {
        Ok(chain) => Opened {
            shelf,
            chain,
            cache: CacheFile::Unread,
        }
        .are_found(alloc, case),
        // It counts as want of memory, which no case expects.
        Err(_) => Err(NoMemory),
    }
}

#[test]
fn messages_are_looked_up(rt: HostRuntime) {
    for case in CASES {
        let is_so = matches!(is_as_said(rt.alloc(), case), Ok(true));
        assert!(rt; is_so, "{}", case.name);
    }
}
