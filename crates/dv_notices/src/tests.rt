use crate::{Told, told_line, told_text};
use dv_dbox::BoxFault;
use dv_model::{Bytes, List};
use dv_rebuild::{Rebuilt, Remains, Report, Skip, SkipCause, Source, Sources, Validity};
use std::alloc::Global;
use std::test::*;

// What a rebuild found.
#[derive(Clone, Copy)]
struct Found<'a> {
    remains: Remains,
    skipped: u32,
    skips: &'a [Skip],
    has_cache: bool,
}

// A folder in which much is damaged.
const DAMAGED: Found = Found {
    remains: Remains {
        sources: Sources {
            log: Source::Taken,
            rotated: Source::Broken,
            index: Source::Apart,
        },
        is_cut: true,
        unknown: 3,
        validity: Validity::New(1_795_883_681),
    },
    skipped: 10,
    skips: &[
        Skip {
            number: 0,
            cause: SkipCause::NoUid,
        },
        Skip {
            number: 3,
            cause: SkipCause::Gone,
        },
        Skip {
            number: 5,
            cause: SkipCause::Broken(BoxFault::BadHeader),
        },
        Skip {
            number: 7,
            cause: SkipCause::Broken(BoxFault::BadMessageHeader),
        },
        Skip {
            number: 8,
            cause: SkipCause::Broken(BoxFault::BadSize),
        },
        Skip {
            number: 9,
            cause: SkipCause::Broken(BoxFault::BadEnd),
        },
        Skip {
            number: 12,
            cause: SkipCause::Broken(BoxFault::BadMetadata),
        },
    ],
    has_cache: true,
};

const DAMAGED_TEXT: &[u8] = b"dovecot.index.log: flags and keywords come from it
dovecot.index.log.2: not readable
dovecot.index: does not belong to dovecot.index.log
an append in the log is refused: no record from there on counts
messages in none of these files, kept without flags: 3
UIDVALIDITY 1795883681: new, so clients load the mailbox anew
u.0 skipped: its number may be no UID
u.3 skipped: it was listed and then gone
u.5 skipped: its first line is damaged
u.7 skipped: its message header is damaged
u.8 skipped: it ends before its message does
u.9 skipped: the mark behind its message is damaged
u.12 skipped: its metadata are damaged
more skipped files: 3
skipped files stay until the next CHECK, which removes those below UIDNEXT
dovecot.index.cache: neither read nor changed
";

// A folder whose log doesn't go on from its snapshot.
const APART: Found = Found {
    remains: Remains {
        sources: Sources {
            log: Source::Unused,
            rotated: Source::Missing,
            index: Source::Taken,
        },
        is_cut: false,
        unknown: 0,
        validity: Validity::Kept(5),
    },
    skipped: 0,
    skips: &[],
    has_cache: false,
};

const APART_TEXT: &[u8] = b"dovecot.index.log: readable, but not used
dovecot.index.log.2: there is none
dovecot.index: flags and keywords come from it
messages in none of these files, kept without flags: 0
UIDVALIDITY 5: kept
";

// The text that tells what a rebuild found.
fn text_of(alloc: Global, found: Found) -> Result<Bytes, Fail> {
    let report = Report {
        remains: found.remains,
        skips: List::from_slice(alloc, found.skips)?,
        has_cache: found.has_cache,
    };
    let rebuilt = Rebuilt {
        kept: 4,
        skipped: found.skipped,
        indexid: 9,
        report,
    };
    Ok(told_text(alloc, &Told::Rebuilt(rebuilt))?)
}

#[test]
fn rebuild_is_told_in_plain_words(rt: HostRuntime) -> Result<(), Fail> {
    for (found, text) in [(DAMAGED, DAMAGED_TEXT), (APART, APART_TEXT)] {
        assert!(rt; text_of(rt.alloc(), found)?.as_slice() == text);
    }
    Ok(())
}

const SCRIPT: &[u8] = b"a SELECT\nb F\xc3\xa9TCH \x1b~\n\nlast";

// The text that tells the script's bad line of this number.
fn bad_text_of(alloc: Global, number: u32) -> Result<Bytes, Fail> {
    let line = told_line(alloc, SCRIPT, number.max(1))?;
    Ok(told_text(alloc, &Told::BadLine(line))?)
}

#[test]
fn bad_line_is_told_in_printable_bytes(rt: HostRuntime) -> Result<(), Fail> {
    for (number, text) in [
        (1, b"bad line: a SELECT\n".as_slice()),
        (2, b"bad line: b F??TCH ?~\n".as_slice()),
        (3, b"bad line: \n".as_slice()),
        (4, b"bad line: last\n".as_slice()),
        (5, b"bad line: \n".as_slice()),
    ] {
        assert!(rt; bad_text_of(rt.alloc(), number)?.as_slice() == text);
    }
    Ok(())
}
