use crate::folders::{Files, HELLO, INDEX, LOG, add, shelf_of};
use dv_model::List;
use dv_rebuild::{BoxFault, Rebuilt, Remains, Skip, SkipCause, Source, Sources, Validity, rebuild};
use dv_shelf::{MemClock, Name};
use std::alloc::Global;
use std::test::*;

// What is told of a rebuild: what was left, whether there is a cache file, how many message files
// are skipped, how many of them are told, and the last of those.
#[derive(Clone, Copy, PartialEq, Eq, Debug)]
struct Told {
    remains: Remains,
    has_cache: bool,
    skipped: u32,
    count: usize,
    last: Option<Skip>,
}

fn told_of(rebuilt: &Rebuilt) -> Told {
    let skips = rebuilt.report.skips.as_slice();
    Told {
        remains: rebuilt.report.remains,
        has_cache: rebuilt.report.has_cache,
        skipped: rebuilt.skipped,
        count: skips.len(),
        last: skips.last().copied(),
    }
}

// What is told of a rebuild of these files at the time 2000.
fn tell(alloc: Global, files: &Files) -> Result<Told, Fail> {
    let mut shelf = shelf_of(alloc, files)?;
    let mut clock = MemClock::new(alloc, List::from_slice(alloc, &[2000])?);
    match rebuild(alloc, &mut shelf, &mut clock) {
        Ok(rebuilt) => Ok(told_of(&rebuilt)),
        Err(_) => Err("not rebuilt".into()),
    }
}

fn files_of(alloc: Global, case: &[(Name, &[u8])]) -> Result<Files, Fail> {
    let mut files = List::new(alloc);
    for (name, bytes) in case {
        add(alloc, &mut files, *name, bytes)?;
    }
    Ok(files)
}

fn sources_of(log: Source, rotated: Source, index: Source) -> Sources {
    Sources {
        log,
        rotated,
        index,
    }
}

fn remains_of(sources: Sources, unknown: u32, validity: Validity) -> Remains {
    Remains {
        sources,
        is_cut: false,
        unknown,
        validity,
    }
}

// The log has rows of UIDs 1 to 3. The message of UID 2 is empty, that of UID 3 is cut behind its
// header, that of UID 5 isn't known, and 0 is no UID.
const DAMAGED: &[(Name, &[u8])] = &[
    (Name::Log, LOG),
    (Name::Log2, LOG),
    (Name::Index, INDEX),
    (Name::Cache, b"not looked at"),
    (Name::Mail(5), HELLO),
    (Name::Mail(3), b"2 M1e C3e9\n"),
    (Name::Mail(2), b""),
    (Name::Mail(1), HELLO),
    (Name::Mail(0), HELLO),
];

// Files of another server, which aren't read.
const FOREIGN: &[(Name, &[u8])] = &[
    (Name::Log, b"not a log"),
    (Name::Index, &[7, 3, 240, 0, 80, 1, 20, 0]),
    (Name::Mail(7), HELLO),
    (Name::Mail(9), HELLO),
];

fn damaged_is_told(alloc: Global) -> Result<bool, Fail> {
    let from = sources_of(Source::Taken, Source::Apart, Source::Taken);
    let last = Skip {
        number: 3,
        cause: SkipCause::Broken(BoxFault::BadMessageHeader),
    };
    Ok(
        tell(alloc, &files_of(alloc, DAMAGED)?)?
            == Told {
                remains: remains_of(from, 1, Validity::Kept(1000)),
                has_cache: true,
                skipped: 3,
                count: 3,
                last: Some(last),
            },
    )
}

fn foreign_is_told(alloc: Global) -> Result<bool, Fail> {
    let from = sources_of(Source::Broken, Source::Missing, Source::Broken);
    Ok(
        tell(alloc, &files_of(alloc, FOREIGN)?)?
            == Told {
                remains: remains_of(from, 2, Validity::New(2000)),
                has_cache: false,
                skipped: 0,
                count: 0,
                last: None,
            },
    )
}

// 101 message files without bytes, and no other file.
fn empty_is_told(alloc: Global) -> Result<bool, Fail> {
    let mut files = List::new(alloc);
    for n in 1..=101 {
        add(alloc, &mut files, Name::Mail(n), b"")?;
    }
    let from = sources_of(Source::Missing, Source::Missing, Source::Missing);
    let last = Skip {
        number: 100,
        cause: SkipCause::Broken(BoxFault::BadHeader),
    };
    Ok(
        tell(alloc, &files)?
            == Told {
                remains: remains_of(from, 0, Validity::New(2000)),
                has_cache: false,
                skipped: 101,
                count: 100,
                last: Some(last),
            },
    )
}

#[test]
fn rebuild_is_told(rt: HostRuntime) -> Result<(), Fail> {
    assert!(rt; damaged_is_told(rt.alloc())?);
    assert!(rt; foreign_is_told(rt.alloc())?);
    assert!(rt; empty_is_told(rt.alloc())?);
    Ok(())
}
