//! The longest message and the longest script, and longer ones.

use crate::runs::{Left, RUN, Run, is_as_said, play_in};
use dv_model::{Bytes, List, NoMemory};
use dv_shelf::MemShelf;
use std::alloc::Global;
use std::process::Abort;

// A script with many equal bytes between two parts, over a new folder with room for all of them.
struct Limit {
    name: &'static str,
    before: &'static [u8],
    byte: u8,
    count: usize,
    behind: &'static [u8],
    asked: Run,
    /// How many calls the folder had, where these are counted.
    calls: Option<u64>,
}

const MESSAGES: &[Limit] = &[
    Limit {
        name: "a message of 32 MiB",
        before: b"a SELECT\na APPEND () {33554432}\n",
        byte: b'x',
        count: 33_554_432,
        behind: b"\n",
        asked: Run {
            text: &[
                "",
                "a OK [APPENDUID 1000 1] [MARK 1:72] APPEND\nEND 0 MARK 1:72 GROUPS 1\n",
            ],
            ..RUN
        },
        calls: None,
    },
    Limit {
        name: "a longer message",
        before: b"a SELECT\na APPEND () {33554433}\n",
        byte: b'x',
        count: 33_554_433,
        behind: b"\n",
        asked: Run {
            text: &[
                "",
                "a NO [LIMIT] BYTES 33554433\nEND 0 MARK 1:56 GROUPS 0\n",
            ],
            ..RUN
        },
        calls: None,
    },
];

const SCRIPTS: &[Limit] = &[
    Limit {
        name: "a script of 64 MiB",
        before: b"",
        byte: b'\n',
        count: 67_108_864,
        behind: b"",
        asked: Run {
            text: &["END 0 MARK 1:56 GROUPS 0\n"],
            ..RUN
        },
        calls: None,
    },
    Limit {
        name: "a longer script",
        before: b"",
        byte: b'\n',
        count: 67_108_865,
        behind: b"",
        asked: Run {
            status: 5,
            text: &["FAULT 5 TOO LONG\n"],
            ..RUN
        },
        calls: Some(0),
    },
];

fn script_of(alloc: Global, limit: &Limit) -> Result<Bytes, NoMemory> {
    let mut script = Bytes::from_slice(alloc, limit.before)?;
    let bytes = vec![in alloc; limit.byte; limit.count]?;
    script.extend(bytes.as_slice())?;
    script.extend(limit.behind)?;
    Ok(script)
}

fn play(alloc: Global, limit: &Limit) -> Result<Left<MemShelf>, NoMemory> {
    let script = script_of(alloc, limit)?;
    let shelf = MemShelf::new(alloc, 40_000_000, List::new(alloc), None)?;
    play_in(alloc, shelf, script.as_slice(), &limit.asked)
}

fn is_kept(alloc: Global, limit: &Limit) -> Result<bool, NoMemory> {
    let left = play(alloc, limit)?;
    let is_counted = limit.calls == None || limit.calls == Some(left.shelf.call_count());
    Ok(is_counted && is_as_said(alloc, &left, &limit.asked)?)
}

fn play_limits(rt: &impl Abort, alloc: Global, limits: &[Limit]) {
    for limit in limits {
        let is_so = matches!(is_kept(alloc, limit), Ok(true));
        assert!(rt; is_so, "{}", limit.name);
    }
}

#[test]
fn a_message_has_32_mib_at_most(rt: HostRuntime) {
    play_limits(&rt, rt.alloc(), MESSAGES);
}

#[test]
fn a_script_has_64_mib_at_most(rt: HostRuntime) {
    play_limits(&rt, rt.alloc(), SCRIPTS);
}
