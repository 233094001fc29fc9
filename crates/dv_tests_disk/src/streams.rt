use crate::cases::{Case, all_hold};
use dv_model::{List, NoMemory};
use dv_shelf::{Clock, Sink, Source};
use dv_streams::{CutClock, Event, MemInput, MemOutput, MemTime, ReadStream, WriteStream};
use std::alloc::Global;
use std::test::Fail;

// What the next read of four bytes gives, where it doesn't fail, and the failures counted then.
type Read = (Option<&'static [u8]>, u64);

// What is written, whether that answers Ok, and the bytes taken and failures counted then.
type Written = (&'static [u8], bool, &'static [u8], u64);

// What becomes of the calls below a stream, and what is read and written; or what a clock shows of
// these seconds.
enum Played {
    Input(&'static [Event], &'static [u8], &'static [Read]),
    Output(&'static [Event], &'static [Written]),
    Clock(Option<u64>, u32),
}

fn reads(script: &mut ReadStream<MemInput>, expected: Option<&[u8]>) -> bool {
    let mut buf = [0u8; 4];
    match (script.read(&mut buf), expected) {
        (Ok(count), Some(expected)) => count == expected.len() && buf.starts_with(expected),
        (Err(_), None) => true,
        _ => false,
    }
}

fn are_read(script: &mut ReadStream<MemInput>, steps: &[Read]) -> bool {
    for (expected, faults) in steps {
        if !reads(script, *expected) || script.faults() != *faults {
            return false;
        }
    }
    true
}

fn input_holds(
    alloc: Global,
    events: &[Event],
    bytes: &[u8],
    steps: &[Read],
) -> Result<bool, NoMemory> {
    let bytes = List::from_slice(alloc, bytes)?;
    let events = List::from_slice(alloc, events)?;
    let mut script = ReadStream::new(MemInput::new(alloc, bytes, events));
    Ok(are_read(&mut script, steps))
}

fn stands(output: &WriteStream<MemOutput>, taken: &[u8], faults: u64) -> bool {
    output.calls().taken() == taken && output.faults() == faults
}

fn are_written(output: &mut WriteStream<MemOutput>, steps: &[Written]) -> bool {
    for (bytes, is_ok, taken, faults) in steps {
        if output.write_all(bytes).is_ok() != *is_ok || !stands(output, taken, *faults) {
            return false;
        }
    }
    true
}

fn output_holds(alloc: Global, events: &[Event], steps: &[Written]) -> Result<bool, NoMemory> {
    let events = List::from_slice(alloc, events)?;
    let mut output = WriteStream::new(MemOutput::new(alloc, events));
    Ok(are_written(&mut output, steps))
}

// Whether a clock shows this, twice.
fn shows(seconds: Option<u64>, shown: u32) -> bool {
    let mut clock = CutClock::new(MemTime::new(seconds));
    clock.now() == shown && clock.now() == shown
}

impl Case for Played {
    fn holds(&self, alloc: Global) -> Result<bool, NoMemory> {
        match self {
            Played::Input(events, bytes, steps) => input_holds(alloc, events, bytes, steps),
            Played::Output(events, steps) => output_holds(alloc, events, steps),
            Played::Clock(seconds, shown) => Ok(shows(*seconds, *shown)),
        }
    }
}

const CASES: [(&str, Played); 8] = [
    (
        "a read goes on behind an interruption and an error",
        Played::Input(
            &[
                Event::Takes(2),
                Event::Interrupted,
                Event::Takes(1),
                Event::Failed,
                Event::Interrupted,
                Event::Interrupted,
                Event::Takes(0),
            ],
            b"abcdefghi",
            &[
                (Some(b"ab"), 0),
                (Some(b"c"), 0),
                (None, 1),
                (Some(b"d"), 1),
                (Some(b"efgh"), 1),
                (Some(b"i"), 1),
                (Some(b""), 1),
            ],
        ),
    ),
    (
        "a write goes on behind a part and an interruption",
        Played::Output(
            &[
                Event::Interrupted,
                Event::Takes(2),
                Event::Interrupted,
                Event::Takes(0),
            ],
            &[
                (b"abcdef", true, b"abcdef", 0),
                (b"", true, b"abcdef", 0),
                (b"gh", true, b"abcdefgh", 0),
            ],
        ),
    ),
    (
        "a write that fails has taken a front",
        Played::Output(
            &[Event::Takes(2), Event::Takes(1), Event::Failed],
            &[(b"abcdef", false, b"abc", 1), (b"xy", true, b"abcxy", 1)],
        ),
    ),
    // A late clock stands at the last second of 32 bits.
    ("no time", Played::Clock(None, 0)),
    ("a time", Played::Clock(Some(7), 7)),
    (
        "the last second",
        Played::Clock(Some(4_294_967_295), 4_294_967_295),
    ),
    (
        "the second behind it",
        Played::Clock(Some(4_294_967_296), 4_294_967_295),
    ),
    (
        "the latest time",
        Played::Clock(Some(u64::MAX), 4_294_967_295),
    ),
];

#[test]
fn streams_and_clocks_are_as_their_calls(rt: HostRuntime) -> Result<(), Fail> {
    all_hold(rt.alloc(), &CASES)
}
