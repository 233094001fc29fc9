use crate::plays::played;
use dv_feed::Taken;
use dv_member::Met;
use dv_model::Bytes;
use dv_tests_keeper::Ask;
use dv_tests_keeper::Ask::{Gather, Line, Meet, Refresh, Rejoin};
use std::alloc::Global;
use std::test::Fail;

// The first session writes entries, and the second sees them in one generation.
const ONE: [Ask; 11] = [
    Line(b"a SELECT\n"),
    Meet(0, 1, Met::Equal),
    Line(b"a APPEND () {1}\nx\n"),
    Line(b"a APPEND () {1}\ny\n"),
    Line(b"b SELECT\n"),
    Meet(1, 0, Met::Equal),
    Line(b"a APPEND () {1}\nz\n"),
    Meet(1, 0, Met::FirstShorter),
    Meet(0, 1, Met::SecondShorter),
    Refresh(1, Taken::Fresh),
    Meet(1, 0, Met::Equal),
];

// A generation is sealed by then, and the second session goes on in the next.
const OTHER: [Ask; 7] = [
    Refresh(1, Taken::Rotated),
    Meet(1, 0, Met::Apart),
    Rejoin(1),
    Meet(1, 0, Met::Equal),
    Line(b"b APPEND () {1}\nx\n"),
    Gather(0, 1),
    Meet(0, 1, Met::Equal),
];

// A STORE of 240 keywords of 255 bytes each that begin with this letter. Two of them are longer
// than a generation.
fn keywords(alloc: Global, letter: u8) -> Result<Bytes, Fail> {
    let mut line = Bytes::from_slice(alloc, b"a STORE 1 +FLAGS (")?;
    for k in 100..340u32 {
        line.push(letter)?;
        line.extend(format!(in alloc; "{k:0>254} ")?.as_bytes())?;
    }
    line.extend(b"last)\n")?;
    Ok(line)
}

// What is asked, with both STOREs between.
fn asks<'a>(alloc: Global, first: &'a [u8], second: &'a [u8]) -> Result<Vec<Ask<'a>>, Fail> {
    let mut asks = Vec::new(alloc);
    asks.extend_from_slice(&ONE)?;
    asks.push(Line(first))?;
    asks.push(Line(second))?;
    asks.extend_from_slice(&OTHER)?;
    Ok(asks)
}

#[test]
fn sessions_compare_what_they_have_seen(rt: HostRuntime) -> Result<(), Fail> {
    let alloc = rt.alloc();
    let first = keywords(alloc, b'k')?;
    let second = keywords(alloc, b'l')?;
    let asks = asks(alloc, first.as_slice(), second.as_slice())?;
    assert_eq!(rt; played(&rt, alloc, 2, &asks)?.entries, 6);
    Ok(())
}
