//! A session that sleeps while another writes so much that the log is rotated.

use crate::gates::{Meeting, MeetingGate};
use crate::runs::{given, play};
use dv_model::{Bytes, List};
use dv_shelf::MemShelf;
use std::alloc::Global;
use std::test::Fail;

// The sleeper selects the mailbox behind 164 appends and before the first STORE, and asks again
// behind the last.
const MEETINGS: &[Meeting] = &[((2, 1), (1, 166)), ((1, 166), (2, 2)), ((2, 2), (1, 297))];

// 164 appends, 131 times the STORE of every second message, and what the sleeper asks. Before the
// last STORE the log has 131,640 bytes, and its group takes 992 more.
fn script(alloc: Global) -> Result<Bytes, Fail> {
    let mut text = Bytes::from_slice(alloc, b"a SELECT\n")?;
    for _ in 0..164 {
        text.extend(b"a APPEND () {1}\nx\n")?;
    }
    let mut line = Bytes::from_slice(alloc, b"a STORE 1")?;
    for k in 1..82u32 {
        line.extend(format!(in alloc; ",{}", 2 * k + 1)?.as_bytes())?;
    }
    line.extend(b" +FLAGS (\\Seen)\n")?;
    for _ in 0..131 {
        text.extend(line.as_slice())?;
    }
    text.extend(b"b SELECT\nb NOOP\na NOOP\n")?;
    Ok(text)
}

// The end of the output, from the end of the sleeper's SELECT on.
fn wanted(alloc: Global) -> Result<Bytes, Fail> {
    let mut text = Bytes::from_slice(alloc, b"b OK [MARK 1:2680] SELECT\n")?;
    for k in 0..82u32 {
        let n = 2 * k + 1;
        let line = format!(in alloc; "b * {n} FETCH (UID {n} FLAGS (\\Seen))\n")?;
        text.extend(line.as_bytes())?;
    }
    text.extend(b"b OK [MARK 2:1032] NOOP\nEND 0 MARK 2:1032 GROUPS 295\n")?;
    Ok(text)
}

#[test]
fn a_sleeper_hears_once_of_what_changed(rt: HostRuntime) -> Result<(), Fail> {
    let alloc = rt.alloc();
    let gate = MeetingGate::new(MEETINGS, 1_000_000_000);
    let shelf = MemShelf::new(alloc, 100_000_000, List::new(alloc), None)?;
    let left = play(&rt, alloc, shelf, &gate, given(script(alloc)?.as_slice()))?;
    if !gate.all_met() || gate.called() != (297, 2) {
        return Err(Fail::from("a wait gave up"));
    }
    let wanted = wanted(alloc)?;
    if left.status != 0 || !left.output.as_slice().ends_with(wanted.as_slice()) {
        return Err(Fail::from("another end"));
    }
    Ok(())
}
