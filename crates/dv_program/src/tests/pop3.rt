use super::strings;
use crate::top_call::run;
use dv_cli::Ran;
use dv_model::List;
use dv_shelf::{MemClock, MemShelf, MemSink, MemSource, OpenGate};
use std::alloc::Global;
use std::sync::Wait;
use std::test::Fail;
use std::thread::Threads;

/// What a run by this word over a folder in memory writes and leaves, and its status. The clock
/// reads 1000.
fn ran<R: Threads + Wait + Sync>(
    threads: &R,
    alloc: Global,
    shelf: MemShelf,
    word: &str,
    script: &[u8],
) -> Result<(u8, MemSink, MemShelf), Fail> {
    let words = strings(alloc, &[word])?;
    let bytes = List::from_slice(alloc, script)?;
    let mut script = MemSource::new(alloc, bytes, List::new(alloc));
    let mut out = MemSink::new(alloc, 1_000_000, List::new(alloc))?;
    let clock = MemClock::new(alloc, List::from_slice(alloc, &[1000, 1001, 1002])?);
    let Ran {
        status,
        told: _told,
        shelf,
        clock: _clock,
    } = run(
        threads,
        alloc,
        words.as_slice(),
        shelf,
        &mut script,
        &mut out,
        clock,
        &OpenGate,
    );
    Ok((status, out, shelf))
}

const TWO: &[u8] = b"a SELECT\na APPEND () {5}\nhello\na APPEND () {4}\n.a\nb\n";

/// A folder with the mailbox of two messages, whose calls fail by their numbers.
fn two_messages<R: Threads + Wait + Sync>(
    threads: &R,
    alloc: Global,
    fails: &[u32],
) -> Result<MemShelf, Fail> {
    let fails = List::from_slice(alloc, fails)?;
    let shelf = MemShelf::of(alloc, &List::new(alloc), 1_000_000, fails, None)?;
    let (_status, _out, shelf) = ran(threads, alloc, shelf, "run", TWO)?;
    Ok(shelf)
}

const ANSWERS: &str = "+OK\r
+OK\r
1 5\r
2 5\r
.\r
+OK 5\r
..a\r
b\r
.\r
+OK\r
+OK\r
END 0 MARK 1:116 GROUPS 1
";

#[test]
fn quit_removes_the_marked_message(rt: HostRuntime) -> Result<(), Fail> {
    let alloc = rt.alloc();
    let shelf = two_messages(&rt, alloc, &[])?;
    let lines = b"LIST\r\nRETR 2\nDELE 1\nQUIT\nSTAT\n";
    let (status, out, shelf) = ran(&rt, alloc, shelf, "pop3", lines)?;
    assert_eq!(rt; status, 0);
    assert!(rt; out.taken() == ANSWERS.as_bytes());
    let (status, out, _shelf) = ran(&rt, alloc, shelf, "pop3", b"UIDL\r\nRETR 2")?;
    assert_eq!(rt; status, 0);
    let left = "+OK\r\n+OK\r\n1 1000.2\r\n.\r\n-ERR NONE\r\nEND 0 MARK 1:116 GROUPS 0\n";
    assert!(rt; out.taken() == left.as_bytes());
    Ok(())
}

#[test]
fn a_failed_listing_has_no_greeting(rt: HostRuntime) -> Result<(), Fail> {
    let alloc = rt.alloc();
    let Ok(calls) = u32::try_from(two_messages(&rt, alloc, &[])?.call_count()) else {
        return Err(Fail::from("too many calls"));
    };
    // four calls open the mailbox, and two read the messages
    for call in 1..7 {
        let shelf = two_messages(&rt, alloc, &[calls.saturating_add(call)])?;
        let (status, out, _shelf) = ran(&rt, alloc, shelf, "pop3", b"STAT\n")?;
        assert_eq!(rt; status, 2);
        assert!(rt; out.taken() == b"FAULT 2 DISK 1\n".as_slice());
    }
    Ok(())
}
