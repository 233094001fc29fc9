use super::{count_of, strings};
use crate::top_call::run;
use dv_cli::Ran;
use dv_model::List;
use dv_shelf::{MemClock, MemShelf, MemSink, MemSource, OpenGate};
use std::alloc::Global;
use std::sync::Wait;
use std::test::Fail;
use std::thread::Threads;

/// Which calls fail.
#[derive(Clone, Copy)]
struct Fails<'a> {
    disk: &'a [u32],
    sink: &'a [u32],
}

const NONE: Fails<'static> = Fails {
    disk: &[],
    sink: &[],
};

/// What a run in threads over a new folder in memory writes, and its status. The clock reads 1000.
fn served<R: Threads + Wait + Sync>(
    threads: &R,
    alloc: Global,
    fails: Fails,
    script: &[u8],
) -> Result<(u8, MemSink), Fail> {
    let words = strings(alloc, &["run", "--threads"])?;
    let disk = List::from_slice(alloc, fails.disk)?;
    let shelf = MemShelf::of(alloc, &List::new(alloc), 1_000_000, disk, None)?;
    let bytes = List::from_slice(alloc, script)?;
    let mut script = MemSource::new(alloc, bytes, List::new(alloc));
    let mut out = MemSink::new(alloc, 1_000_000, List::from_slice(alloc, fails.sink)?)?;
    let clock = MemClock::new(alloc, List::from_slice(alloc, &[1000, 1001])?);
    let Ran {
        status,
        told: _told,
        shelf: _shelf,
        clock: _clock,
    } = run(
        threads,
        alloc,
        words.as_slice(),
        shelf,
        &mut script,
        &mut out,
        clock,
        &OpenGate,
    );
    Ok((status, out))
}

const ONE: &[u8] = b"a SELECT\na APPEND () {5}\nhello\na STORE 1 +FLAGS (\\Seen)\n";

const ONE_TEXT: &str = "a * 0 EXISTS
a * OK [UIDVALIDITY 1000]
a * OK [UIDNEXT 1]
a OK [MARK 1:56] SELECT
a * 1 EXISTS
a * 1 FETCH (UID 1 FLAGS ())
a OK [APPENDUID 1000 1] [MARK 1:72] APPEND
a * 1 FETCH (UID 1 FLAGS (\\Seen))
a OK [MARK 1:92] STORE
END 0 MARK 1:92 GROUPS 2
";

#[test]
fn one_session_is_answered_as_by_run(rt: HostRuntime) -> Result<(), Fail> {
    let (status, out) = served(&rt, rt.alloc(), NONE, ONE)?;
    assert_eq!(rt; status, 0);
    assert!(rt; out.taken() == ONE_TEXT.as_bytes());
    Ok(())
}

const TWO: &[u8] = b"b SELECT\na SELECT\nb APPEND () {1}\nx\na APPEND () {1}\ny\na NOOP\nb NOOP\n";

#[test]
fn two_sessions_write_one_log(rt: HostRuntime) -> Result<(), Fail> {
    let (status, out) = served(&rt, rt.alloc(), NONE, TWO)?;
    assert_eq!(rt; status, 0);
    let text = out.taken();
    // the session that the first line names comes first
    assert!(rt; text.starts_with(b"b * "));
    assert!(rt; text.ends_with(b" NOOP\nEND 0 MARK 1:88 GROUPS 2\n"));
    assert_eq!(rt; count_of(text, b"\na OK"), 3);
    assert_eq!(rt; count_of(text, b"\nb OK"), 3);
    assert_eq!(rt;
        count_of(text, b"OK [APPENDUID 1000 1] [MARK 1:72] APPEND\n"),
        1
    );
    assert_eq!(rt;
        count_of(text, b"OK [APPENDUID 1000 2] [MARK 1:88] APPEND\n"),
        1
    );
    Ok(())
}

#[test]
fn a_bad_script_is_refused(rt: HostRuntime) -> Result<(), Fail> {
    let (status, out) = served(&rt, rt.alloc(), NONE, b"a SELECT\na LOOK\n")?;
    assert_eq!(rt; status, 5);
    assert!(rt; out.taken() == b"FAULT 5 LINE 2\n".as_slice());
    Ok(())
}

#[test]
fn a_failed_disk_is_told(rt: HostRuntime) -> Result<(), Fail> {
    let fails = Fails { disk: &[1], ..NONE };
    let (status, out) = served(&rt, rt.alloc(), fails, ONE)?;
    assert_eq!(rt; status, 2);
    assert!(rt; out.taken() == b"FAULT 2 DISK 1\n".as_slice());
    Ok(())
}

#[test]
fn a_failed_output_has_no_last_line(rt: HostRuntime) -> Result<(), Fail> {
    let fails = Fails { sink: &[1], ..NONE };
    let (status, out) = served(&rt, rt.alloc(), fails, ONE)?;
    assert_eq!(rt; status, 7);
    assert_eq!(rt; count_of(out.taken(), b"END"), 0);
    Ok(())
}
