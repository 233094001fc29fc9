//! Many sessions, and sessions that all write.

use crate::runs::{Left, count_of, ended, given, play, shelf_of};
use dv_model::{Bytes, List};
use dv_shelf::OpenGate;
use std::alloc::Global;
use std::sync::Wait;
use std::test::Fail;
use std::thread::Threads;

// A run of a script over a new folder.
fn run_of<R: Threads + Wait + Sync>(rt: &R, alloc: Global, script: &[u8]) -> Result<Left, Fail> {
    let shelf = shelf_of(alloc, &List::new(alloc), &[])?;
    play(rt, alloc, shelf, &OpenGate, given(script))
}

// So many sessions each select the mailbox.
fn selects(alloc: Global, count: u32) -> Result<Bytes, Fail> {
    let mut script = Bytes::new(alloc);
    for number in 1..=count {
        script.extend(format!(in alloc; "s{number} SELECT\n")?.as_bytes())?;
    }
    Ok(script)
}

#[test]
fn sixty_four_sessions_are_answered_in_their_order(rt: HostRuntime) -> Result<(), Fail> {
    let alloc = rt.alloc();
    let mut output = Bytes::new(alloc);
    for n in 1..=64u32 {
        let front = format!(in alloc; "s{n} * 0 EXISTS\ns{n} * OK [UIDVALIDITY 1000]\n")?;
        let end = format!(in alloc; "s{n} * OK [UIDNEXT 1]\ns{n} OK [MARK 1:56] SELECT\n")?;
        output.extend(front.as_bytes())?;
        output.extend(end.as_bytes())?;
    }
    output.extend(b"END 0 MARK 1:56 GROUPS 0\n")?;
    let left = run_of(&rt, alloc, selects(alloc, 64)?.as_slice())?;
    ended(&left, 0, output.as_slice())
}

#[test]
fn a_script_of_more_sessions_is_refused(rt: HostRuntime) -> Result<(), Fail> {
    let alloc = rt.alloc();
    let left = run_of(&rt, alloc, selects(alloc, 65)?.as_slice())?;
    ended(&left, 5, b"FAULT 5 LINE 65\n")
}

/// So many sessions, which each append so many messages; how their run ends, and how another
/// begins that selects the mailbox.
#[derive(Clone, Copy)]
struct Crowd {
    sessions: u8,
    each: u8,
    end: &'static str,
    exist: &'static str,
}

const CROWDS: &[Crowd] = &[
    Crowd {
        sessions: 2,
        each: 20,
        end: "END 0 MARK 1:696 GROUPS 40\n",
        exist: "c * 40 EXISTS\n",
    },
    Crowd {
        sessions: 16,
        each: 2,
        end: "END 0 MARK 1:568 GROUPS 32\n",
        exist: "c * 32 EXISTS\n",
    },
];

// The text of a session's message, which tells it from all others.
fn body(alloc: Global, session: u32, number: u32) -> Result<String, Fail> {
    Ok(format!(in alloc; "s{session}m{number}")?)
}

// Each session appends its message of this number.
fn append_all(alloc: Global, script: &mut Bytes, sessions: u8, number: u32) -> Result<(), Fail> {
    for session in 1..=u32::from(sessions) {
        let text = body(alloc, session, number)?;
        let size = text.len();
        let line = format!(in alloc; "s{session} APPEND () {{{size}}}\n{text}\n")?;
        script.extend(line.as_bytes())?;
    }
    Ok(())
}

// Each session selects the mailbox and appends its messages.
fn appends(alloc: Global, crowd: Crowd) -> Result<Bytes, Fail> {
    let mut script = selects(alloc, u32::from(crowd.sessions))?;
    for number in 1..=u32::from(crowd.each) {
        append_all(alloc, &mut script, crowd.sessions, number)?;
    }
    Ok(script)
}

// Whether the message of this number of each session is told with its text once.
fn tells_all(alloc: Global, output: &[u8], sessions: u8, number: u32) -> Result<bool, Fail> {
    for session in 1..=u32::from(sessions) {
        let text = body(alloc, session, number)?;
        let size = text.len();
        let told = format!(in alloc; "BODY[] {{{size}}}\n{text})\n")?;
        if count_of(output, told.as_bytes()) != 1 {
            return Ok(false);
        }
    }
    Ok(true)
}

// Whether each message is told with its text once.
fn has_all_texts(alloc: Global, output: &[u8], crowd: Crowd) -> Result<bool, Fail> {
    for number in 1..=u32::from(crowd.each) {
        if !tells_all(alloc, output, crowd.sessions, number)? {
            return Ok(false);
        }
    }
    Ok(true)
}

// Whether each UID was given by one APPEND.
fn has_all_uids(alloc: Global, output: &[u8], crowd: Crowd) -> Result<bool, Fail> {
    for uid in 1..=u32::from(crowd.sessions) * u32::from(crowd.each) {
        let told = format!(in alloc; "OK [APPENDUID 1000 {uid}] ")?;
        if count_of(output, told.as_bytes()) != 1 {
            return Ok(false);
        }
    }
    Ok(true)
}

// Fails unless each write was answered once, and is in the folder that is left.
fn check<R: Threads + Wait + Sync>(rt: &R, alloc: Global, crowd: Crowd) -> Result<(), Fail> {
    let left = run_of(rt, alloc, appends(alloc, crowd)?.as_slice())?;
    let output = left.output.as_slice();
    if left.status != 0 || !output.ends_with(crowd.end.as_bytes()) {
        return Err(Fail::from("another end"));
    }
    if !has_all_uids(alloc, output, crowd)? {
        return Err(Fail::from("a UID was given not once"));
    }
    let look = given(b"c SELECT\nc FETCH 1:* (BODY[])\n");
    let again = play(rt, alloc, left.shelf, &OpenGate, look)?;
    let output = again.output.as_slice();
    if again.status != 0 || !output.starts_with(crowd.exist.as_bytes()) {
        return Err(Fail::from("other messages"));
    }
    if !has_all_texts(alloc, output, crowd)? {
        return Err(Fail::from("a text isn't there once"));
    }
    Ok(())
}

#[test]
fn all_that_sessions_wrote_is_in_the_folder(rt: HostRuntime) -> Result<(), Fail> {
    for crowd in CROWDS {
        check(&rt, rt.alloc(), *crowd)?;
    }
    Ok(())
}
