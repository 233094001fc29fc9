use crate::{Part, part_lines};
use dv_model::{Bytes, List, NoMemory};
use dv_script::{Line, ScriptEnd, open_script, print_script};
use std::alloc::Global;
use std::test::*;

// The lines of the parts, one part after another, as a script.
fn text_of_parts(alloc: Global, parts: List<Part>) -> Result<Bytes, NoMemory> {
    let mut lines = List::new(alloc);
    for part in parts.into_vec() {
        let Part { name, commands } = part;
        for command in commands.into_vec() {
            let session = List::from_slice(alloc, name.as_slice())?;
            lines.push(Line { session, command })?;
        }
    }
    print_script(alloc, &lines)
}

// How many parts a script has, and whether they have this text.
fn parts_of(alloc: Global, script: &[u8], wanted: &[u8]) -> Result<(usize, bool), ScriptEnd> {
    let mut script = open_script(alloc, script)?;
    let parts = part_lines(alloc, &mut script.lines)?;
    let count = parts.len();
    let text = text_of_parts(alloc, parts)?;
    Ok((count, text.as_slice() == wanted))
}

// Scripts, and their lines session by session.
const CASES: [(&[u8], usize, &[u8]); 3] = [
    (b"# none\n\n", 0, b""),
    (b"a SELECT\na NOOP\n", 1, b"a SELECT\na NOOP\n"),
    (
        b"b SELECT\na SELECT\nc NOOP\na CHECK\nb NOOP\na NOOP\nc SELECT\nb EXPUNGE\n",
        3,
        b"b SELECT\nb NOOP\nb EXPUNGE\na SELECT\na CHECK\na NOOP\nc NOOP\nc SELECT\n",
    ),
];

#[test]
fn lines_go_to_their_sessions(rt: HostRuntime) {
    for (script, count, wanted) in CASES {
        assert_eq!(rt; parts_of(rt.alloc(), script, wanted), Ok((count, true)));
    }
}

// The line of this command by the session of this number.
fn put_line(text: &mut Bytes, number: u8, command: &[u8]) -> Result<(), NoMemory> {
    text.push(b'a' + number % 8)?;
    text.push(b'0' + number / 8)?;
    text.extend(command)?;
    Ok(())
}

// Two lines of each of 64 sessions: in two rounds, or session by session.
fn two_lines_each(alloc: Global, rounds: bool) -> Result<Bytes, NoMemory> {
    let mut text = List::new(alloc);
    for at in 0..128u8 {
        let (number, second) = if rounds {
            (at % 64, at >= 64)
        } else {
            (at / 2, at % 2 == 1)
        };
        let command: &[u8] = if second { b" NOOP\n" } else { b" SELECT\n" };
        put_line(&mut text, number, command)?;
    }
    Ok(text)
}

fn parts_of_many(alloc: Global) -> Result<(usize, bool), ScriptEnd> {
    let script = two_lines_each(alloc, true)?;
    let wanted = two_lines_each(alloc, false)?;
    parts_of(alloc, script.as_slice(), wanted.as_slice())
}

#[test]
fn sixty_four_sessions_have_a_part_each(rt: HostRuntime) {
    assert_eq!(rt; parts_of_many(rt.alloc()), Ok((64, true)));
}
