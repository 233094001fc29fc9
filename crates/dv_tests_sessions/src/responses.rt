ghost use Rattle.dv_responses.specs.Depth.{IsShallow};

use crate::cases::{Case, all_hold};
use crate::mailboxes::{command_of, live_of};
use dv_apply::Live;
use dv_model::{Bytes, Command, List, Mark, NoMemory, Reply};
use dv_responses::{
    add_data_lines, add_select_lines, asked_by, damaged_among, ending, facts_from, gone_uid,
    is_shallow, meet, uids_looked_at,
};
use dv_script::replies_text;
use dv_search::{Mail, MailFacts};
use dv_view::View;
use std::alloc::Global;
use std::test::Fail;

const APPEND_1: &[u8] = b"\x80\x80\x80\x84\x02\0\0\x10\x01\0\0\0\0\0\0\0";

// UID 1 gets the flag Seen.
const SEE_1: &[u8] = b"\x80\x80\x80\x85\x04\0\0\x10\x01\0\0\0\x01\0\0\0\x08\0\0\0";

// UID 1 has the flag Draft and no other.
const DRAFT_1: &[u8] = b"\x80\x80\x80\x85\x04\0\0\x10\x01\0\0\0\x01\0\0\0\x10\x0f\0\0";

const ADD_K1_TO_1: &[u8] = b"\x80\x80\x80\x86\0\x04\0\x10\0\0\x02\0k1\0\0\x01\0\0\0\x01\0\0\0";

const EXPUNGE_1: &[u8] = b"\x80\x80\x80\x84\x91\xcd\0\x10\x01\0\0\0\x01\0\0\0";

/// A command, with the message of an APPEND; the records of the mailbox when it came, and those
/// behind what was written since; the message of UID 1, which has no bytes where its file is
/// damaged; the end of the log; and the lines that answer the command.
pub struct Asked {
    pub command: &'static str,
    pub appended: &'static [u8],
    pub met: &'static [&'static [u8]],
    pub all: &'static [&'static [u8]],
    pub message: &'static [u8],
    pub end: u32,
    pub says: &'static [u8],
}

fn message_facts(alloc: Global, c: &Command, message: &[u8]) -> Result<MailFacts, NoMemory>
    requires { IsShallow c.now }
{
    let asked = asked_by(alloc, c)?;
    let message = Bytes::from_slice(alloc, message)?;
    facts_from(alloc, &asked, 1, message)
}

// The facts of the message of UID 1, where it is there; a damaged one has no bytes here.
fn facts_of(alloc: Global, c: &Command, live: &Live, message: &[u8]) -> Result<Mail, NoMemory>
    requires { IsShallow c.now }
{
    if message.is_empty() || live.position(1).is_none() {
        return Ok(Mail::new(alloc));
    }
    let facts = message_facts(alloc, c, message)?;
    let mut mail = Mail::new(alloc);
    mail.push(facts)?;
    Ok(mail)
}

// The UIDs of damaged files that the command reads.
fn damaged_of(
    alloc: Global,
    c: &Command,
    view: &View,
    live: &Live,
    facts: &Mail,
) -> Result<List<u32>, NoMemory>
    requires { IsShallow c.now }
{
    let uids = uids_looked_at(alloc, c, view)?;
    damaged_among(alloc, c, uids.as_slice(), live, facts)
}

fn ending_of(
    alloc: Global,
    c: &Command,
    view: &View,
    met: &Live,
    live: &Live,
    facts: &Mail,
    mark: Mark,
) -> Result<Reply, NoMemory>
    requires { IsShallow c.now }
{
    let gone = gone_uid(alloc, c, view, live)?;
    let damaged = damaged_of(alloc, c, view, live, facts)?;
    let taken = meet(alloc, c, view, met)?;
    Ok(ending(c, gone, damaged.as_slice(), live, taken, mark))
}

// The lines that answer the command.
fn add_lines(
    alloc: Global,
    c: &Command,
    view: &View,
    met: &Live,
    live: &Live,
    facts: &Mail,
    mark: Mark,
    lines: &mut List<Reply>,
) -> Result<(), NoMemory>
    requires { IsShallow c.now }
{
    add_data_lines(alloc, c, view, live, facts, lines)?;
    let end = ending_of(alloc, c, view, met, live, facts, mark)?;
    lines.push(end)?;
    Ok(())
}

fn is_text(alloc: Global, lines: &List<Reply>, says: &[u8]) -> Result<bool, NoMemory> {
    let text = replies_text(alloc, b"a", lines)?;
    Ok(text.as_slice() == says)
}

// Whether a session that was shown the first mailbox, and whose command met it, is answered so at
// the other one. Each value has one owner, so that it is let go in one place.
fn view_answers(
    alloc: Global,
    c: &Command,
    view: &View,
    met: &Live,
    live: &Live,
    facts: &Mail,
    asked: &Asked,
) -> Result<bool, NoMemory>
    requires { IsShallow c.now }
{
    let mark = Mark {
        file_seq: 1,
        offset: asked.end,
    };
    let mut lines = List::new(alloc);
    add_lines(alloc, c, view, met, live, facts, mark, &mut lines)?;
    is_text(alloc, &lines, asked.says)
}

fn facts_answer(
    alloc: Global,
    c: &Command,
    met: &Live,
    live: &Live,
    facts: &Mail,
    asked: &Asked,
) -> Result<bool, NoMemory>
    requires { IsShallow c.now }
{
    let view = View::of(alloc, met)?;
    view_answers(alloc, c, &view, met, live, facts, asked)
}

fn answers(
    alloc: Global,
    c: &Command,
    met: &Live,
    live: &Live,
    asked: &Asked,
) -> Result<bool, NoMemory> {
    if !is_shallow(c) {
        return Err(NoMemory);
    }
    let facts = facts_of(alloc, c, live, asked.message)?;
    facts_answer(alloc, c, met, live, &facts, asked)
}

fn answers_behind(alloc: Global, c: &Command, met: &Live, asked: &Asked) -> Result<bool, NoMemory> {
    let live = live_of(alloc, 2, asked.all)?;
    answers(alloc, c, met, &live, asked)
}

fn command_answers(alloc: Global, c: &Command, asked: &Asked) -> Result<bool, NoMemory> {
    let met = live_of(alloc, 2, asked.met)?;
    answers_behind(alloc, c, &met, asked)
}

/// Whether the command is answered so.
pub fn is_answered(alloc: Global, asked: &Asked) -> Result<bool, NoMemory> {
    let c = command_of(alloc, asked.command.as_bytes(), asked.appended)?;
    command_answers(alloc, &c, asked)
}

fn view_is_told(alloc: Global, live: &Live, view: &View, says: &[u8]) -> Result<bool, NoMemory> {
    let mut lines = List::new(alloc);
    add_select_lines(alloc, live, view, &mut lines)?;
    is_text(alloc, &lines, says)
}

fn is_told(alloc: Global, live: &Live, says: &[u8]) -> Result<bool, NoMemory> {
    let view = View::of(alloc, live)?;
    view_is_told(alloc, live, &view, says)
}

/// Whether a SELECT says this of the mailbox of these records.
pub fn selects(alloc: Global, records: &[&[u8]], says: &[u8]) -> Result<bool, NoMemory> {
    let live = live_of(alloc, 2, records)?;
    is_told(alloc, &live, says)
}

const SEARCHED: &[&[u8]] = &[APPEND_1, SEE_1, DRAFT_1, ADD_K1_TO_1];

const FETCH: &str = "FETCH 1:1 (RFC822.SIZE BODY[])";

const SELECTED: &[u8] = b"a * 1 EXISTS\na * OK [UIDVALIDITY 1000]\na * OK [UIDNEXT 2]\n\
    a * 1 FETCH (UID 1 FLAGS ())\n";

const CASES: [(&str, Case); 8] = [
    (
        "a flag or a keyword",
        Case::Answer(Asked {
            command: "SEARCH OR SEEN KEYWORD k1",
            appended: b"",
            met: SEARCHED,
            all: SEARCHED,
            message: b"hello",
            end: 152,
            says: b"a * SEARCH 1\na OK [MARK 1:152] SEARCH\n",
        }),
    ),
    (
        "no message is as large",
        Case::Answer(Asked {
            command: "UID SEARCH LARGER 5",
            appended: b"",
            met: SEARCHED,
            all: SEARCHED,
            message: b"hello",
            end: 152,
            says: b"a * SEARCH\na OK [MARK 1:152] UID SEARCH\n",
        }),
    ),
    (
        "a message",
        Case::Answer(Asked {
            command: FETCH,
            appended: b"",
            met: &[APPEND_1],
            all: &[APPEND_1],
            message: b"hello",
            end: 72,
            says: b"a * 1 FETCH (UID 1 RFC822.SIZE 5 BODY[] {5}\nhello)\na OK [MARK 1:72] FETCH\n",
        }),
    ),
    (
        "a damaged file",
        Case::Answer(Asked {
            command: FETCH,
            appended: b"",
            met: &[APPEND_1],
            all: &[APPEND_1],
            message: b"",
            end: 72,
            says: b"a NO [CORRUPTION] UID 1 MARK 1:72\n",
        }),
    ),
    (
        "a message that left",
        Case::Answer(Asked {
            command: FETCH,
            appended: b"",
            met: &[APPEND_1],
            all: &[APPEND_1, EXPUNGE_1],
            message: b"hello",
            end: 88,
            says: b"a NO [EXPUNGEISSUED] UID 1 MARK 1:88\n",
        }),
    ),
    (
        "a STORE that keeps its hands off",
        Case::Answer(Asked {
            command: "STORE 1:1 (UNCHANGEDSINCE 3) +FLAGS (\\Flagged)",
            appended: b"",
            met: &[APPEND_1, SEE_1],
            all: &[APPEND_1, SEE_1],
            message: b"",
            end: 92,
            says: b"a OK [MODIFIED 1] [MARK 1:92] STORE\n",
        }),
    ),
    (
        "an APPEND",
        Case::Answer(Asked {
            command: "APPEND () {5}",
            appended: b"hello",
            met: &[],
            all: &[APPEND_1],
            message: b"",
            end: 72,
            says: b"a OK [APPENDUID 1000 1] [MARK 1:72] APPEND\n",
        }),
    ),
    ("a SELECT", Case::Select(&[APPEND_1], SELECTED)),
];

#[test]
fn commands_are_answered(rt: HostRuntime) -> Result<(), Fail> {
    all_hold(rt.alloc(), &CASES)
}
