ghost use Rattle.std.specs.Prelude.{◌≡◌, [], IfOk, IsSomeAnd, true};
ghost use Rattle.dv_model.specs.Fresh.{AreFresh};
ghost use Rattle.dv_model.specs.Views.{View as Rows, empty_view, shows_uid};

use crate::cases::{Case, all_hold};
use crate::mailboxes::apply;
use dv_apply::Live;
use dv_keywords::Table;
use dv_model::{Fresh, List, NoMemory, Reply, Shown, Step, Value};
use dv_view::{Client, View};
use std::alloc::Global;
use std::test::Fail;

const APPEND_1_DELETED: &[u8] = b"\x80\x80\x80\x84\x02\0\0\x10\x01\0\0\0\x04\0\0\0";

const APPEND_2: &[u8] = b"\x80\x80\x80\x84\x02\0\0\x10\x02\0\0\0\0\0\0\0";

const EXPUNGE_1: &[u8] = b"\x80\x80\x80\x84\x91\xcd\0\x10\x01\0\0\0\x01\0\0\0";

const FLAG_2: &[u8] = b"\x80\x80\x80\x85\x04\0\0\x10\x02\0\0\0\x02\0\0\0\x02\0\0\0";

/// What is said of a row, or of their number.
#[derive(Clone, Copy)]
pub enum Line {
    Expunge(u32),
    Exists(u32),
    /// The number, the UID and the flags.
    Fetch(u32, u32, u8),
}

fn is_flags(values: &[Value], expected: u8) -> bool {
    match values {
        [Value::Flags(flags, _)] => *flags == expected,
        _ => false,
    }
}

fn is_line(r: &Reply, line: Line) -> bool {
    match (r, line) {
        (Reply::Expunge(number), Line::Expunge(expected)) => *number == expected,
        (Reply::Exists(count), Line::Exists(expected)) => *count == expected,
        (
            Reply::Fetch {
                number,
                uid,
                values,
            },
            Line::Fetch(at, named, flags),
        ) => *number == at && *uid == named && is_flags(values.as_slice(), flags),
        _ => false,
    }
}

fn is_said(said: &List<Reply>, expected: &[Line]) -> bool {
    if said.len() != expected.len() {
        return false;
    }
    for (r, line) in said.as_slice().iter().zip(expected) {
        if !is_line(r, *line) {
            return false;
        }
    }
    true
}

/// A record of the log, and the step that the view then takes, with what is said.
pub type Turn = (&'static [u8], Option<(Step, &'static [Line])>);

fn has_same_rows(client: &[Shown], view: &[Shown]) -> bool {
    if client.len() != view.len() {
        return false;
    }
    for (a, b) in client.iter().zip(view) {
        if a.uid != b.uid || a.flags != b.flags {
            return false;
        }
    }
    true
}

// A view, and a client that hears what is said of its moves.
#[derive(Drop)]
struct Watched {
    view: View,
    client: Client,
}

impl Watched {
    fn new(alloc: Global) -> Watched
        ensures { result.view ≡ empty_view }
    {
        Watched {
            view: View::empty(alloc),
            client: Client {
                rows: List::new(alloc),
            },
        }
    }

    fn hear(&mut self, alloc: Global, said: &List<Reply>) -> Result<(), NoMemory> {
        for r in said.as_slice() {
            self.client.hear(alloc, r)?;
        }
        Ok(())
    }

    // Whether what is said is what is expected, and a client that hears it has the view.
    fn hears(
        &mut self,
        alloc: Global,
        said: &List<Reply>,
        expected: &[Line],
    ) -> Result<bool, NoMemory> {
        self.hear(alloc, said)?;
        Ok(
            is_said(said, expected)
                && has_same_rows(self.client.rows.as_slice(), self.view.rows().as_slice()),
        )
    }
}

// Moves on, where the mailbox isn't older than the view.
fn advance(
    alloc: Global,
    view: &mut View,
    live: &Live,
    step: Step,
) -> Result<List<Reply>, NoMemory> {
    if view.next_uid() > live.next_uid() {
        return Err(NoMemory);
    }
    let mut said = List::new(alloc);
    view.advance(live, step, &mut said)?;
    Ok(said)
}

fn take(
    alloc: Global,
    watched: &mut Watched,
    live: &Live,
    step: Step,
    expected: &[Line],
) -> Result<bool, NoMemory> {
    let said = advance(alloc, &mut watched.view, live, step)?;
    watched.hears(alloc, &said, expected)
}

fn are_taken(
    alloc: Global,
    live: &mut Live,
    watched: &mut Watched,
    turns: &[Turn],
) -> Result<bool, NoMemory> {
    for (bytes, step) in turns {
        apply(alloc, live, &[*bytes])?;
        if let Some((step, expected)) = step {
            if !take(alloc, watched, live, *step, expected)? {
                return Ok(false);
            }
        }
    }
    Ok(true)
}

/// Whether each turn says what is expected, and a client that hears it has the view.
pub fn are_right(alloc: Global, turns: &[Turn]) -> Result<bool, NoMemory> {
    let mut live = Live::empty(alloc, 1000);
    let mut watched = Watched::new(alloc);
    are_taken(alloc, &mut live, &mut watched, turns)
}

fn shown(alloc: Global, uid: u32, flags: u8) -> Shown
    ensures uid { result.uid ≡ uid }
    ensures keywords { result.keywords ≡ [] }
{
    Shown {
        uid,
        flags,
        keywords: List::new(alloc),
        modseq: 1,
    }
}

fn given(alloc: Global, uid: u32, flags: u8) -> Fresh
    ensures uid { result.uid ≡ uid }
    ensures row { IsSomeAnd result.row (λ s. (s.uid ≡ uid) × (s.keywords ≡ [])) }
{
    Fresh {
        uid,
        row: Some(shown(alloc, uid, flags)),
    }
}

// UIDs 1 and 2, without flags.
fn first_changes(alloc: Global) -> Result<List<Fresh>, NoMemory>
    ensures { IfOk result (λ fresh. AreFresh empty_view 3 0 fresh) }
{
    let mut fresh = List::new(alloc);
    fresh.push(given(alloc, 1, 0))?;
    fresh.push(given(alloc, 2, 0))?;
    Ok(fresh)
}

// UID 1 has left, UID 2 is Seen, and UID 3 is new.
fn next_changes(alloc: Global) -> Result<List<Fresh>, NoMemory>
    ensures { IfOk result (λ fresh. (view : Rows) → view.next_uid ≡ 3 → shows_uid view 2 ≡ true
        → AreFresh view 4 0 fresh) }
{
    let mut fresh = List::new(alloc);
    fresh.push(Fresh { uid: 1, row: None })?;
    fresh.push(given(alloc, 2, 8))?;
    fresh.push(given(alloc, 3, 0))?;
    Ok(fresh)
}

// What is said of the first changes.
fn first_move(alloc: Global, view: &mut View) -> Result<List<Reply>, NoMemory>
    requires { view.old ≡ empty_view }
{
    let names = Table::empty(alloc);
    let fresh = first_changes(alloc)?;
    let mut said = List::new(alloc);
    view.advance_by(3, fresh, &names, Step::Full, &mut said)?;
    Ok(said)
}

// What a step says of the next ones.
fn next_move(alloc: Global, view: &mut View, step: Step) -> Result<List<Reply>, NoMemory> {
    if view.next_uid() != 3 || view.position(2).is_none() {
        return Err(NoMemory);
    }
    let names = Table::empty(alloc);
    let fresh = next_changes(alloc)?;
    let mut said = List::new(alloc);
    view.advance_by(4, fresh, &names, step, &mut said)?;
    Ok(said)
}

fn begin(alloc: Global, watched: &mut Watched) -> Result<(), NoMemory>
    requires { watched.old.view ≡ empty_view }
{
    let said = first_move(alloc, &mut watched.view)?;
    watched.hear(alloc, &said)
}

fn go_on(
    alloc: Global,
    watched: &mut Watched,
    step: Step,
    expected: &[Line],
) -> Result<bool, NoMemory> {
    let said = next_move(alloc, &mut watched.view, step)?;
    watched.hears(alloc, &said, expected)
}

/// Whether the second move says what is expected, and a client that hears both has the view.
pub fn is_right(alloc: Global, step: Step, expected: &[Line]) -> Result<bool, NoMemory> {
    let mut watched = Watched::new(alloc);
    begin(alloc, &mut watched)?;
    go_on(alloc, &mut watched, step, expected)
}

const UNTOLD: [Turn; 4] = [
    (APPEND_1_DELETED, None),
    (
        APPEND_2,
        Some((
            Step::Full,
            &[Line::Exists(2), Line::Fetch(1, 1, 4), Line::Fetch(2, 2, 0)],
        )),
    ),
    (EXPUNGE_1, None),
    (FLAG_2, Some((Step::Held, &[Line::Fetch(2, 2, 2)]))),
];

const CASES: [(&str, Case); 3] = [
    ("an untold row keeps its number", Case::Turns(&UNTOLD)),
    (
        "a full step follows changes",
        Case::Changes(
            Step::Full,
            &[
                Line::Expunge(1),
                Line::Exists(2),
                Line::Fetch(1, 2, 8),
                Line::Fetch(2, 3, 0),
            ],
        ),
    ),
    (
        "a held step follows changes",
        Case::Changes(
            Step::Held,
            &[Line::Exists(3), Line::Fetch(2, 2, 8), Line::Fetch(3, 3, 0)],
        ),
    ),
];

#[test]
fn views_move_as_they_say(rt: HostRuntime) -> Result<(), Fail> {
    all_hold(rt.alloc(), &CASES)
}
