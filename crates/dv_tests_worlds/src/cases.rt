//! Tables of steps, with what they leave and what the sessions are answered as text.

use crate::steps::{Step, played};
use dv_model::{Bytes, Command, List, NoMemory, Reply};
use dv_script::replies_text;
use dv_world::World;
use std::alloc::Global;
use std::test::Fail;

/// What is left behind these steps, and then the others.
pub struct Case {
    pub steps: &'static [Step],
    pub others: &'static [Step],
    /// How many entries are durable. All of them are published.
    pub count: usize,
    pub is_pending: bool,
    /// All that session 1 was answered, where it is live. Its lines have the name `a`.
    pub first: Option<&'static [u8]>,
    /// The same of session 2, whose lines have the name `b`.
    pub second: Option<&'static [u8]>,
}

fn lines(
    alloc: Global,
    answers: &[(Command, List<Reply>)],
    name: &[u8],
) -> Result<Bytes, NoMemory> {
    let mut text = List::new(alloc);
    for answer in answers {
        let more = replies_text(alloc, name, &answer.1)?;
        text.extend(more.as_slice())?;
    }
    Ok(text)
}

// Whether a session was answered so, or isn't live.
fn is_answered(
    alloc: Global,
    answers: Option<&[(Command, List<Reply>)]>,
    name: &[u8],
    expected: Option<&[u8]>,
) -> Result<bool, NoMemory> {
    match (answers, expected) {
        (Some(answers), Some(text)) => Ok(lines(alloc, answers, name)?.as_slice() == text),
        (None, None) => Ok(true),
        _ => Ok(false),
    }
}

// What isn't as it is expected.
fn difference(alloc: Global, world: &World, case: &Case) -> Result<Option<&'static str>, NoMemory> {
    if world.count() != case.count || world.published() != case.count {
        return Ok(Some("other entries"));
    }
    if world.is_pending() != case.is_pending {
        return Ok(Some("another pending entry"));
    }
    if !is_answered(alloc, world.answers(1), b"a", case.first)? {
        return Ok(Some("other answers of session 1"));
    }
    if !is_answered(alloc, world.answers(2), b"b", case.second)? {
        return Ok(Some("other answers of session 2"));
    }
    Ok(None)
}

fn played_difference(alloc: Global, case: &Case) -> Result<Option<&'static str>, NoMemory> {
    let world = played(alloc, case.steps, case.others)?;
    difference(alloc, &world, case)
}

/// Fails unless what is left is as it is expected.
pub fn play(alloc: Global, case: &Case) -> Result<(), Fail> {
    match played_difference(alloc, case)? {
        None => Ok(()),
        Some(what) => Err(Fail::from(what)),
    }
}
