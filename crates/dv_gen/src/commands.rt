ghost use Rattle.std.specs.Prelude.{◌≡◌, ◌+◌, ◌%◌, ◌<◌, ◌≤◌, ◌^◌, ◌∷◌, [], IfOk, decimal, replicate};
ghost use Rattle.dv_formats.specs.Generators.{append_drawn, command_by, command_drawn, fetch_drawn, how_of, keyword_of, next_state, session_name, store_drawn, uids_from};
ghost use Rattle.dv_gen.specs.Lines.{line_of};

use crate::draws::draw;
use dv_model::{Bytes, Command, End, How, Item, List, NoMemory, Span};
use dv_script::{Line, decimal_text};
use std::alloc::Global;

// A letter, and a number in decimal digits.
pub(crate) fn lettered(alloc: Global, letter: u8, n: u32) -> Result<Bytes, NoMemory>
    ensures { IfOk result (λ name. name ≡ letter ∷ decimal n) }
{
    let digits = decimal_text(alloc, n as u64)?;
    let mut name = List::new(alloc);
    name.push(letter)?;
    name.extend(digits.as_slice())?;
    Ok(name)
}

/// A command of a session, by the session's number.
pub(crate) fn line_of(alloc: Global, session: u32, command: Command) -> Result<Line, NoMemory>
    ensures { IfOk result (λ line. line ≡ line_of (session_name session, command)) }
{
    Ok(Line {
        session: lettered(alloc, b's', session)?,
        command,
    })
}

// Ten UIDs from one up to i + 1 on.
fn uids_from(alloc: Global, i: u32, state: &mut u64) -> Result<List<Span>, NoMemory>
    requires { i + 1 < 2 ^ 32 }
    ensures state { state.new ≡ next_state state.old }
    ensures set { IfOk result (λ set. set ≡ uids_from i state.new) }
{
    let first = 1 + draw(state) % (i + 1);
    let mut set = List::new(alloc);
    set.push(Span {
        from: End::Number(first),
        to: End::Number(first + 9),
    })?;
    Ok(set)
}

fn how_of(n: u32) -> How
    ensures { result ≡ how_of n }
{
    match n {
        0 => How::Add,
        1 => How::Remove,
        _ => How::Replace,
    }
}

// So many bytes `x`.
fn message_of(alloc: Global, size: u32) -> Result<Bytes, NoMemory>
    ensures { IfOk result (λ message. message ≡ replicate size 120) }
{
    let mut message = List::new(alloc);
    for _ in 0..size {
        message.push(b'x')?;
    }
    Ok(message)
}

fn append_drawn(alloc: Global, state: &mut u64) -> Result<Command, NoMemory>
    ensures { IfOk result (λ command. (command, state.new) ≡ append_drawn state.old) }
{
    let size = draw(state) % 100;
    Ok(Command::Append {
        flags: 0,
        keywords: List::new(alloc),
        message: message_of(alloc, size)?,
    })
}

// The flag of this bit.
fn flag_of(n: u32) -> u8
    requires { n ≤ 4 }
    ensures { result ≡ 2 ^ n }
{
    2u8.pow(n)
}

// One keyword of forty.
fn keywords_of(alloc: Global, n: u32) -> Result<List<Bytes>, NoMemory>
    ensures { IfOk result (λ names. names ≡ keyword_of n ∷ []) }
{
    let mut names = List::new(alloc);
    names.push(lettered(alloc, b'k', n % 40)?)?;
    Ok(names)
}

fn store_drawn(alloc: Global, i: u32, state: &mut u64) -> Result<Command, NoMemory>
    requires { i + 1 < 2 ^ 32 }
    ensures { IfOk result (λ command. (command, state.new) ≡ store_drawn i state.old) }
{
    let set = uids_from(alloc, i, state)?;
    let how = how_of(draw(state) % 3);
    let kind = draw(state) % 6;
    let mut flags = 0;
    let mut keywords = List::new(alloc);
    if kind <= 4 {
        flags = flag_of(kind);
    } else {
        keywords = keywords_of(alloc, draw(state))?;
    }
    Ok(Command::Store {
        by_uid: true,
        set,
        how,
        flags,
        keywords,
        unchanged_since: None,
    })
}

fn fetch_drawn(alloc: Global, i: u32, state: &mut u64) -> Result<Command, NoMemory>
    requires { i + 1 < 2 ^ 32 }
    ensures { IfOk result (λ command. (command, state.new) ≡ fetch_drawn i state.old) }
{
    let set = uids_from(alloc, i, state)?;
    let mut items = List::new(alloc);
    items.push(Item::Flags)?;
    Ok(Command::Fetch {
        by_uid: true,
        set,
        items,
    })
}

fn command_by(alloc: Global, kind: u32, i: u32, state: &mut u64) -> Result<Command, NoMemory>
    requires { i + 1 < 2 ^ 32 }
    ensures { IfOk result (λ command. (command, state.new) ≡ command_by kind i state.old) }
{
    if kind <= 2 {
        append_drawn(alloc, state)
    } else if kind <= 4 {
        store_drawn(alloc, i, state)
    } else if kind == 5 {
        fetch_drawn(alloc, i, state)
    } else if kind == 6 {
        Ok(Command::Noop)
    } else {
        Ok(Command::Expunge)
    }
}

// Command i, and the state behind its draws.
pub(crate) fn command_drawn(alloc: Global, i: u32, state: &mut u64) -> Result<Command, NoMemory>
    requires { i + 1 < 2 ^ 32 }
    ensures { IfOk result (λ command. (command, state.new) ≡ command_drawn i state.old) }
{
    let kind = draw(state) % 8;
    command_by(alloc, kind, i, state)
}
