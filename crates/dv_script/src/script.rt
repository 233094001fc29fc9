ghost use Rattle.std.specs.Prelude.{◌≡◌, ◌+◌, ◌<◌, ◌≤◌, ℕ, true, All, List, [], bytes_eq, count_by, fold, length, IfErr, IfOk, IfSome, MatchBool, MatchOption, OnOk, Ok, Err, Some, None};
ghost use Rattle.std.specs.List.{list_all, list_any};
ghost use Rattle.std.specs.Str.Lines.{strip_carriage_return};
ghost use Rattle.dv_formats.specs.Scripts.{IsBadLine, IsScript, IsShortLiteral, IsTooLong, NamedLine, and_session, is_session_byte, session_limit, sessions_of};
ghost use Rattle.dv_formats.specs.Parsing.{ScriptFault, behind_line_end, command_at, feeds_before, first_line, is_byte, is_session_name, is_skipped, line_at, literal_at, parsed, session_at, with_session};
ghost use Rattle.dv_script.specs.Beside.{HasName, parsed_among, parsed_beside, unnamed};
ghost use Rattle.dv_script.specs.Opened.{OpensAs, OpensOf, lines_left};
ghost use Rattle.dv_script.specs.Rests.{BeginsCommand, LeavesOut, is_good, is_passed, left_from};
ghost use Rattle.dv_script.specs.Sources.{IsOf, LineGives, ScriptFails, ScriptGives, may_name, named, script_end_of};

use crate::lines::all_lines;
use crate::{Line, Script, ScriptEnd, ScriptLines};
use dv_commands::{behind, parse_append, parse_command, split_at_byte};
use dv_model::{Bytes, Command, List, NoMemory, OutOfMemory};
use dv_sets::ParseEnd;
use std::alloc::Global;

/// The most bytes that a script may have.
const MAX_SCRIPT: usize = 67_108_864;

/// The most bytes that a line may have before its first line end.
const MAX_LINE: usize = 65_536;

/// The most sessions that a script may name.
const MAX_SESSIONS: usize = 64;

/// Why a line has no command.
#[derive(Clone, Copy)]
pub(crate) enum LineEnd {
    Bad,
    /// Its literal has fewer bytes than its number says.
    Short,
    NoMemory,
}

impl<E: OutOfMemory> From<E> for LineEnd {
    ghost use Rattle.dv_script.specs.declared.script.LineEnd.TheVariants.{NoMemory};

    ghost from_gives = { λ _ end. end ≡ NoMemory };

    fn from(_: E) -> LineEnd {
        LineEnd::NoMemory
    }
}

/// Goes over all lines of a script, of which none is kept, and gives a cursor at the first one, or
/// the script's first fault (RFC 3501, section 9).
pub fn open_script(alloc: Global, b: &[u8]) -> Result<Script<'_>, ScriptEnd>
    // The lines left are those that the script says, and a fault is its first one.
    ensures lines { OpensAs result (parsed b.now) }
    // Each line has a byte.
    ensures few { IfOk result (λ script. length (lines_left script.lines) ≤ length b.now) }
    ensures sessions { IfOk result (λ script.
        script.sessions ≡ length (sessions_of (lines_left script.lines))) }
    // By the grammar, too, these are the script's lines, or this is its first fault.
    ensures found { OpensOf result b.now }
    // A script is opened, and each fault is told.
    ensures only { (lines : List NamedLine) → IsScript lines b.now
        → OpensAs result (Ok lines) }
    ensures bad { (number : ℕ) → IsBadLine b.now number
        → OpensAs result (Err (ScriptFault.BadLine number)) }
    ensures short { (number : ℕ) → IsShortLiteral b.now number
        → OpensAs result (Err (ScriptFault.ShortLiteral number)) }
    ensures long { IsTooLong b.now → OpensAs result (Err ScriptFault.TooLong) }
{
    open_lines(alloc, b)
}

/// As `open_script`, where one session more is to stand beside those that the lines name: they may
/// name 63, and the first line of another is bad.
pub fn open_script_beside(alloc: Global, b: &[u8]) -> Result<Script<'_>, ScriptEnd>
    ensures lines { OpensAs result (parsed_beside b.now) }
    ensures few { IfOk result (λ script. length (lines_left script.lines) ≤ length b.now) }
    ensures sessions { IfOk result (λ script.
        script.sessions ≡ length (sessions_of (lines_left script.lines))) }
    ensures limit { IfOk result (λ script. script.sessions < session_limit) }
    // By the grammar, too, these are the script's lines, and one with so few sessions is opened.
    ensures found { IfOk result (λ script. IsScript (lines_left script.lines) b.now) }
    ensures only { (lines : List NamedLine) → IsScript lines b.now
        → length (sessions_of lines) < session_limit → OpensAs result (Ok lines) }
{
    open_beside(alloc, b)
}

// A cursor at the first line, where another session stands beside those of the lines, or the
// script's first fault.
fn open_beside(alloc: Global, b: &[u8]) -> Result<Script<'_>, ScriptEnd>
    ensures lines { OpensAs result (parsed_beside b.now) }
    ensures few { IfOk result (λ script. length (lines_left script.lines) ≤ length b.now) }
    ensures sessions { IfOk result (λ script.
        script.sessions ≡ length (sessions_of (lines_left script.lines))) }
    ensures limit { IfOk result (λ script. script.sessions < session_limit) }
{
    let count = count_sessions(alloc, unnamed(alloc)?, b)?;
    let lines = ScriptLines {
        alloc,
        rest: b,
        names: unnamed(alloc)?,
    };
    Ok(Script {
        lines,
        sessions: count - 1,
    })
}

// The name of a session that no line names.
fn unnamed(alloc: Global) -> Result<List<Bytes>, NoMemory>
    ensures { IfOk result (λ names. names ≡ unnamed) }
{
    let mut names = List::new(alloc);
    names.push(Bytes::new(alloc))?;
    Ok(names)
}

// A cursor at the first line, or the script's first fault.
fn open_lines(alloc: Global, b: &[u8]) -> Result<Script<'_>, ScriptEnd>
    ensures lines { OpensAs result (parsed b.now) }
    ensures few { IfOk result (λ script. length (lines_left script.lines) ≤ length b.now) }
    ensures sessions { IfOk result (λ script.
        script.sessions ≡ length (sessions_of (lines_left script.lines))) }
{
    let sessions = count_sessions(alloc, List::new(alloc), b)?;
    let names = List::new(alloc);
    let lines = ScriptLines {
        alloc,
        rest: b,
        names,
    };
    Ok(Script { lines, sessions })
}

/// The lines of a script with their commands, or its first fault (RFC 3501, section 9).
pub fn parse(alloc: Global, b: &[u8]) -> Result<List<Line>, ScriptEnd>
    // The lines are those that the script says, and a fault is its first one.
    ensures lines { ScriptGives result (parsed b.now) }
    // Each line has a byte.
    ensures few { IfOk result (λ lines. length lines ≤ length b.now) }
    // By the grammar, too, these are the script's lines, or this is its first fault.
    ensures found { IsOf result b.now }
    // The lines of a script are read, and each fault is told.
    ensures only { (lines : List NamedLine) → IsScript lines b.now
        → ScriptGives result (Ok lines) }
    ensures bad { (number : ℕ) → IsBadLine b.now number
        → ScriptGives result (Err (ScriptFault.BadLine number)) }
    ensures short { (number : ℕ) → IsShortLiteral b.now number
        → ScriptGives result (Err (ScriptFault.ShortLiteral number)) }
    ensures long { IsTooLong b.now → ScriptGives result (Err ScriptFault.TooLong) }
{
    read_lines(alloc, b)
}

// All lines of a script, or its first fault.
fn read_lines(alloc: Global, b: &[u8]) -> Result<List<Line>, ScriptEnd>
    ensures lines { ScriptGives result (parsed b.now) }
    ensures few { IfOk result (λ lines. length lines ≤ length b.now) }
{
    let mut script = open_lines(alloc, b)?;
    Ok(all_lines(alloc, &mut script.lines)?)
}

// Goes over one line after another, up to the first fault, behind sessions of some names, and gives
// the number of all sessions.
fn count_sessions(alloc: Global, first: List<Bytes>, b: &[u8]) -> Result<u32, ScriptEnd>
    requires { length first ≤ 64 }
    ensures lines { OnOk result (parsed_among first b.now ≡ Ok (left_from first b.now)) }
    ensures fault { IfErr result (λ e. ScriptFails e (parsed_among first b.now)) }
    ensures good { OnOk result (is_good first b.now ≡ true) }
    ensures few { OnOk result (length (left_from first b.now) ≤ length b.now) }
    ensures sessions { IfOk result (λ n.
        (n ≡ length (fold and_session first (left_from first b.now))) × (n ≤ 64)) }
    // Each line has a session with a name.
    ensures named { OnOk result (All HasName (left_from first b.now)) }
{
    if b.len() > MAX_SCRIPT {
        return Err(ScriptEnd::TooLong);
    }
    let mut names = first;
    let mut rest = b;
    let mut number: u32 = 1;
    'lines: while !rest.is_empty() {
        let (text, end) = first_line(rest);
        let next = match read_line(alloc, &mut names, text, end) {
            Ok((_, next)) => next,
            Err(fault) => return Err(script_end(number, fault)),
        };
        number += feeds_before(rest, next);
        rest = next;
    }
    Ok(names.len() as u32)
}

// A line's fault, by the line's number.
fn script_end(line: u32, end: LineEnd) -> ScriptEnd
    ensures { result ≡ script_end_of line end }
{
    match end {
        LineEnd::Bad => ScriptEnd::BadLine { line },
        LineEnd::Short => ScriptEnd::ShortLiteral { line },
        LineEnd::NoMemory => ScriptEnd::NoMemory,
    }
}

fn count_feeds(b: &[u8]) -> usize
    ensures count { result ≡ count_by (is_byte 10) b.now }
    ensures within { result ≤ length b.now }
{
    b.iter().filter(|byte| **byte == b'\n').count()
}

// The line feeds before what is left of these bytes.
fn feeds_before(b: &[u8], rest: &[u8]) -> u32
    requires within { length rest.now ≤ length b.now }
    requires limited { length b.now ≤ 67108864 }
    ensures count { result ≡ feeds_before b.now rest.now }
    ensures left { result + length rest.now ≤ length b.now }
{
    let (taken, _) = b.split_at(b.len() - rest.len());
    count_feeds(taken) as u32
}

fn without_carriage_return(text: &[u8]) -> &[u8]
    ensures { result.now ≡ strip_carriage_return text.now }
{
    match text.strip_suffix(b"\r") {
        None => text,
        Some(front) => front,
    }
}

// The first line without its end, and what stands behind that.
pub(crate) fn first_line(b: &[u8]) -> (&[u8], &[u8])
    ensures text { result.0.now ≡ (first_line b.now).0 }
    ensures rest { result.1.now ≡ (first_line b.now).1 }
    ensures shorter { 0 < length b.now → length result.1.now < length b.now }
{
    let (front, end) = split_at_byte(b, b'\n');
    match behind(end, b"\n") {
        None => (b, &[]),
        Some(rest) => (without_carriage_return(front), rest),
    }
}

fn is_skipped(text: &[u8]) -> bool
    ensures { result ≡ is_skipped text.now }
{
    match text.first() {
        None => true,
        Some(b) => *b == b'#',
    }
}

// Whether a line has no command and no fault.
#[tactic(auto, unfolding(crate::specs::Rests::is_passed))]
fn is_passed(text: &[u8]) -> bool
    ensures { result ≡ is_passed text.now }
{
    if text.len() > MAX_LINE {
        return false;
    }
    is_skipped(text)
}

/// The bytes from the first line on that isn't skipped. It takes no memory.
pub(crate) fn skip(b: &[u8]) -> &[u8]
    ensures same { LeavesOut b.now result.now }
    ensures command { 0 < length result.now → BeginsCommand result.now }
{
    let mut rest = b;
    'skipped: while !rest.is_empty() {
        let (text, end) = first_line(rest);
        if !is_passed(text) {
            return rest;
        }
        rest = end;
    }
    rest
}

// A line without its end, behind which these bytes stand.
#[tactic(auto, unfolding(dv_formats::specs::Parsing::line_at))]
pub(crate) fn read_line<'a>(
    alloc: Global,
    names: &mut List<Bytes>,
    text: &[u8],
    b: &'a [u8],
) -> Result<(Option<Line>, &'a [u8]), LineEnd>
    ensures line { LineGives (λ x. (may_name x.0, names.new, x.1.now)) result
        (line_at names.old text.now b.now) }
    ensures within { IfOk result (λ x. length x.1.now ≤ length b.now) }
{
    if text.len() > MAX_LINE {
        return Err(LineEnd::Bad);
    }
    if is_skipped(text) {
        return Ok((None, b));
    }
    let Some((name, words)) = split_session(text) else {
        return Err(LineEnd::Bad);
    };
    if !add_session(alloc, names, name)? {
        return Err(LineEnd::Bad);
    }
    let (line, next) = read_command(alloc, name, words, b)?;
    Ok((Some(line), next))
}

fn is_session_byte(b: u8) -> bool
    ensures { result ≡ is_session_byte b }
{
    b.is_ascii_lowercase() || b.is_ascii_digit()
}

fn are_session_bytes(name: &[u8]) -> bool
    ensures { result ≡ list_all is_session_byte name.now }
{
    name.iter().all(|b| is_session_byte(*b))
}

#[tactic(auto, unfolding(dv_formats::specs::Parsing::is_session_name))]
fn is_session_name(name: &[u8]) -> bool
    ensures { result ≡ is_session_name name.now }
{
    if name.is_empty() || name.len() > 16 {
        return false;
    }
    are_session_bytes(name)
}

/// The session's name that begins a line, and what stands behind its space.
pub fn split_session(text: &[u8]) -> Option<(&[u8], &[u8])>
    ensures { MatchOption result (session_at text.now ≡ None)
        (λ x. session_at text.now ≡ Some (x.0.now, x.1.now)) }
{
    let (name, rest) = split_at_byte(text, b' ');
    if !is_session_name(name) {
        return None;
    }
    match behind(rest, b" ") {
        None => None,
        Some(words) => Some((name, words)),
    }
}

fn is_known(names: &[Bytes], name: &[u8]) -> bool
    ensures { result ≡ list_any (bytes_eq name.now) names.now }
{
    names.iter().any(|known| name == known.as_slice())
}

// Adds the session where it is new, unless there are 64 others.
fn add_session(alloc: Global, names: &mut List<Bytes>, name: &[u8]) -> Result<bool, NoMemory>
    ensures { IfOk result (λ fits. MatchBool fits (with_session names.old name.now ≡ Some names.new)
        (with_session names.old name.now ≡ None)) }
{
    if is_known(names.as_slice(), name) {
        return Ok(true);
    }
    if names.len() >= MAX_SESSIONS {
        return Ok(false);
    }
    names.push(List::from_slice(alloc, name)?)?;
    Ok(true)
}

// What a session's command says, and what stands behind its line.
#[tactic(auto, unfolding(dv_formats::specs::Parsing::command_at))]
fn read_command<'a>(
    alloc: Global,
    name: &[u8],
    text: &[u8],
    b: &'a [u8],
) -> Result<(Line, &'a [u8]), LineEnd>
    ensures line { (names : List (List ℕ)) → LineGives (λ x. (Some (named x.0), names, x.1.now))
        result (command_at name.now names text.now b.now) }
    ensures within { IfOk result (λ x. length x.1.now ≤ length b.now) }
{
    if let Some(rest) = behind(text, b"APPEND ") {
        return match parse_append(alloc, rest) {
            Ok((flags, size)) => read_literal(alloc, name, flags, size, b),
            Err(ParseEnd::Bad) => Err(LineEnd::Bad),
            Err(ParseEnd::NoMemory) => Err(LineEnd::NoMemory),
        };
    }
    match parse_command(alloc, text) {
        Ok(command) => {
            let session = List::from_slice(alloc, name)?;
            Ok((Line { session, command }, b))
        }
        Err(ParseEnd::Bad) => Err(LineEnd::Bad),
        Err(ParseEnd::NoMemory) => Err(LineEnd::NoMemory),
    }
}

// A line end, or the script's end.
fn behind_line_end(b: &[u8]) -> Option<&[u8]>
    ensures rest { MatchOption result (behind_line_end b.now ≡ None)
        (λ rest. behind_line_end b.now ≡ Some rest.now) }
    ensures within { IfSome result (λ rest. length rest.now ≤ length b.now) }
{
    if b.is_empty() {
        return Some(b);
    }
    match behind(b, b"\n") {
        Some(rest) => Some(rest),
        None => behind(b, b"\r\n"),
    }
}

// So many bytes are the message, and then the line ends.
#[tactic(auto, unfolding(dv_formats::specs::Parsing::literal_at))]
fn read_literal<'a>(
    alloc: Global,
    name: &[u8],
    flags: (u8, List<Bytes>),
    size: u32,
    b: &'a [u8],
) -> Result<(Line, &'a [u8]), LineEnd>
    ensures line { (names : List (List ℕ)) → LineGives (λ x. (Some (named x.0), names, x.1.now))
        result (literal_at name.now names (flags, size) b.now) }
    ensures within { IfOk result (λ x. length x.1.now ≤ length b.now) }
{
    let size = size as usize;
    if b.len() < size {
        return Err(LineEnd::Short);
    }
    let (message, end) = b.split_at(size);
    let Some(next) = behind_line_end(end) else {
        return Err(LineEnd::Bad);
    };
    let session = List::from_slice(alloc, name)?;
    let message = List::from_slice(alloc, message)?;
    let (flags, keywords) = flags;
    let command = Command::Append {
        flags,
        keywords,
        message,
    };
    Ok((Line { session, command }, next))
}
