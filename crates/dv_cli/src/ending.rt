ghost use Rattle.std.specs.Prelude.{◌≡◌, ◌⊎◌, ◌++◌, ◌∷◌, [], decimal, IfOk, OnOk};
ghost use Rattle.std.specs.Prelude.{◌<◌, ◌≤◌, false};
ghost use Rattle.dv_model.specs.Counts.{Rose};
ghost use Rattle.dv_shelf.specs.Streams.{Appends, AppendsFront};
ghost use Rattle.dv_cli.specs.declared.ending.End.TheVariants as how;
ghost use Rattle.dv_cli.specs.Endings.{status_of, text_of, Concludes, IsStatus, is_plain};
ghost use Rattle.dv_model.specs.declared.types.OpenFault.TheVariants as fault;
ghost use Rattle.dv_cli.specs.Running.{answered_text, counted_text, end_text, fault_text, load_text, place_text, rebuilt_text, script_text};

use crate::words::Load;
use dv_model::{Bytes, List, Mark, NoMemory, OpenFault};
use dv_script::{ScriptEnd, decimal_text, mark_text};
use dv_shelf::Sink;
use std::alloc::Global;

/// A load that was generated, and how many messages and which UIDNEXT the mailbox has behind it.
#[derive(Clone, Copy)]
pub struct Loaded {
    pub load: Load,
    pub exists: u32,
    pub next_uid: u32,
}

/// How a run ends, before its last line is written.
#[derive(Clone, Copy)]
pub enum End {
    /// Every command was answered: the log's end, the number of groups written, and the load,
    /// where one was generated.
    Answered {
        mark: Mark,
        groups: u64,
        loaded: Option<Loaded>,
    },
    /// The folder was rebuilt: how many messages are kept, and how many message files skipped.
    Rebuilt {
        kept: u32,
        skipped: u32,
    },
    /// The words aren't those of a run.
    Usage,
    /// The folder isn't opened or made.
    Unopened(OpenFault),
    NoMemory,
    /// The script is refused.
    Script(ScriptEnd),
    /// The script couldn't be read; the count of its faults.
    Source(u64),
    /// The output failed.
    Sink,
}

/// The exit status of a run that ends so, from 0 to 7.
fn status(end: &End) -> u8
    ensures { result ≡ status_of end.now }
{
    match end {
        End::Answered { .. } | End::Rebuilt { .. } => 0,
        End::Usage => 1,
        End::Unopened(OpenFault::Disk(_)) => 2,
        End::Unopened(OpenFault::NoMemory) => 4,
        End::Unopened(_) => 3,
        End::NoMemory => 4,
        End::Script(ScriptEnd::NoMemory) => 4,
        End::Script(_) => 5,
        End::Source(_) => 6,
        End::Sink => 7,
    }
}

/// A line of some words and a number.
fn numbered_line(alloc: Global, words: &[u8], number: u64) -> Result<Bytes, NoMemory>
    ensures { IfOk result (λ line. line ≡ words.now ++ decimal number ++ 10 ∷ []) }
{
    let mut line = List::from_slice(alloc, words)?;
    line.extend(decimal_text(alloc, number)?.as_slice())?;
    line.push(b'\n')?;
    Ok(line)
}

/// The last line of a run that answered every command.
fn end_line(alloc: Global, mark: Mark, groups: u64) -> Result<Bytes, NoMemory>
    ensures { IfOk result (λ line. line ≡ end_text mark groups) }
{
    let mut line = List::from_slice(alloc, b"END 0 ")?;
    line.extend(mark_text(alloc, mark)?.as_slice())?;
    line.extend(b" GROUPS ")?;
    line.extend(decimal_text(alloc, groups)?.as_slice())?;
    line.push(b'\n')?;
    Ok(line)
}

/// Adds a word, a space before and behind it, and a number.
fn put_counted(line: &mut Bytes, alloc: Global, word: &[u8], number: u32) -> Result<(), NoMemory>
    ensures { OnOk result (line.new ≡ line.old ++ counted_text word.now number) }
{
    line.push(b' ')?;
    line.extend(word)?;
    line.push(b' ')?;
    line.extend(decimal_text(alloc, u64::from(number))?.as_slice())?;
    Ok(())
}

/// The line that tells which load was generated, and what the mailbox has behind it.
fn load_line(alloc: Global, loaded: &Loaded) -> Result<Bytes, NoMemory>
    ensures { IfOk result (λ line. line ≡ load_text loaded.now) }
{
    let mut line = List::from_slice(alloc, b"GEN ")?;
    line.extend(decimal_text(alloc, loaded.load.seed)?.as_slice())?;
    line.push(b' ')?;
    line.extend(decimal_text(alloc, u64::from(loaded.load.count))?.as_slice())?;
    line.push(b' ')?;
    line.extend(decimal_text(alloc, u64::from(loaded.load.sessions))?.as_slice())?;
    put_counted(&mut line, alloc, b"EXISTS", loaded.exists)?;
    put_counted(&mut line, alloc, b"UIDNEXT", loaded.next_uid)?;
    line.push(b'\n')?;
    Ok(line)
}

/// The last lines of a run whose commands were all answered.
fn answered_lines(
    alloc: Global,
    mark: Mark,
    groups: u64,
    loaded: &Option<Loaded>,
) -> Result<Bytes, NoMemory>
    ensures { IfOk result (λ line. line ≡ answered_text mark groups loaded.now) }
{
    let Some(loaded) = loaded else {
        return end_line(alloc, mark, groups);
    };
    let mut lines = load_line(alloc, loaded)?;
    lines.extend(end_line(alloc, mark, groups)?.as_slice())?;
    Ok(lines)
}

/// The last line of a rebuild.
fn rebuilt_line(alloc: Global, kept: u32, skipped: u32) -> Result<Bytes, NoMemory>
    ensures { IfOk result (λ line. line ≡ rebuilt_text kept skipped) }
{
    let mut line = List::from_slice(alloc, b"END 0 REBUILT")?;
    put_counted(&mut line, alloc, b"kept", kept)?;
    put_counted(&mut line, alloc, b"skipped", skipped)?;
    line.push(b'\n')?;
    Ok(line)
}

/// The last line of a run whose script is refused.
fn script_line(alloc: Global, end: ScriptEnd) -> Result<Bytes, NoMemory>
    ensures { IfOk result (λ line. line ≡ script_text end) }
{
    match end {
        ScriptEnd::BadLine { line } => numbered_line(alloc, b"FAULT 5 LINE ", u64::from(line)),
        ScriptEnd::TooLong => Ok(List::from_slice(alloc, b"FAULT 5 TOO LONG\n")?),
        ScriptEnd::ShortLiteral { line } => {
            numbered_line(alloc, b"FAULT 5 SHORT LITERAL ", u64::from(line))
        }
        ScriptEnd::NoMemory => Ok(List::from_slice(alloc, b"FAULT 4 MEMORY\n")?),
    }
}

/// A place of the log: its file and the offset in it.
fn put_place(line: &mut Bytes, alloc: Global, mark: Mark) -> Result<(), NoMemory>
    ensures { OnOk result (line.new ≡ line.old ++ place_text mark) }
{
    line.extend(decimal_text(alloc, u64::from(mark.file_seq))?.as_slice())?;
    line.push(b':')?;
    line.extend(decimal_text(alloc, u64::from(mark.offset))?.as_slice())?;
    Ok(())
}

/// The last line of a run whose folder has a snapshot that its log doesn't go on.
fn gap_line(alloc: Global, index: Mark, log: Mark) -> Result<Bytes, NoMemory>
    ensures { IfOk result (λ line. line ≡ fault_text (fault.Gap index log)) }
{
    let mut line = List::from_slice(alloc, b"FAULT 3 Gap ")?;
    put_place(&mut line, alloc, index)?;
    line.push(b' ')?;
    put_place(&mut line, alloc, log)?;
    line.push(b'\n')?;
    Ok(line)
}

/// The last line of a run whose folder isn't opened or made.
fn fault_line(alloc: Global, fault: OpenFault) -> Result<Bytes, NoMemory>
    ensures { IfOk result (λ line. line ≡ fault_text fault) }
{
    match fault {
        OpenFault::Disk(faults) => numbered_line(alloc, b"FAULT 2 DISK ", faults),
        OpenFault::NoMemory => Ok(List::from_slice(alloc, b"FAULT 4 MEMORY\n")?),
        OpenFault::NoLog => Ok(List::from_slice(alloc, b"FAULT 3 NoLog\n")?),
        OpenFault::BadLogHeader => Ok(List::from_slice(alloc, b"FAULT 3 BadLogHeader\n")?),
        OpenFault::BadRecord { offset } => {
            numbered_line(alloc, b"FAULT 3 BadRecord ", u64::from(offset))
        }
        OpenFault::BadIndex => Ok(List::from_slice(alloc, b"FAULT 3 BadIndex\n")?),
        OpenFault::Gap { index, log } => gap_line(alloc, index, log),
    }
}

/// The last line of a run that ends so; behind a generated load there are two.
fn last_line(alloc: Global, end: &End) -> Result<Bytes, NoMemory>
    ensures { IfOk result (λ line. line ≡ text_of end.now) }
{
    match end {
        End::Answered {
            mark,
            groups,
            loaded,
        } => answered_lines(alloc, *mark, *groups, loaded),
        End::Rebuilt { kept, skipped } => rebuilt_line(alloc, *kept, *skipped),
        End::Usage => Ok(List::from_slice(alloc, b"FAULT 1 USAGE\n")?),
        End::Unopened(fault) => fault_line(alloc, *fault),
        End::NoMemory => Ok(List::from_slice(alloc, b"FAULT 4 MEMORY\n")?),
        End::Script(fault) => script_line(alloc, *fault),
        End::Source(faults) => numbered_line(alloc, b"FAULT 6 SOURCE ", *faults),
        End::Sink => Ok(List::new(alloc)),
    }
}

/// Writes a text and gives the status, or 7 where the output fails.
pub fn write_text<O: Sink>(out: &mut O, text: &[u8], status: u8) -> u8
    requires { status < 7 }
    ensures text { O.sees.tells →
        ((result ≡ status) × Appends (O.sees.taken out.old) (O.sees.taken out.new) text.now)
        ⊎ ((result ≡ 7) × AppendsFront (O.sees.taken out.old) (O.sees.taken out.new) text.now) }
    ensures status { (result ≡ status) ⊎ (result ≡ 7) }
    ensures later { O.sees.fault_count out.old ≤ O.sees.fault_count out.new }
    ensures cause { result ≡ 7 → Rose (O.sees.fault_count out.old) (O.sees.fault_count out.new) }
{
    match out.write_all(text) {
        Ok(()) => status,
        Err(_) => 7,
    }
}

/// Writes the last line of a run that ends so, where the output hasn't failed before, and gives
/// the run's status. Where memory for the line runs out the line is that of status 4.
pub fn conclude<O: Sink>(alloc: Global, out: &mut O, end: &End) -> u8
    ensures text { O.sees.tells →
        Concludes end.now result (O.sees.taken out.old) (O.sees.taken out.new) }
    ensures status { IsStatus end.now result }
    ensures later { O.sees.fault_count out.old ≤ O.sees.fault_count out.new }
    ensures cause { result ≡ 7 →
        (end.now ≡ how.Sink) ⊎ Rose (O.sees.fault_count out.old) (O.sees.fault_count out.new) }
{
    match end {
        End::Usage => write_text(out, b"FAULT 1 USAGE\n", 1),
        End::NoMemory => write_text(out, b"FAULT 4 MEMORY\n", 4),
        End::Sink => 7,
        _ => write_formatted(alloc, out, end),
    }
}

/// Writes a last line that takes memory.
fn write_formatted<O: Sink>(alloc: Global, out: &mut O, end: &End) -> u8
    requires { is_plain end.now ≡ false }
    ensures text { O.sees.tells →
        Concludes end.now result (O.sees.taken out.old) (O.sees.taken out.new) }
    ensures status { IsStatus end.now result }
    ensures later { O.sees.fault_count out.old ≤ O.sees.fault_count out.new }
    ensures cause { result ≡ 7 → Rose (O.sees.fault_count out.old) (O.sees.fault_count out.new) }
{
    match last_line(alloc, end) {
        Ok(line) => write_text(out, line.as_slice(), status(end)),
        Err(_) => write_text(out, b"FAULT 4 MEMORY\n", 4),
    }
}
