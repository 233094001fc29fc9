//! Applies the records of a log to a live mailbox, and says how long it took; sessions may be told
//! of each record, or a kept search follow it. Or plays sessions over one log, whose steps come in
//! any order.
#![tactic(auto)]

ghost use Rattle.std.specs.Prelude.{All, IfOk};
ghost use Rattle.dv_model.specs.Spelling.{IsRecord};

mod fault;
mod kept;
mod records;
mod sessions;
mod timing;
mod worlds;

use crate::fault::Fault;
use crate::records::read_all;
use crate::timing::{Times, Way, time_records};
use dv_model::Record;
use std::env;
use std::io::Read;
use std::process::ExitCode;

const USAGE: &str =
    "usage: dv_bench FIRST [touched | sessions | kept] < RECORDS, or dv_bench ROWS worlds";

// What is timed.
#[derive(Clone, Copy)]
enum Task {
    // Standard input's records, of which so many come first.
    Records(u32, Way),
    // Sessions over a log with so many messages.
    Worlds(u32),
}

fn task_of(first: u32, word: &str) -> Option<Task> {
    match word {
        "touched" => Some(Task::Records(first, Way::Touched)),
        "sessions" => Some(Task::Records(first, Way::Sessions)),
        "kept" => Some(Task::Records(first, Way::Kept)),
        "worlds" => Some(Task::Worlds(first)),
        _ => None,
    }
}

// What the words ask for.
fn asked(rt: HostRuntime) -> Option<Task> {
    let mut words = env::args(&rt).ok()?.skip(1);
    let first = words.next()?.as_str().parse().ok()?;
    let Some(word) = words.next() else {
        return Some(Task::Records(first, Way::Alone));
    };
    if words.next().is_some() {
        return None;
    }
    task_of(first, word.as_str())
}

// Standard input's records.
fn input(rt: HostRuntime) -> Result<Vec<Record>, Fault>
    ensures { IfOk result (λ records. All IsRecord records.items) }
{
    let mut bytes = Vec::new(rt.alloc());
    rt.stdin().read_to_end(&mut bytes)?;
    read_all(rt.alloc(), bytes.as_slice())
}

// Tells how long these records took.
fn tell(rt: HostRuntime, records: usize, times: Times, way: Way) -> Result<(), Fault> {
    let others = times.others;
    match way {
        Way::Sessions => println!(rt; "{} lines told", others.count)?,
        Way::Kept => println!(rt; "{} messages found", others.count)?,
        Way::Alone | Way::Touched => {}
    }
    println!(rt;
        "{records} records, first {} us, others {} us",
        times.first, others.micros
    )?;
    Ok(())
}

// Times standard input's records.
fn time_input(rt: HostRuntime, first: usize, way: Way) -> Result<(), Fault> {
    let records = input(rt)?;
    let times = time_records(rt, records.as_slice(), first, way)?;
    tell(rt, records.len(), times, way)
}

// Times sessions over a log with so many messages.
fn time_events(rt: HostRuntime, rows: u32) -> Result<(), Fault> {
    let (appends, events) = worlds::time_world(rt, rows)?;
    println!(rt;
        "{rows} appends {appends} us, {} events {events} us",
        worlds::EVENTS
    )?;
    Ok(())
}

fn time(rt: HostRuntime, task: Task) -> Result<(), Fault> {
    match task {
        Task::Records(first, way) => time_input(rt, first as usize, way),
        Task::Worlds(rows) => time_events(rt, rows),
    }
}

/// Standard input holds records as a log does behind its header. FIRST of them are applied before
/// the others. Of worlds ROWS messages are appended, and nothing is read. The status is 1 where
/// anything is wrong.
fn main(rt: HostRuntime) -> ExitCode {
    let Some(task) = asked(rt) else {
        let _ = println!(rt; "{USAGE}");
        return ExitCode::from(1);
    };
    match time(rt, task) {
        Ok(()) => ExitCode::from(0),
        Err(fault) => {
            let _ = println!(rt; "{fault}");
            ExitCode::from(1)
        }
    }
}
