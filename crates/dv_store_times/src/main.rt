//! Writes to a store of a mailbox of many messages, and says how long each kind of command took.
#![tactic(auto)]

mod fault;
mod stores;

use crate::fault::Fault;
use crate::stores::{EXPUNGES, WRITES, time_in_folder, time_in_memory};
use dv_folder::{Folder, Layout, Missing};
use dv_model::List;
use std::env;
use std::io::Read;
use std::process::ExitCode;

const USAGE: &str = "usage: dv_store_times ROWS < SNAPSHOT, or dv_store_times ROWS FOLDER";

// Times a store in memory, whose snapshot is standard input.
fn time_store(rt: HostRuntime, rows: u32) -> Result<(), Fault> {
    let mut bytes = Vec::new(rt.alloc());
    rt.stdin().read_to_end(&mut bytes)?;
    let times = time_in_memory(rt, rows, List::from_vec(bytes))?;
    println!(rt;
        "{rows} rows, {WRITES} appends {} us, as many changes {} us",
        times.appends, times.changes
    )?;
    Ok(())
}

// Times a store over a folder.
fn time_folder(rt: HostRuntime, rows: u32, path: &str) -> Result<(), Fault> {
    let Ok(folder) = Folder::new(rt.alloc(), rt, path, Layout::Mailbox, Missing::Make) else {
        return Err(Fault::NotOpened);
    };
    let times = time_in_folder(rt, rows, folder)?;
    println!(rt;
        "{rows} rows, {EXPUNGES} expunges {} us, a check {} us",
        times.expunges, times.check
    )?;
    Ok(())
}

// What the words ask for, or nothing where they are none or wrong.
fn time(rt: HostRuntime) -> Option<Result<(), Fault>> {
    let mut words = env::args(&rt).ok()?.skip(1);
    let rows = words.next()?.as_str().parse().ok()?;
    match words.next() {
        Some(path) => Some(time_folder(rt, rows, path.as_str())),
        None => Some(time_store(rt, rows)),
    }
}

/// Standard input is the snapshot of a mailbox of ROWS messages at the end of a new log, where no
/// FOLDER of such a mailbox is named. The status is 1 where anything is wrong.
fn main(rt: HostRuntime) -> ExitCode {
    match time(rt) {
        Some(Ok(())) => ExitCode::from(0),
        Some(Err(fault)) => {
            let _ = println!(rt; "{fault}");
            ExitCode::from(1)
        }
        None => {
            let _ = println!(rt; "{USAGE}");
            ExitCode::from(1)
        }
    }
}
