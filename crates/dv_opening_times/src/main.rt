//! Opens a mailbox folder, and says how long that took, beside how long its files take to read.
#![tactic(auto)]

use dv_chain::open;
use dv_folder::{Folder, Layout, Missing};
use dv_shelf::{Name, Shelf};
use std::process::ExitCode;
use std::time::Instant;
use std::{env, io};

const USAGE: &str = "usage: dv_opening_times FOLDER";

// The microseconds that it takes to read the files of which a folder is opened, one after another.
fn reading_time(rt: HostRuntime, shelf: &mut Folder) -> io::Result<u128> {
    let start = Instant::now(&rt)?;
    for name in [Name::Log, Name::Log2, Name::Index] {
        let file = shelf.read(rt.alloc(), name);
        drop(file);
    }
    Ok(start.elapsed(&rt)?.as_micros())
}

// Times the opening of a folder: microseconds, and the rows and the end of what is found.
fn time_folder(rt: HostRuntime, shelf: &mut Folder) -> io::Result<()> {
    let reading = reading_time(rt, shelf)?;
    let start = Instant::now(&rt)?;
    let opened = open(rt.alloc(), shelf);
    let opening = start.elapsed(&rt)?.as_micros();
    print!(rt; "read {reading} us, opened {opening} us, ")?;
    match opened {
        Ok(chain) => println!(rt; "{} rows, end {}", chain.live.count(), chain.log.end),
        Err(_) => println!(rt; "a fault"),
    }
}

// The folder that the only word names.
fn folder_named(rt: HostRuntime) -> Option<Folder> {
    let mut words = env::args(&rt).ok()?.skip(1);
    let path = words.next()?;
    if words.next().is_some() {
        return None;
    }
    Folder::new(
        rt.alloc(),
        rt,
        path.as_str(),
        Layout::Mailbox,
        Missing::Make,
    )
    .ok()
}

/// The status is 1 where the word, the output or the clock fails.
fn main(rt: HostRuntime) -> ExitCode {
    let Some(mut shelf) = folder_named(rt) else {
        let _ = println!(rt; "{USAGE}");
        return ExitCode::from(1);
    };
    match time_folder(rt, &mut shelf) {
        Ok(()) => ExitCode::from(0),
        Err(_) => ExitCode::from(1),
    }
}
