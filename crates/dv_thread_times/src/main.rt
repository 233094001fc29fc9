//! Has sessions answer the same commands again and again, each in a thread of its own over one
//! mailbox, and tells at which moments they did.
#![tactic(auto)]

mod fault;
mod rounds;
mod script;
mod sessions;

use crate::fault::Fault;
use crate::rounds::Plan;
use crate::script::parts_of;
use crate::sessions::run_script;
use dv_folder::{Folder, Layout, Missing, SystemClock};
use std::env;
use std::io::{Eprint, Read};
use std::process::ExitCode;
use std::sync::Wait;
use std::thread::Threads;
use std::time::Clock;

const USAGE: &str = "usage: dv_thread_times FOLDER answer|watch ROUNDS MILLISECONDS RATE < SCRIPT";

// Runs the sessions of the script on standard input over the folder of this path.
fn run_input<R: Threads + Wait + Clock + Eprint + Sync>(
    rt: HostRuntime,
    threads: &R,
    path: &str,
    plan: Plan,
) -> Result<u64, Fault> {
    let alloc = rt.alloc();
    let mut text = Vec::new(alloc);
    rt.stdin().read_to_end(&mut text)?;
    let count = parts_of(alloc, text.as_slice())?.len();
    if count == 0 || count > 64 {
        return Err(Fault::BadScript);
    }
    let folder = Folder::new(alloc, rt, path, Layout::Mailbox, Missing::Make)?;
    let clock = SystemClock::new(rt);
    run_script(
        threads,
        alloc,
        folder,
        clock,
        count as u32,
        plan,
        text.as_slice(),
    )
}

// What the words ask for, or nothing where they are none or wrong.
fn run<R: Threads + Wait + Clock + Eprint + Sync>(
    rt: HostRuntime,
    threads: &R,
) -> Option<Result<u64, Fault>> {
    let mut words = env::args(&rt).ok()?.skip(1);
    let path = words.next()?;
    let watch = words.next()?.as_str() == "watch";
    let rounds = words.next()?.as_str().parse().ok()?;
    let milliseconds: u64 = words.next()?.as_str().parse().ok()?;
    let rate: u64 = words.next()?.as_str().parse().ok()?;
    let plan = Plan {
        rounds,
        span: milliseconds.saturating_mul(1_000_000),
        pace: if rate == 0 { 0 } else { 1_000_000_000 / rate },
        watch,
    };
    Some(run_input(rt, threads, path.as_str(), plan))
}

/// Each session of the script answers SELECT, and then goes on for so many rounds, which all begin
/// within so many milliseconds: in each it answers all of its commands, and drops the replies. The
/// first session's rounds begin no more often in a second than RATE, where that isn't 0. Once all
/// have ended the moments are told, on standard error, at which each round began and ended; with
/// `watch` all sessions but the first tell the rounds alone in which messages came. Standard output
/// has the number of groups that were written. The status is 1 where anything is wrong.
fn main(rt: HostRuntime) -> ExitCode {
    match run(rt, &rt) {
        Some(Ok(groups)) => {
            if println!(rt; "{groups} groups").is_ok() {
                return ExitCode::from(0);
            }
        }
        Some(Err(fault)) => {
            let _ = println!(rt; "{fault:?}");
        }
        None => {
            let _ = println!(rt; "{USAGE}");
        }
    }
    ExitCode::from(1)
}
