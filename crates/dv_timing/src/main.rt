//! Parses a script, and says how long it took.
#![tactic(auto)]

use dv_script::parse;
use std::io;
use std::io::Read;
use std::process::ExitCode;
use std::time::Instant;

// Times the script on standard input: its lines, none where it isn't good, and microseconds.
fn time_input(rt: HostRuntime) -> io::Result<()> {
    let mut script = Vec::new(rt.alloc());
    rt.stdin().read_to_end(&mut script)?;
    if script.is_empty() {
        return println!(rt; "usage: dv_timing < SCRIPT");
    }
    let start = Instant::now(&rt)?;
    let lines = match parse(rt.alloc(), script.as_slice()) {
        Ok(lines) => lines.len(),
        Err(_) => 0,
    };
    let time = start.elapsed(&rt)?.as_micros();
    println!(rt; "{lines} lines, {time} us")
}

/// The status is 1 where the input, the output or the clock failed.
fn main(rt: HostRuntime) -> ExitCode {
    match time_input(rt) {
        Ok(()) => ExitCode::from(0),
        Err(_) => ExitCode::from(1),
    }
}
