//! A script over a new folder in memory, whose power is cut behind some calls.
use crate::run_until_cut;
use dv_cli::Ran;
use dv_model::{Bytes, List};
use dv_shelf::{MemClock, MemShelf, MemSink, MemSource, OpenGate};
use std::alloc::Global;
use std::test::Fail;

const SCRIPT: &[u8] = b"a SELECT\na APPEND () {1}\nx\n";

/// The output of a run that is cut behind so many calls.
fn output_behind(alloc: Global, calls: u64) -> Result<Bytes, Fail> {
    let mut words = Vec::new(alloc);
    words.push(String::from_str(alloc, "run")?)?;
    let shelf = MemShelf::new(alloc, 1_000_000, List::new(alloc), None)?;
    let mut script = MemSource::new(alloc, List::from_slice(alloc, SCRIPT)?, List::new(alloc));
    let mut out = MemSink::new(alloc, 1_000_000, List::new(alloc))?;
    let clock = MemClock::new(alloc, List::from_slice(alloc, &[1000, 1001])?);
    let Ran {
        status: _status,
        told: _told,
        shelf: _shelf,
        clock: _clock,
    } = run_until_cut(
        alloc,
        words.as_slice(),
        shelf,
        calls,
        &mut script,
        &mut out,
        clock,
        &OpenGate,
    );
    Ok(List::from_slice(alloc, out.taken())?)
}

#[test]
fn a_cut_ends_what_is_kept(rt: HostRuntime) -> Result<(), Fail> {
    let alloc = rt.alloc();
    for (calls, end) in [
        (0, "FAULT 2 DISK 1\n"),
        (1, "FAULT 2 DISK 1\n"),
        (2, "END 0 MARK 1:56 GROUPS 0\n"),
        (1000, " GROUPS 1\n"),
    ] {
        let output = output_behind(alloc, calls)?;
        assert!(rt;
            output.as_slice().ends_with(end.as_bytes()),
            "behind {calls}"
        );
    }
    Ok(())
}
