//! The program's call once more, run to status 0 with commands of every kind over the mailbox of
//! data/box: the program itself is run to another status.
#![tactic(auto)]

use dv_folder::Output;
use dv_program::{ErrorOutput, obey_read, words_given};
use std::process::ExitCode;

fn main(rt: HostRuntime) -> ExitCode {
    let mut out = Output::new(rt);
    let mut errors = ErrorOutput::new(rt);
    ExitCode::from(obey_read(rt, &rt, &mut out, &mut errors, words_given(rt)))
}
