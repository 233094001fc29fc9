ghost use Rattle.std.specs.Prelude.{◌≡◌, ◌≤◌, IfOk, length, map};
ghost use Rattle.dv_formats.specs.Generators.{generated};
ghost use Rattle.dv_formats.specs.Scripts.{sessions_of};
ghost use Rattle.dv_gen.specs.Lines.{line_of};
ghost use Rattle.dv_gen.specs.LinesToCome.{lines_to_come};

use crate::GeneratedLines;
use dv_model::{List, NoMemory};
use dv_script::{Line, all_lines};
use std::alloc::Global;

/// The lines of the script that a seed stands for, made one by one: a SELECT of each session, and
/// then `count` commands by turns of the sessions, by Knuth's MMIX generator modulo 2^64. A script
/// has at most 64 sessions.
#[tactic(auto, using(crate::proofs::Steps::starts, crate::proofs::Sessions::sessions_are))]
pub fn generated_lines(alloc: Global, seed: u64, count: u32, sessions: u32) -> GeneratedLines
    requires some { 1 ≤ sessions }
    requires few { sessions ≤ 64 }
    ensures lines { lines_to_come result ≡ generated seed count sessions }
    // So many sessions are named.
    ensures sessions { length (sessions_of (lines_to_come result)) ≡ sessions }
{
    GeneratedLines {
        alloc,
        sessions,
        count,
        selects: 0,
        commands: 0,
        state: seed,
    }
}

/// The script that a seed stands for, as a list. `NoMemory` is the only error.
pub fn script(alloc: Global, seed: u64, count: u32, sessions: u32) -> Result<List<Line>, NoMemory>
    requires some { 1 ≤ sessions }
    requires few { sessions ≤ 64 }
    ensures { IfOk result (λ lines. lines ≡ map line_of (generated seed count sessions)) }
{
    let mut lines = generated_lines(alloc, seed, count, sessions);
    all_lines(alloc, &mut lines)
}
