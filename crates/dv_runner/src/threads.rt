//! Each job in a thread of its own.

ghost use Rattle.std.specs.Prelude.{All};
ghost use Rattle.dv_runner.specs.Runs.{HaveRun};
ghost use Rattle.dv_runner.specs.Works.{IsReady};

use crate::Job;
use crate::running::run_job;
use dv_keeper::Keeper;
use dv_naming::{Keeping, Tally};
use dv_shelf::{Clock, Gate, Shelf};
use std::alloc::Global;
use std::sync::Wait;
use std::thread;
use std::thread::Threads;

/// Runs each job's commands in a thread of its own, and joins all threads. Before each command the
/// gate is called, with its session's number and its own, from 1 on: also before one that is
/// refused, and never behind want of memory. Each session's replies are its transcript over the log
/// that it has seen, by the session rules: it is whole where all commands were answered; where
/// memory ran out its text ends with the last whole answer, and the other jobs go on. No jobs are a
/// good call. Where no thread can be made the jobs run one after another.
pub fn run_threads<
    S: Shelf + Send,
    C: Clock + Send,
    K: Keeping + Send + Sync,
    L: Tally + Send + Sync,
    M: Tally + Send + Sync,
    G: Gate + Sync,
    R: Threads + Wait + Sync,
>(rt: &R, alloc: Global, keeper: &Keeper<S, C, K, L, M>, jobs: &mut [Job<K, L, M>], gate: &G)
    requires { All (IsReady K.start) jobs.old }
    ensures { HaveRun K.start K.count K.honest jobs.old jobs.new }
{
    let count = jobs.len();
    if count == 0 {
        return;
    }
    thread::for_each_mut(
        rt,
        jobs,
        count,
        &|_, job| run_job(rt, alloc, keeper, gate, job),
    );
}
