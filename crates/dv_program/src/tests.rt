mod pop3;
mod real;
mod threads;

use crate::program::obey_read;
use dv_model::List;
use dv_shelf::MemSink;
use std::alloc::{AllocError, Global};
use std::process;
use std::sync::Wait;
use std::test::Fail;
use std::thread::Threads;

fn path_of(rt: HostRuntime, name: &str) -> Result<String, Fail> {
    let id = process::id(rt.process());
    Ok(format!(in rt.alloc(); "{name}_of_test_{id}")?)
}

fn strings(alloc: Global, words: &[&str]) -> Result<Vec<String>, AllocError> {
    let mut strings = Vec::new(alloc);
    for word in words {
        strings.push(String::from_str(alloc, word)?)?;
    }
    Ok(strings)
}

/// What the program writes to its output and to standard error by these words, and its status.
fn obeyed<R: Threads + Wait + Sync>(
    rt: HostRuntime,
    threads: &R,
    words: &[&str],
) -> Result<(u8, MemSink, MemSink), Fail> {
    let alloc = rt.alloc();
    let mut out = MemSink::new(alloc, 10_000, List::new(alloc))?;
    let mut errors = MemSink::new(alloc, 10_000, List::new(alloc))?;
    let words = strings(alloc, words)?;
    let status = obey_read(rt, threads, &mut out, &mut errors, Ok(Ok(words)));
    Ok((status, out, errors))
}

/// How often a word stands in a text.
fn count_of(text: &[u8], word: &[u8]) -> usize {
    let mut count = 0;
    for at in 0..text.len() {
        let (_, rest) = text.split_at(at);
        if rest.starts_with(word) && count < 1000 {
            count += 1;
        }
    }
    count
}
