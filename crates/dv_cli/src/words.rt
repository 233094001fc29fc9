//! What the program's words behind the folder's ask for.

ghost use Rattle.std.specs.Prelude.{◌≡◌, ◌⊎◌, ◌+◌, ◌^◌, ◌<◌, ◌≤◌, ◌∷◌, [], IfErr, IfOk, IfSome, map, string_bytes};
ghost use Rattle.dv_formats.specs.Parsing.{number_of};
ghost use Rattle.dv_cli.specs.Words.{IsLoad, IsResync, IsTask, IsWatch, load_of, task_of};

use dv_catching::client_of;
use dv_commands::read_decimal;
use dv_model::{Key, NoMemory};
use dv_qresync::Old;
use dv_watching::steady_key;
use std::alloc::Global;

/// The most commands that are generated, not counting a SELECT of each session.
const MOST_COMMANDS: u32 = 1_000_000;

/// The most sessions of a script.
const MOST_SESSIONS: u32 = 64;

/// A load that is generated: from its seed, so many commands of so many sessions.
#[derive(Clone, Copy, PartialEq, Eq, Debug)]
pub struct Load {
    pub seed: u64,
    pub count: u32,
    pub sessions: u32,
}

/// What the words behind the folder's ask for.
#[derive(Drop)]
pub enum Task {
    /// The script is answered over the folder.
    Run,
    /// A damaged folder, or one that another server made, gets a new log.
    Rebuild,
    /// A generated script is answered over the folder, and no reply is written.
    Generate(Load),
    /// A client with an older state hears of the folder's mailbox.
    Resync(Old),
    /// The script is answered over the folder, beside a search with this key.
    Watch(Key),
    /// The calls of a script are answered by the storage of the folder.
    Storage,
}

/// A number of 64 bits is one.
fn is_wide(n: u64)
    ensures { n < 2 ^ 64 }
{}

/// The number of a word below 2^64, in decimal digits and without leading zeros.
fn seed_in(word: &[u8]) -> Option<u64>
    ensures { result ≡ number_of (2 ^ 64) word.now }
{
    let Some(n) = read_decimal(word) else {
        return None;
    };
    is_wide(n);
    Some(n)
}

/// The number of a word, so large at most.
fn number_up_to(most: u32, word: &[u8]) -> Option<u32>
    ensures is { result ≡ number_of (1 + most) word.now }
    ensures small { IfSome result (λ n. n ≤ most) }
{
    let Some(n) = read_decimal(word) else {
        return None;
    };
    is_wide(n);
    if n <= u64::from(most) {
        Some(n as u32)
    } else {
        None
    }
}

/// The load that three words name.
fn load_of(seed: &[u8], count: &[u8], sessions: &[u8]) -> Option<Load>
    ensures is { result ≡ load_of seed.now count.now sessions.now }
    ensures some { IfSome result IsLoad }
{
    let seed = seed_in(seed)?;
    let count = number_up_to(MOST_COMMANDS, count)?;
    let sessions = number_up_to(MOST_SESSIONS, sessions)?;
    if sessions == 0 {
        return None;
    }
    Some(Load {
        seed,
        count,
        sessions,
    })
}

/// What a word and one behind it ask for, or nothing.
fn task_beside(alloc: Global, word: &str, key: &[u8]) -> Result<Option<Task>, NoMemory>
    ensures is { IfOk result (λ task. task ≡ task_of (word.now ∷ key.now ∷ [])) }
    ensures some { IfOk result (λ task. IfSome task IsTask) }
    ensures lacking { IfErr result (λ e. IsWatch (word.now ∷ key.now ∷ [])) }
{
    if word != "watch" {
        return Ok(None);
    }
    match steady_key(alloc, key)? {
        Some(key) => Ok(Some(Task::Watch(key))),
        None => Ok(None),
    }
}

/// What a word and three behind it ask for, or nothing.
fn task_with(
    alloc: Global,
    word: &str,
    first: &[u8],
    second: &[u8],
    third: &[u8],
) -> Result<Option<Task>, NoMemory>
    ensures is { IfOk result (λ task.
        task ≡ task_of (word.now ∷ first.now ∷ second.now ∷ third.now ∷ [])) }
    ensures some { IfOk result (λ task. IfSome task IsTask) }
    ensures lacking { IfErr result (λ e.
        IsResync (task_of (word.now ∷ first.now ∷ second.now ∷ third.now ∷ []))) }
{
    if word == "gen" {
        return match load_of(first, second, third) {
            Some(load) => Ok(Some(Task::Generate(load))),
            None => Ok(None),
        };
    }
    if word != "resync" {
        return Ok(None);
    }
    match client_of(alloc, first, second, third)? {
        Some(client) => Ok(Some(Task::Resync(client))),
        None => Ok(None),
    }
}

/// What the words behind the folder's ask for, or nothing. Memory lacks only where a client's state
/// is among them, or what may be a key.
pub fn task_of(alloc: Global, words: &[String]) -> Result<Option<Task>, NoMemory>
    ensures is { IfOk result (λ task. task ≡ task_of (map string_bytes words.now)) }
    ensures some { IfOk result (λ task. IfSome task IsTask) }
    ensures lacking { IfErr result (λ e. IsWatch (map string_bytes words.now)
        ⊎ IsResync (task_of (map string_bytes words.now))) }
{
    match words {
        [word] if word.as_str() == "run" => Ok(Some(Task::Run)),
        [word] if word.as_str() == "rebuild" => Ok(Some(Task::Rebuild)),
        [word] if word.as_str() == "mdbox" => Ok(Some(Task::Storage)),
        [word, key] => task_beside(alloc, word.as_str(), key.as_bytes()),
        [word, first, second, third] => task_with(
            alloc,
            word.as_str(),
            first.as_bytes(),
            second.as_bytes(),
            third.as_bytes(),
        ),
        _ => Ok(None),
    }
}
