ghost use Rattle.std.specs.Prelude.{◌≡◌, ◌+◌, ◌-◌, ◌≤◌, ◌++◌, true, length, drop, vec_len, vec_capacity, IfOk, IsOk, OnErr, OnOk};
ghost use mathlib.Core.List.{IsPrefix};
ghost use Rattle.dv_front.specs.Ends.{known, loaded};
ghost use Rattle.dv_front.specs.Notes.{AreGood};
ghost use Rattle.dv_feed.specs.Taking.{taken_up, told_by};

use dv_front::{FrontWord, Pass, load_front, load_word, skip_to, words_taken};
use dv_model::{List, NoMemory};
use std::alloc::Global;
use std::mem;

/// Whether there may be more words.
#[derive(Clone, Copy, PartialEq, Eq, Debug)]
pub enum Taken {
    Fresh,
    /// The generation is sealed: these were its last words.
    Rotated,
}

/// Loads the number of published words once, and adds all words up to it that the pass hasn't
/// taken. After `NoMemory` the list is as before, and the next call adds these words too. Where no
/// word is new no memory is taken.
pub fn take(alloc: Global, p: &mut Pass, out: &mut List<u32>) -> Result<Taken, NoMemory>
    // The notes up to the loaded number go on from those that were known, and are good.
    ensures begins { IsPrefix p.old.notes p.new.notes }
    ensures good { AreGood p.new.generation p.new.notes }
    ensures last { p.old.sealed ≡ true → (p.new.sealed ≡ true) × (p.new.notes ≡ p.old.notes) }
    // Their number was loaded once, and all of their words are taken.
    ensures ok { OnOk result (p.new ≡ taken_up (loaded p.old p.new.notes p.new.sealed)) }
    ensures words { OnOk result (out.new ≡ out.old ++ drop p.old.taken (known p.new)) }
    ensures told { IfOk result (λ taken. taken ≡ told_by p.new.sealed) }
    // Nothing is taken without memory, which is asked for only where a word is new.
    ensures err { OnErr result (p.new ≡ loaded p.old p.new.notes p.new.sealed) }
    ensures kept { OnErr result (out.new ≡ out.old) }
    ensures unmoved { length (known p.new) ≤ p.old.taken → IsOk result }
{
    let front = load_front(p);
    let taken = words_taken(p);
    if taken < front.words {
        take_known(alloc, p, out, taken, front.words)?;
    }
    Ok(told(front))
}

/// Loads the number of published words once, and passes by all words up to it that the pass hasn't
/// taken: they count as taken, and are given to nobody. Takes no memory.
pub fn skip(p: &mut Pass) -> Taken
    ensures begins { IsPrefix p.old.notes p.new.notes }
    ensures good { AreGood p.new.generation p.new.notes }
    ensures last { p.old.sealed ≡ true → (p.new.sealed ≡ true) × (p.new.notes ≡ p.old.notes) }
    ensures all { p.new ≡ taken_up (loaded p.old p.new.notes p.new.sealed) }
    ensures told { result ≡ told_by p.new.sealed }
{
    let front = load_front(p);
    if words_taken(p) < front.words {
        skip_to(p, front.words);
    }
    told(front)
}

// Whether there may be more words behind these.
fn told(front: FrontWord) -> Taken
    ensures { result ≡ told_by front.sealed }
{
    if front.sealed {
        Taken::Rotated
    } else {
        Taken::Fresh
    }
}

// Takes the words that are known and weren't taken, or none for want of memory.
fn take_known(
    alloc: Global,
    p: &mut Pass,
    out: &mut List<u32>,
    taken: u32,
    count: u32,
) -> Result<(), NoMemory>
    requires taken { taken ≡ p.old.taken }
    requires known { (count ≡ length (known p.old)) × (taken ≤ count) }
    ensures ok { OnOk result (p.new ≡ taken_up p.old) }
    ensures words { OnOk result (out.new ≡ out.old ++ drop taken (known p.old)) }
    ensures err { OnErr result ((p.new ≡ p.old) × (out.new ≡ out.old)) }
{
    let mut words = mem::replace(out, List::new(alloc)).into_vec();
    match words.reserve((count - taken) as usize) {
        Err(_) => {
            *out = List::from_vec(words);
            Err(NoMemory)
        }
        Ok(()) => {
            take_words(p, &mut words, taken, count);
            *out = List::from_vec(words);
            Ok(())
        }
    }
}

// Takes the words that are known and weren't taken, in the room that is there.
#[tactic(auto, using(crate::proofs::TakenWords::took))]
fn take_words(p: &mut Pass, words: &mut Vec<u32>, taken: u32, count: u32)
    requires taken { taken ≡ p.old.taken }
    requires known { (count ≡ length (known p.old)) × (taken ≤ count) }
    requires room { vec_len words.old + (count - taken) ≤ vec_capacity words.old }
    ensures pass { p.new ≡ taken_up p.old }
    ensures words { words.new.items ≡ words.old.items ++ drop taken (known p.old) }
{
    for at in taken..count {
        let word = load_word(p, at + 1);
        words.push(word).unwrap();
    }
}
