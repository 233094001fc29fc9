//! Generated calls, run after run, beside a plain model of a storage: over one folder, over folders
//! some calls of which fail, and over one that is stopped. Behind failures and a stop each folder
//! that may be left is asked for every message and its references.

use crate::following::follow;
use crate::model::{Model, Step, Word, write_step};
use crate::runs::{Left, play, shelf_of};
use dv_mdbox_serving::StorageEnd;
use dv_model::{Bytes, List};
use dv_shelf::Folder;
use std::alloc::Global;
use std::test::*;

/// Numbers without order (Numerical Recipes, section 7.1).
#[derive(Clone, Copy)]
struct Numbers {
    seed: u32,
}

impl Numbers {
    fn next(&mut self, below: u32) -> u32 {
        self.seed = self
            .seed
            .wrapping_mul(1_664_525)
            .wrapping_add(1_013_904_223);
        if below == 0 {
            0
        } else {
            (self.seed >> 8) % below
        }
    }
}

// So many calls on a storage that has ids up to this one.
fn generate(
    alloc: Global,
    numbers: &mut Numbers,
    last: u32,
    calls: u32,
) -> Result<Vec<Step>, Fail> {
    let mut steps = Vec::new(alloc);
    let mut most = last;
    for _ in 0..calls {
        let id = numbers.next(most.saturating_add(2));
        let word = match numbers.next(12) {
            0 | 1 | 2 => Word::Save,
            3 | 4 => Word::Copy,
            5 | 6 | 7 | 8 => Word::Drop,
            9 | 10 => Word::Get,
            _ => Word::Purge,
        };
        if word == Word::Save {
            most = most.saturating_add(1);
            steps.push(Step {
                word,
                id: numbers.seed,
            })?;
        } else {
            steps.push(Step { word, id })?;
        }
    }
    Ok(steps)
}

// Each id with its message, and more drops than it has references.
fn questions(alloc: Global, model: &Model) -> Result<Vec<Step>, Fail> {
    let mut steps = Vec::new(alloc);
    for id in 0..model.next().saturating_add(2) {
        steps.push(Step {
            word: Word::Get,
            id,
        })?;
        for _ in 0..4 {
            steps.push(Step {
                word: Word::Drop,
                id,
            })?;
        }
    }
    Ok(steps)
}

fn script_of(alloc: Global, steps: &[Step]) -> Result<Bytes, Fail> {
    let mut script = Bytes::new(alloc);
    for step in steps {
        write_step(alloc, &mut script, *step)?;
    }
    Ok(script)
}

// ---- without failures

// The files behind these calls, where they are answered as the model is.
fn played(
    alloc: Global,
    folder: &Folder,
    model: &mut Model,
    steps: &[Step],
) -> Result<Option<Folder>, Fail> {
    let script = script_of(alloc, steps)?;
    let shelf = shelf_of(alloc, folder, &[], None)?;
    let Left { end, output, shelf } = play(alloc, shelf, script.as_slice())?;
    let StorageEnd::Answered { .. } = end else {
        return Ok(None);
    };
    match follow(alloc, model, steps, output.as_slice())? {
        Some(cut) if cut.is_empty() => Ok(shelf.images(alloc)?.into_vec().pop()),
        _ => Ok(None),
    }
}

// How many runs of 50 calls, each over what the one before left, are answered as the model is.
fn runs_alike(alloc: Global, seed: u32, runs: u32) -> Result<u32, Fail> {
    let mut numbers = Numbers { seed };
    let mut folder = List::new(alloc);
    let mut model = Model::new(alloc);
    for run in 0..runs {
        let steps = generate(alloc, &mut numbers, model.next(), 50)?;
        match played(alloc, &folder, &mut model, steps.as_slice())? {
            Some(left) => folder = left,
            None => return Ok(run),
        }
    }
    Ok(runs)
}

// ---- with failures

// Whether a folder is answered as the model is, or as it is behind one of these calls.
fn is_either(alloc: Global, image: &Folder, model: &Model, cut: &[Step]) -> Result<bool, Fail> {
    let mut asked = model.copy(alloc)?;
    let steps = questions(alloc, model)?;
    let script = script_of(alloc, steps.as_slice())?;
    let Left { output, .. } = play(alloc, shelf_of(alloc, image, &[], None)?, script.as_slice())?;
    if follow(alloc, &mut asked, steps.as_slice(), output.as_slice())?.is_some() {
        return Ok(true);
    }
    for step in cut {
        let mut asked = model.copy(alloc)?;
        asked.apply(*step)?;
        if follow(alloc, &mut asked, steps.as_slice(), output.as_slice())?.is_some() {
            return Ok(true);
        }
    }
    Ok(false)
}

// Whether a run over a new folder, some calls of which fail, is answered as the model is, and each
// folder that may be left, too.
fn is_kept(alloc: Global, steps: &[Step], fails: &[u32], stop: Option<u32>) -> Result<bool, Fail> {
    let mut model = Model::new(alloc);
    let script = script_of(alloc, steps)?;
    let shelf = shelf_of(alloc, &List::new(alloc), fails, stop)?;
    let Left { end, output, shelf } = play(alloc, shelf, script.as_slice())?;
    let made = match end {
        StorageEnd::Answered { .. } => steps,
        _ => &[],
    };
    let Some(cut) = follow(alloc, &mut model, made, output.as_slice())? else {
        return Ok(false);
    };
    for image in shelf.images(alloc)?.as_slice() {
        if !is_either(alloc, image, &model, cut.as_slice())? {
            return Ok(false);
        }
    }
    Ok(true)
}

// Each call of the folder fails that is the last of so many.
fn every(alloc: Global, gap: u32) -> Result<Vec<u32>, Fail> {
    let mut fails = Vec::new(alloc);
    for nth in 1..400 {
        fails.push(gap.saturating_mul(nth))?;
    }
    Ok(fails)
}

// The first number of calls of the folder of which each last one fails, or behind which it is
// stopped, with which it isn't so.
fn first_lost(alloc: Global, steps: &[Step]) -> Result<Option<u32>, Fail> {
    for gap in 1..100 {
        let fails = every(alloc, gap)?;
        if !is_kept(alloc, steps, fails.as_slice(), None)? {
            return Ok(Some(gap));
        }
        if !is_kept(alloc, steps, &[], Some(gap))? {
            return Ok(Some(gap));
        }
    }
    Ok(None)
}

// Two messages are saved, the first is dropped, and a purge moves the other.
const MOVED: [Step; 5] = [
    Step {
        word: Word::Save,
        id: 7,
    },
    Step {
        word: Word::Save,
        id: 8,
    },
    Step {
        word: Word::Drop,
        id: 1,
    },
    Step {
        word: Word::Purge,
        id: 0,
    },
    Step {
        word: Word::Get,
        id: 2,
    },
];

#[test]
fn mixed_calls_are_answered_as_a_model_is(rt: HostRuntime) -> Result<(), Fail> {
    assert_eq!(rt; runs_alike(rt.alloc(), 1, 100)?, 100);
    assert_eq!(rt; runs_alike(rt.alloc(), 2, 100)?, 100);
    Ok(())
}

#[test]
fn failures_and_stops_leave_what_was_answered(rt: HostRuntime) -> Result<(), Fail> {
    assert_eq!(rt; first_lost(rt.alloc(), &MOVED)?, None);
    let mut numbers = Numbers { seed: 3 };
    let steps = generate(rt.alloc(), &mut numbers, 0, 40)?;
    assert_eq!(rt; first_lost(rt.alloc(), steps.as_slice())?, None);
    Ok(())
}
