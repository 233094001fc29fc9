//! The answers of a run beside a model.

use crate::model::{Model, Step, Word};
use std::alloc::Global;
use std::test::Fail;

// Whether this text stands there.
fn is_at(output: &[u8], at: usize, text: &[u8]) -> bool {
    match output.get(at..) {
        Some(rest) => rest.starts_with(text),
        None => false,
    }
}

// Where the line that stands there ends.
fn line_end(output: &[u8], at: usize) -> usize {
    let rest = output.get(at..).unwrap_or(&[]);
    let line = rest.iter().position(|b| *b == b'\n').unwrap_or(rest.len());
    at.saturating_add(line).saturating_add(1)
}

/// Makes the model that behind these calls, by the output of a run. The calls that the disk failed
/// since the last one that wrote are handed out, and none where an answer isn't the model's.
pub fn follow(
    alloc: Global,
    model: &mut Model,
    steps: &[Step],
    output: &[u8],
) -> Result<Option<Vec<Step>>, Fail> {
    let mut at: usize = 0;
    let mut cut = Vec::new(alloc);
    for step in steps {
        let refused = model.refuses(*step);
        let wanted = model.answer(alloc, *step)?;
        if is_at(output, at, wanted.as_slice()) {
            at = line_end(output, at.saturating_add(wanted.len()).saturating_sub(1));
            if !refused && step.word != Word::Get {
                model.apply(*step)?;
                cut.clear();
            }
        } else if !refused && is_at(output, at, b"NO DISK ") {
            at = line_end(output, at);
            if step.word == Word::Purge {
                model.gone = None;
            }
            cut.push(*step)?;
        } else {
            return Ok(None);
        }
    }
    Ok((at == output.len()).then(|| cut))
}
