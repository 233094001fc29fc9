//! What a run tells, as text.

ghost use Rattle.std.specs.Prelude.{◌≡◌, ◌++◌, ◌∷◌, [], codes, IfOk};
ghost use Rattle.dv_notices.specs.Tellings.{bad_line_text, told_text};

use crate::reports::report_text;
use dv_model::{Bytes, List, NoMemory};
use dv_rebuild::Rebuilt;
use std::alloc::Global;

/// What a run tells beside its output.
#[derive(Drop)]
pub enum Told {
    /// Nothing.
    Nothing,
    /// The script's first bad line, as it is told.
    BadLine(Bytes),
    /// What a rebuild found.
    Rebuilt(Rebuilt),
}

/// The line that tells a script's bad line.
fn bad_line_text(alloc: Global, bad: &[u8]) -> Result<Bytes, NoMemory>
    ensures { IfOk result (λ text. text ≡ bad_line_text bad.now) }
{
    let mut text = List::from_slice(alloc, b"bad line: ")?;
    text.extend(bad)?;
    text.push(b'\n')?;
    Ok(text)
}

/// The text that is told.
pub fn told_text(alloc: Global, told: &Told) -> Result<Bytes, NoMemory>
    ensures { IfOk result (λ text. text ≡ told_text told.now) }
{
    match told {
        Told::Nothing => Ok(List::new(alloc)),
        Told::BadLine(bad) => bad_line_text(alloc, bad.as_slice()),
        Told::Rebuilt(rebuilt) => report_text(alloc, rebuilt),
    }
}
