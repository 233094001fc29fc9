ghost use Rattle.std.specs.Prelude.{◌≡◌, ◌+◌, ◌<◌, ◌≤◌, ◌++◌, [], ℕ, List, length, take, IfOk, IfErr, OnOk};
ghost use Rattle.dv_model.specs.Counts.{Rose};
ghost use Rattle.dv_cli.specs.Readings.{IsSourceFault, read_limit};

use dv_model::{Bytes, List};
use dv_shelf::Source;
use std::alloc::{AllocError, Global};

/// The longest script that is parsed, in bytes.
const SCRIPT_LIMIT: usize = 67108864;

/// The bytes that are read at once.
const CHUNK: usize = 8192;

/// Why a script can't be read.
#[derive(Clone, Copy, PartialEq, Eq, Debug)]
pub enum ReadEnd {
    /// A read failed; the count of the source's faults.
    Source(u64),
    NoMemory,
}

impl From<AllocError> for ReadEnd {
    ghost use Rattle.dv_cli.specs.declared.reading.ReadEnd.TheVariants as how;

    ghost from_gives = { λ _ e. e ≡ how.NoMemory };

    fn from(_: AllocError) -> ReadEnd {
        ReadEnd::NoMemory
    }
}

/// Adds the next bytes of the script, at most so many that it is one byte longer than the limit.
/// 0 comes only at the script's end.
fn read_more<I: Source>(script: &mut I, text: &mut Bytes) -> Result<usize, ReadEnd>
    requires { length text.old < read_limit }
    ensures took { I.sees.tells →
        (added : List ℕ) × (I.sees.left script.old ≡ added ++ I.sees.left script.new)
        × (length text.old + length added ≤ read_limit)
        × IfOk result
        (λ n. (text.new ≡ text.old ++ added) × (n ≡ 0 → I.sees.left script.old ≡ [])) }
    ensures size { IfOk result (λ n.
        (length text.new ≡ length text.old + n) × (length text.new ≤ read_limit)) }
    ensures later { I.sees.fault_count script.old ≤ I.sees.fault_count script.new }
    ensures cause { IfErr result (λ e.
        IsSourceFault e (I.sees.fault_count script.old) (I.sees.fault_count script.new)) }
{
    let mut buffer = [0; CHUNK];
    let room = SCRIPT_LIMIT + 1 - text.len();
    let (front, _) = buffer.split_at_mut(room.min(CHUNK));
    match script.read(front) {
        Ok(n) => {
            let (added, _) = front.split_at(n);
            text.extend(added)?;
            Ok(n)
        }
        Err(_) => Err(ReadEnd::Source(script.faults())),
    }
}

/// The script, or its first 67,108,865 bytes where it is longer.
pub fn read_script<I: Source>(alloc: Global, script: &mut I) -> Result<Bytes, ReadEnd>
    ensures text { I.sees.tells →
        IfOk result (λ text. text ≡ take read_limit (I.sees.left script.old)) }
    ensures bound { I.sees.tells → (taken : List ℕ)
        × (I.sees.left script.old ≡ taken ++ I.sees.left script.new) × (length taken ≤ read_limit) }
    ensures later { I.sees.fault_count script.old ≤ I.sees.fault_count script.new }
    ensures cause { IfErr result (λ e.
        IsSourceFault e (I.sees.fault_count script.old) (I.sees.fault_count script.new)) }
{
    let mut text = List::new(alloc);
    while text.len() <= SCRIPT_LIMIT {
        if read_more(script, &mut text)? == 0 {
            return Ok(text);
        }
    }
    Ok(text)
}
