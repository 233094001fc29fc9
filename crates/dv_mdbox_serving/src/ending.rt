//! How calls, and a run of them, end.

use dv_model::{Mark, NoMemory, OpenFault};

/// Why a call ends the run.
#[derive(Clone, Copy, PartialEq, Eq, Debug)]
pub enum CallEnd {
    NoMemory,
    /// The output failed; the count of its faults.
    Sink(u64),
}

impl From<NoMemory> for CallEnd {
    ghost use Rattle.std.specs.Prelude.{◌≡◌};
    ghost use Rattle.dv_mdbox_serving.specs.declared.ending.CallEnd.TheVariants as call_end;

    ghost from_gives = { λ _ e. e ≡ call_end.NoMemory };

    fn from(_: NoMemory) -> CallEnd {
        CallEnd::NoMemory
    }
}

/// How a run over a storage's folder ends.
#[derive(Clone, Copy, PartialEq, Eq, Debug)]
pub enum StorageEnd {
    /// All calls were answered; the place behind the last group, and how many groups were written.
    Answered { mark: Mark, groups: u64 },
    /// The storage wasn't opened.
    Unopened(OpenFault),
    /// Memory ran out while a call was served.
    NoMemory,
    /// The output failed.
    Sink,
}
