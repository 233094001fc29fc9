ghost use Rattle.std.specs.Prelude.{◌≡◌};
ghost use Rattle.dv_shelf.specs.Failures.{is_behind, is_listed};

use dv_model::List;

/// What a call that fails leaves behind.
#[derive(Clone, Copy, PartialEq, Eq)]
pub enum Trace {
    /// It has done nothing.
    Nothing,
    /// Reads see nothing of it, and a crash may leave what it did. A sync that failed is not made
    /// good by a later one.
    Hidden,
    /// The same, and reads see what it did; of a write half the bytes.
    Shown,
}

/// What becomes of a call.
#[derive(Clone, Copy, PartialEq, Eq)]
pub enum Turn {
    Passes,
    Fails(Trace),
}

/// Whether a call stands behind the last one that may pass.
pub fn is_behind(stop: Option<u32>, call: u64) -> bool
    ensures { result ≡ is_behind stop call }
{
    match stop {
        None => false,
        Some(stop) => u64::from(stop) < call,
    }
}

/// Whether a call is one of the list.
pub fn is_listed(listed: &List<u32>, call: u64) -> bool
    ensures { result ≡ is_listed listed.now call }
{
    listed.as_slice().iter().any(|k| u64::from(*k) == call)
}
