//! How cases are played.

use dv_model::NoMemory;
use std::alloc::Global;
use std::test::Fail;

/// What is done, and what must come of it.
pub trait Case {
    /// Whether it comes of it. `NoMemory` is the only error.
    fn holds(&self, alloc: Global) -> Result<bool, NoMemory>;
}

/// Plays cases, each with its name. Fails by the name of the first that isn't as it says.
pub fn all_hold<C: Case>(alloc: Global, cases: &[(&'static str, C)]) -> Result<(), Fail> {
    for (name, case) in cases {
        match case.holds(alloc) {
            Ok(true) => {}
            _ => return Err(Fail::from(*name)),
        }
    }
    Ok(())
}
