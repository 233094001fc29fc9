//! How a test ends.

use std::test::Fail;

/// Fails by the place of the first case that isn't as it says, where there is one.
pub fn no_other(other: Option<usize>) -> Result<(), Fail> {
    match other {
        Some(at) => Err(Fail::from(at)),
        None => Ok(()),
    }
}

/// Fails unless the only case is as it says. Want of memory is another answer, too.
pub fn is_so<E: Drop>(found: Result<bool, E>) -> Result<(), Fail> {
    match found {
        Ok(true) => Ok(()),
        _ => Err(Fail::from("another answer")),
    }
}
