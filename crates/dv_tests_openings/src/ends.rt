//! How a test ends.

use dv_model::NoMemory;
use std::test::Fail;

/// Fails by the name of the first case that isn't as it says.
pub fn no_other(other: Result<Option<&'static str>, NoMemory>) -> Result<(), Fail> {
    match other {
        Ok(None) => Ok(()),
        Ok(Some(name)) => Err(Fail::from(name)),
        Err(error) => Err(Fail::from(error)),
    }
}

/// Fails unless the only case is as it says.
pub fn is_so(found: Result<bool, NoMemory>) -> Result<(), Fail> {
    match found {
        Ok(true) => Ok(()),
        Ok(false) => Err(Fail::from("something else")),
        Err(error) => Err(Fail::from(error)),
    }
}
