//! What calls on a storage are answered.

ghost use Rattle.std.specs.Prelude.{◌≡◌};
ghost use Rattle.dv_mdbox_serving.specs.Calls as calls;
ghost use Rattle.dv_mdbox_serving.specs.Calls.{fault_answer, told_of};

use dv_mdbox::{Got, StorageFault};
use dv_mdbox_lines::Answer;
use dv_model::NoMemory;

/// The answer to a fault; want of memory has none.
fn fault_answer(fault: StorageFault) -> Result<Answer, NoMemory>
    ensures { told_of result ≡ fault_answer fault }
{
    match fault {
        StorageFault::NoMemory => Err(NoMemory),
        StorageFault::Disk(faults) => Ok(Answer::Disk(faults)),
        StorageFault::None => Ok(Answer::None),
        StorageFault::Full => Ok(Answer::Full),
        StorageFault::Ids => Ok(Answer::Ids),
        StorageFault::Files => Ok(Answer::Files),
        StorageFault::TooLong { bytes } => Ok(Answer::TooLong(bytes)),
    }
}

/// The answer to a message that is to be saved.
pub(crate) fn saved_answer(saved: Result<u32, StorageFault>) -> Result<Answer, NoMemory>
    ensures { told_of result ≡ calls.saved_answer saved }
{
    match saved {
        Ok(id) => Ok(Answer::Done(id)),
        Err(fault) => fault_answer(fault),
    }
}

/// The answer where the count of an id is to be changed.
pub(crate) fn counted_answer(id: u32, done: Result<(), StorageFault>) -> Result<Answer, NoMemory>
    ensures { told_of result ≡ calls.counted_answer id done }
{
    match done {
        Ok(()) => Ok(Answer::Done(id)),
        Err(fault) => fault_answer(fault),
    }
}

/// The answer where a message is to be read.
pub(crate) fn read_answer(got: Result<Got, StorageFault>) -> Result<Answer, NoMemory>
    ensures { told_of result ≡ calls.read_answer got }
{
    match got {
        Ok(Got::Held(bytes)) => Ok(Answer::Held(bytes)),
        Ok(Got::Damaged) => Ok(Answer::Damaged),
        Err(fault) => fault_answer(fault),
    }
}

/// The answer to a purge.
pub(crate) fn purged_answer(purged: Result<u32, StorageFault>) -> Result<Answer, NoMemory>
    ensures { told_of result ≡ calls.purged_answer purged }
{
    match purged {
        Ok(gone) => Ok(Answer::Purged(gone)),
        Err(fault) => fault_answer(fault),
    }
}
