//! The one line of a command that isn't served.

ghost use Rattle.std.specs.Prelude.{◌≡◌, OnErr, OnOk};
ghost use Rattle.dv_serving.specs.Lines.{IsFaultLine, fault_lines};

use dv_model::{NoMemory, Reply};
use dv_plans::StoreFault;
use dv_view::Replies;

/// Adds the line of a limit, or of the disk's failure (RFC 5530, LIMIT and UNAVAILABLE). Want of
/// memory has no line. After `NoMemory`, which is the only error, the replies are as before.
pub fn take_fault<R: Replies>(fault: StoreFault, replies: &mut R) -> Result<(), NoMemory>
    ensures told { OnOk result ((replies.new ≡ R.with replies.old (fault_lines fault))
        × IsFaultLine fault (fault_lines fault)) }
    ensures kept { OnErr result (replies.new ≡ replies.old) }
{
    match fault {
        StoreFault::Disk(faults) => replies.take(Reply::Unavailable { faults }),
        StoreFault::UidsUsedUp => replies.take(Reply::UidsUsedUp),
        StoreFault::TooLong { bytes } => replies.take(Reply::TooLong { bytes }),
        StoreFault::NoMemory => Err(NoMemory),
    }
}
