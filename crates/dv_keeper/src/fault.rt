//! Why a session's command isn't answered.

ghost use Rattle.std.specs.Prelude.{◌≡◌, OnErr, OnOk};
ghost use Rattle.dv_serving.specs.Lines.{IsFaultLine, fault_lines};
ghost use Rattle.dv_keeper.specs.declared.fault.SessionFault.TheVariants as session_fault;

use dv_model::{NoMemory, Reply};
use dv_plans::StoreFault;
use dv_shared::Written;
use dv_view::Replies;

/// Why a write of a session isn't answered.
#[derive(Clone, Copy, PartialEq, Eq, Debug)]
pub enum SessionFault {
    /// Memory ran out, and nothing was written.
    NoMemory,
    /// Memory ran out behind the session's entry, of which this is told. The session is spent.
    NoMemoryAfter(Written),
}

impl From<NoMemory> for SessionFault {
    ghost from_gives = { λ _ e. e ≡ session_fault.NoMemory };

    fn from(_: NoMemory) -> SessionFault {
        SessionFault::NoMemory
    }
}

/// Adds the line of a limit, or of the disk's failure (RFC 5530, LIMIT and UNAVAILABLE). Want of
/// memory has none. After `NoMemory` the replies are as before.
pub(crate) fn take_line<R: Replies>(fault: StoreFault, replies: &mut R) -> Result<(), NoMemory>
    ensures said { OnOk result ((replies.new ≡ R.with replies.old (fault_lines fault))
        × IsFaultLine fault (fault_lines fault)) }
    ensures err { OnErr result (replies.new ≡ replies.old) }
{
    match fault {
        StoreFault::Disk(faults) => replies.take(Reply::Unavailable { faults }),
        StoreFault::UidsUsedUp => replies.take(Reply::UidsUsedUp),
        StoreFault::TooLong { bytes } => replies.take(Reply::TooLong { bytes }),
        StoreFault::NoMemory => Err(NoMemory),
    }
}
