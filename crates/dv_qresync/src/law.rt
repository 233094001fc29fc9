ghost use Rattle.dv_qresync.specs.Laws.{CatchesUp};

/// A client that tells its state, and hears what has changed since, has the mailbox's (RFC 7162,
/// section 3.2.5).
pub fn replicas_catch_up()
    ensures { CatchesUp }
{}
