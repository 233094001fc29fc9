ghost use Rattle.dv_view.specs.Laws.{BareClientHasView, ChangesFollow};

/// A client without names that has the rows of a session's view has those of its next view after
/// it hears what is said of the move (RFC 3501, section 7.4.1), by either step. This holds of
/// `View::advance` and of `View::advance_by`, which say the same.
pub fn bare_client_has_view()
    ensures { BareClientHasView }
{}

/// A mailbox to which `View::advance_by` moves is one that may follow the view, as the law on
/// clients asks.
pub fn changes_follow()
    ensures { ChangesFollow }
{}
