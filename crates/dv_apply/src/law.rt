ghost use Rattle.std.specs.Prelude.{◌≡◌, IsSome, None, Some};
ghost use Rattle.dv_model.specs.declared.types.Mailbox.{Mailbox};
ghost use Rattle.dv_model.specs.declared.types.Record.{Record};
ghost use Rattle.dv_model.specs.Effects.{after_record};
ghost use Rattle.dv_apply.specs.Bodies.{Refused, refused_row};

/// A record has no result exactly where it is an append with a refused row: one whose UID was given
/// out before (RFC 3501, section 2.3.1.1).
pub fn refused_by_a_row()
    ensures none { (m : Mailbox) (r : Record) (refused : Refused) →
        refused_row m r.body ≡ Some refused → after_record m r ≡ None }
    ensures only { (m : Mailbox) (r : Record) → after_record m r ≡ None →
        IsSome (refused_row m r.body) }
{}
