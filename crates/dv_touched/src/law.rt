ghost use Rattle.dv_touched.specs.Naming.{OnlyNamed};

/// What is shown of a message changes only by a record that names its UID, and no other message
/// comes or goes by it.
pub fn only_named_are_touched()
    ensures { OnlyNamed }
{}
