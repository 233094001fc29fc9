ghost use Rattle.dv_groups.specs.Groups.{GroupIsShort};

/// The length of a group's text is below 2^64 - 1, so what is said of it is its length, where the
/// command has at most 2^26 keywords.
pub fn groups_are_short()
    ensures { GroupIsShort }
{}
