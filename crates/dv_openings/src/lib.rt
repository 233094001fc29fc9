//! What opening finds in a mailbox folder, what a rebuild makes of it, and when its cache file is
//! true, as definitions.
#![tactic(auto)]

ghost use Rattle.dv_openings.specs.Laws.{FoundIsOne, NoCacheIsTrue, WrittenCacheIsTrue};

/// A folder's files are found in one way: there is one mailbox with its place, or one fault.
pub fn found_is_one()
    ensures { FoundIsOne }
{}

/// The cache of a folder without a cache file is true, and so is one that was written of the
/// messages of a mailbox, as long as these stay in their files.
pub fn cache_is_true()
    ensures absent { NoCacheIsTrue }
    ensures written { WrittenCacheIsTrue }
{}
