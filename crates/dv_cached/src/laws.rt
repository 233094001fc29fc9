//! What the group of a command leaves of what is looked up in the cache file.

ghost use Rattle.dv_cached.specs.Laws.{CacheStaysTrue, CachedRowsAreWritable};
ghost use Rattle.dv_cached.specs.Laws.{CheckedCacheIsTrue, ChecksKeepUids};
ghost use Rattle.dv_cached.specs.Laws.{GroupsKeepLooks, GroupsKeepParts, NoRowAtStart};
ghost use Rattle.dv_cached.specs.Places.{ChecksPlaceRows};

/// The group of any command but CHECK leaves the extensions, and each row is an old one by its UID
/// and parts, or the appended one, which has the UIDNEXT and zero bytes. So what is looked up for a
/// row is looked up for an old one, or nothing that a cache file has.
pub fn groups_keep_looks()
    ensures parts { GroupsKeepParts }
    ensures looks { GroupsKeepLooks }
    ensures start { NoRowAtStart }
{}

/// So a true cache is true of the mailbox with such a group.
pub fn cache_stays_true()
    ensures { CacheStaysTrue }
{}

/// The group of CHECK leaves each row its UID, so the cache file that is written of the mailbox's
/// messages is true of the mailbox with that group. It can be written of any valid mailbox of at
/// most 8,388,608 rows.
pub fn checked_cache_is_true()
    ensures uids { ChecksKeepUids }
    ensures writable { CachedRowsAreWritable }
    ensures cache { CheckedCacheIsTrue }
{}

/// The group of CHECK gives row i the place 32 + 16 i under the next number, where the extension
/// `cache` is within the mailbox's limits.
pub fn checks_place_rows()
    ensures { ChecksPlaceRows }
{}
