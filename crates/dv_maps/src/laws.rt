//! What the groups of a storage do to the storage of its map.

ghost use Rattle.dv_maps.specs.Laws.{CountsAre, CountsAreWritten, PlacesAre, SavesAre, SavesAreWritten};
ghost use Rattle.dv_maps.specs.Purges.{RewritesAre, RewritesAreWritten, RewritesKeep, RewritesThin, ThinningsAre};
ghost use Rattle.dv_maps.specs.Tables.{TablesStay};

/// A copy and a drop change the count of one id, and leave what is kept of the texts.
pub fn counts_are()
    ensures { CountsAre }
{}

/// A save adds the next id with one reference. Where the text stands at its place, all texts are
/// kept with it.
pub fn saves_are()
    ensures { SavesAre }
{}

/// A copy and a drop leave the places of all texts, and a save adds that of its own.
pub fn places_are()
    ensures { PlacesAre }
{}

/// The records of a copy, a drop and a save have a spelling, and apply to any map.
pub fn records_are_written()
    ensures counts { CountsAreWritten }
    ensures saves { SavesAreWritten }
{}

/// The purge of a file removes its rows without references, gives the others their new places, and
/// leaves the rows of other files.
pub fn rewrites_are()
    ensures { RewritesAre }
{}

/// So the storage loses ids that have no reference, and where the new file has the kept texts, all
/// texts are kept.
pub fn rewrites_lose_nothing()
    ensures thin { RewritesThin }
    ensures keep { RewritesKeep }
{}

/// Ids that are gone, file by file, are gone together.
pub fn thinnings_are()
    ensures { ThinningsAre }
{}

/// The records of the purge of a file have a spelling, and apply to any map.
pub fn rewrites_are_written()
    ensures { RewritesAreWritten }
{}

/// A table of the rows by file tells of each file that isn't rewritten yet, while files are
/// rewritten one after another by rising number.
pub fn tables_stay()
    ensures { TablesStay }
{}
