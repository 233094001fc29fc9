ghost use Rattle.dv_search.specs.Laws.{SearchSaysFound, SoughtIsShallow};
ghost use Rattle.dv_search.specs.Stars.{LargestIsForStars};

/// The SEARCH line has the numbers, or the UIDs, of the rows that a search finds.
pub fn search_says_found()
    ensures { SearchSaysFound }
{}

/// The keys that a text of a SEARCH has nest no deeper than a search asks (RFC 3501, section
/// 6.4.4).
pub fn sought_is_shallow()
    ensures { SoughtIsShallow }
{}

/// What a key finds in which no `*` stands doesn't depend on the largest UID (RFC 3501, section
/// 6.4.8).
pub fn largest_is_for_stars()
    ensures { LargestIsForStars }
{}
