ghost use Rattle.dv_feed.specs.Feeds.{RestsAreWords, WordsAreFeed};

/// Good notes have words from which their entries are read again, and so have those behind the
/// first of them.
pub fn good_notes_have_feeds()
    ensures feed { WordsAreFeed }
    ensures rest { RestsAreWords }
{}
