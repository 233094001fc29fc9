ghost use Rattle.dv_feeding.specs.Laws.{OneEntry, OneFeed, FeedBegins, FeedIsTaken, FeedExtends};

/// The words of a feed are of one list of entries, where each record has a spelling of bytes. The
/// number of words that stands before each group keeps the entries apart, and no spelling begins
/// another.
pub fn one_feed()
    ensures entry { OneEntry }
    ensures one { OneFeed }
{}

/// Who has taken the words of some entries knows them, whatever follows, and the words of further
/// entries stand behind.
pub fn feed_goes_on()
    ensures prefix { FeedBegins }
    ensures taken { FeedIsTaken }
    ensures extends { FeedExtends }
{}
