ghost use Rattle.dv_playing.specs.Laws.{FailuresRise, PlaysAnswer, PlaysAreSerial, PlaysMayLeave, PlaysStand, PlaysGoOn, RepliesGoOn};

/// What is played of a script is a run by the session rules over the log that the play makes: each
/// command is refused by its one line, answered by the disk's failure, or told over the entries so
/// far, with its own group as the last of them. The first line that isn't answered may have left
/// its group.
pub fn plays_are_serial()
    ensures serial { PlaysAreSerial }
    ensures answer { PlaysAnswer }
    ensures left { PlaysMayLeave }
    ensures stands { PlaysStand }
{}

/// A play goes on by one line at its end.
pub fn plays_go_on()
    ensures play { PlaysGoOn }
    ensures replies { RepliesGoOn }
{}

/// Where the disk's failures tell counts that rise, there are no more of them than the count rose
/// by, and each is above the count from before.
pub fn failures_rise()
    ensures { FailuresRise }
{}
