ghost use Rattle.dv_schedules.specs.Schedules.{GoodCallsKeep, SerialIsInterleaved, StoriesAreInterleaved};
ghost use Rattle.dv_schedules.specs.Laws.{AnswerReads, AnswerWrites, CallsAreEvents, CommitWrites, EmptyCommits, FailedCommits, GatherLoads, MakeOpens, RefreshLoads, UnwrittenCommits};

/// Sessions that are made begin at the end of the log, and a session that refreshes, or that meets
/// another one, loads what is published.
pub fn loads_are_events()
    ensures makes { MakeOpens }
    ensures refreshes { RefreshLoads }
    ensures gathers { GatherLoads }
{}

/// A commit adds its group as the log's one entry more, durable and published, or is done at once
/// where the group is empty. A failed one leaves the log as it was and its group pending; one that
/// wrote nothing leaves all as it was, but for an earlier pending group that it took away.
pub fn commits_are_events()
    ensures writes { CommitWrites }
    ensures empty { EmptyCommits }
    ensures fails { FailedCommits }
    ensures unwritten { UnwrittenCommits }
{}

/// A command is answered by the session rules: at what its session has seen, or at the place of
/// what it wrote.
pub fn answers_are_events()
    ensures reads { AnswerReads }
    ensures writes { AnswerWrites }
{}

/// Calls in turn are events in turn, so they are an interleaving.
pub fn calls_are_events()
    ensures { CallsAreEvents }
{}

/// What sessions in threads did is an interleaving: some order of their calls leads to a world with
/// their log, their states and their answers. So what is promised over every interleaving of
/// session steps is promised of them, and of a script's sessions, one command after another.
pub fn transcripts_are_interleaved()
    ensures calls { GoodCallsKeep }
    ensures transcripts { StoriesAreInterleaved }
    ensures serial { SerialIsInterleaved }
{}
