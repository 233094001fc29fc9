use crate::cases::{Case, play};
use crate::steps::{Ask, Step};
use std::test::Fail;

// A message that one session expunges while another knows it.
const DELAYED: [Step; 7] = [
    Step::Begin(1),
    Step::Commit(1, Ask::Append(4, b"hi")),
    Step::Begin(2),
    Step::Commit(1, Ask::Expunge),
    Step::Load(2),
    Step::Tell(2, Ask::Flags),
    Step::Tell(2, Ask::Noop),
];

const DELAYED_1: &[u8] = b"a * 0 EXISTS\n\
    a * OK [UIDVALIDITY 1000]\n\
    a * OK [UIDNEXT 1]\n\
    a OK [MARK 1:56] SELECT\n\
    a * 1 EXISTS\n\
    a * 1 FETCH (UID 1 FLAGS (\\Deleted))\n\
    a OK [APPENDUID 1000 1] [MARK 1:72] APPEND\n\
    a * 1 EXPUNGE\n\
    a OK [MARK 1:100] EXPUNGE\n";

const DELAYED_2: &[u8] = b"b * 1 EXISTS\n\
    b * OK [UIDVALIDITY 1000]\n\
    b * OK [UIDNEXT 2]\n\
    b * 1 FETCH (UID 1 FLAGS (\\Deleted))\n\
    b OK [MARK 1:72] SELECT\n\
    b * 1 FETCH (UID 1 FLAGS (\\Deleted))\n\
    b OK [MARK 1:100] FETCH\n\
    b * 1 EXPUNGE\n\
    b OK [MARK 1:100] NOOP\n";

// The session whose message another expunges hears it when numbers may change.
const EXPUNGED: Case = Case {
    steps: &DELAYED,
    others: &[],
    count: 2,
    is_pending: false,
    first: Some(DELAYED_1),
    second: Some(DELAYED_2),
};

#[test]
fn expunge_is_told_when_numbers_may_change(rt: HostRuntime) -> Result<(), Fail> {
    play(rt.alloc(), &EXPUNGED)
}

// Another APPEND is pending behind.
const PENDING: Step = Step::Write(1, Ask::Append(0, b"x"));

const DURABLE_KEPT: Case = Case {
    steps: &DELAYED,
    others: &[PENDING, Step::Crash(2)],
    count: 2,
    is_pending: false,
    first: None,
    second: None,
};

#[test]
fn crash_keeps_durable_entries(rt: HostRuntime) -> Result<(), Fail> {
    play(rt.alloc(), &DURABLE_KEPT)
}

const PENDING_KEPT: Case = Case {
    steps: &DELAYED,
    others: &[PENDING, Step::Crash(3)],
    count: 3,
    is_pending: false,
    first: None,
    second: None,
};

#[test]
fn crash_may_keep_the_pending_entry(rt: HostRuntime) -> Result<(), Fail> {
    play(rt.alloc(), &PENDING_KEPT)
}

// No crash leaves fewer entries than are durable.
const NONE_DROPPED: Case = Case {
    steps: &DELAYED,
    others: &[PENDING, Step::Crash(1)],
    count: 2,
    is_pending: true,
    first: Some(DELAYED_1),
    second: Some(DELAYED_2),
};

#[test]
fn crash_drops_no_durable_entry(rt: HostRuntime) -> Result<(), Fail> {
    play(rt.alloc(), &NONE_DROPPED)
}

const CRASHED_1: &[u8] = b"a * 1 EXISTS\n\
    a * OK [UIDVALIDITY 1000]\n\
    a * OK [UIDNEXT 2]\n\
    a * 1 FETCH (UID 1 FLAGS ())\n\
    a OK [MARK 1:72] SELECT\n\
    a * 1 FETCH (UID 1 BODY[] {1}\nx)\n\
    a OK [MARK 1:72] FETCH\n";

// A new session over what a crash left sees the same mailbox and the message that was kept.
const CRASHED: Case = Case {
    steps: &[Step::Begin(1), PENDING, Step::Crash(1)],
    others: &[Step::Begin(1), Step::Tell(1, Ask::Text)],
    count: 1,
    is_pending: false,
    first: Some(CRASHED_1),
    second: None,
};

#[test]
fn session_sees_what_a_crash_kept(rt: HostRuntime) -> Result<(), Fail> {
    play(rt.alloc(), &CRASHED)
}

const REPLACED_1: &[u8] = b"a * 0 EXISTS\n\
    a * OK [UIDVALIDITY 1000]\n\
    a * OK [UIDNEXT 1]\n\
    a OK [MARK 1:56] SELECT\n\
    a * 1 EXISTS\n\
    a * 1 FETCH (UID 1 FLAGS (\\Flagged))\n\
    a OK [MARK 1:72] NOOP\n";

const REPLACED_2: &[u8] = b"b * 0 EXISTS\n\
    b * OK [UIDVALIDITY 1000]\n\
    b * OK [UIDNEXT 1]\n\
    b OK [MARK 1:56] SELECT\n\
    b * 1 EXISTS\n\
    b * 1 FETCH (UID 1 FLAGS (\\Flagged))\n\
    b OK [APPENDUID 1000 1] [MARK 1:72] APPEND\n";

// A write that fails stays pending until the next write of a group, which takes its place.
const REPLACED: Case = Case {
    steps: &[
        Step::Begin(1),
        Step::Begin(2),
        Step::Write(1, Ask::Append(0, b"lost")),
        Step::Commit(2, Ask::Append(2, b"kept")),
        Step::Load(1),
        Step::Tell(1, Ask::Noop),
    ],
    others: &[],
    count: 1,
    is_pending: false,
    first: Some(REPLACED_1),
    second: Some(REPLACED_2),
};

#[test]
fn pending_entry_is_replaced(rt: HostRuntime) -> Result<(), Fail> {
    play(rt.alloc(), &REPLACED)
}

const HEALED_1: &[u8] = b"a * 0 EXISTS\n\
    a * OK [UIDVALIDITY 1000]\n\
    a * OK [UIDNEXT 1]\n\
    a OK [MARK 1:56] SELECT\n";

// What is pending is taken away, and is never durable.
const HEALED: Case = Case {
    steps: &[Step::Begin(1), Step::Write(1, Ask::Append(0, b"lost"))],
    others: &[Step::Heal, Step::Publish, Step::Crash(1)],
    count: 0,
    is_pending: false,
    first: Some(HEALED_1),
    second: None,
};

#[test]
fn healed_entry_is_gone(rt: HostRuntime) -> Result<(), Fail> {
    play(rt.alloc(), &HEALED)
}

const CROSSING_1: &[u8] = b"a * 0 EXISTS\n\
    a * OK [UIDVALIDITY 1000]\n\
    a * OK [UIDNEXT 1]\n\
    a OK [MARK 1:56] SELECT\n\
    a * 1 EXISTS\n\
    a * 1 FETCH (UID 1 FLAGS ())\n\
    a OK [APPENDUID 1000 1] [MARK 1:72] APPEND\n\
    a * 1 FETCH (UID 1 FLAGS (\\Seen))\n\
    a OK [MARK 1:92] STORE\n";

const CROSSING_2: &[u8] = b"b * 1 EXISTS\n\
    b * OK [UIDVALIDITY 1000]\n\
    b * OK [UIDNEXT 2]\n\
    b * 1 FETCH (UID 1 FLAGS ())\n\
    b OK [MARK 1:72] SELECT\n\
    b * 1 FETCH (UID 1 FLAGS (\\Flagged \\Seen))\n\
    b OK [MARK 1:112] STORE\n\
    b OK [MODIFIED 1] [MARK 1:112] STORE\n";

// Two sessions write to one message. The second hasn't loaded what the first wrote, and the first
// hasn't been told: the second meets that, and is told of both. The message was added by the third
// record of the mailbox, and changed by the fourth, so the last STORE writes nothing.
const CROSSING: Case = Case {
    steps: &[
        Step::Begin(1),
        Step::Commit(1, Ask::Append(0, b"x")),
        Step::Begin(2),
        Step::Write(1, Ask::Store(8, None)),
        Step::Publish,
        Step::Commit(2, Ask::Store(2, None)),
        Step::Commit(2, Ask::Store(1, Some(3))),
        Step::Load(1),
        Step::Tell(1, Ask::Store(8, None)),
    ],
    others: &[],
    count: 3,
    is_pending: false,
    first: Some(CROSSING_1),
    second: Some(CROSSING_2),
};

#[test]
fn writes_cross(rt: HostRuntime) -> Result<(), Fail> {
    play(rt.alloc(), &CROSSING)
}

const SEARCHED_1: &[u8] = b"a * 0 EXISTS\n\
    a * OK [UIDVALIDITY 1000]\n\
    a * OK [UIDNEXT 1]\n\
    a OK [MARK 1:56] SELECT\n\
    a * 1 EXISTS\n\
    a * 1 FETCH (UID 1 FLAGS (\\Seen))\n\
    a OK [APPENDUID 1000 1] [MARK 1:72] APPEND\n\
    a * SEARCH 1\n\
    a OK [MARK 1:72] SEARCH\n";

const SEARCHED: Case = Case {
    steps: &[
        Step::Begin(1),
        Step::Commit(1, Ask::Append(8, b"x")),
        Step::Tell(1, Ask::Seen),
    ],
    others: &[],
    count: 1,
    is_pending: false,
    first: Some(SEARCHED_1),
    second: None,
};

#[test]
fn search_is_answered(rt: HostRuntime) -> Result<(), Fail> {
    play(rt.alloc(), &SEARCHED)
}
