use crate::cases::{Case, Task, play};
use std::test::Fail;

const SESSIONS: Case = Case {
    task: Task::Sessions(64),
    last: b"s63 * 1 EXISTS\n\
        s63 * 1 FETCH (UID 1 FLAGS ())\n\
        s63 OK [MARK 1:72] NOOP\n\
        END 0 MARK 1:72 GROUPS 1\n",
    log: 76,
};

#[test]
fn sixty_four_sessions_are_served(rt: HostRuntime) -> Result<(), Fail> {
    play(rt.alloc(), &SESSIONS)
}

// The log is rotated before the STORE, whose group has 20 bytes.
const CHANGES: Case = Case {
    task: Task::Changes,
    last: b"a * 70000 FETCH (UID 70000 FLAGS (\\Seen))\n\
        a OK [MARK 2:60] UID STORE\n\
        END 0 MARK 2:60 GROUPS 1\n",
    log: 64,
};

#[test]
fn seventy_thousand_messages_are_changed(rt: HostRuntime) -> Result<(), Fail> {
    play(rt.alloc(), &CHANGES)
}

// The new log has a record of 260 bytes for each of 4,500 keywords.
const REBUILD: Case = Case {
    task: Task::Rebuild,
    last: b"END 0 REBUILT kept 2 skipped 0\n",
    log: 1_170_000,
};

#[test]
fn log_of_more_than_a_mebibyte_is_rebuilt(rt: HostRuntime) -> Result<(), Fail> {
    play(rt.alloc(), &REBUILD)
}

// Each message has the number of the one append, behind that of the UIDVALIDITY.
const RESYNC: Case = Case {
    task: Task::Resync,
    last: b"* 70000 FETCH (UID 70000 FLAGS () MODSEQ (3))\n\
        * OK [HIGHESTMODSEQ 3]\n\
        END 0 MARK 1:560064 GROUPS 0\n",
    log: 560_064,
};

#[test]
fn seventy_thousand_messages_are_told(rt: HostRuntime) -> Result<(), Fail> {
    play(rt.alloc(), &RESYNC)
}
