use crate::long_logs::long_folder;
use crate::runs::{Run, Stage, calls_of, fail_each_at_the_end, fail_each_once, stop_before_each};
use crate::states::{Rows, State};
use dv_asks::Ask;
use dv_model::{How, List};
use std::alloc::Global;
use std::test::*;

const MADE: State = State {
    file_seq: 1,
    offset: 56,
    next_uid: 1,
    highest: 2,
    rows: Rows::Are(&[]),
    mails: &[],
};

const STAGES: &[Stage] = &[
    Stage {
        ask: None,
        state: MADE,
    },
    Stage {
        ask: Some(Ask::Append(4, b"x")),
        state: State {
            offset: 72,
            next_uid: 2,
            highest: 3,
            rows: Rows::Are(&[(1, 4, 0, 3)]),
            mails: &[(1, b"x")],
            ..MADE
        },
    },
    Stage {
        ask: Some(Ask::Append(0, b"y")),
        state: State {
            offset: 88,
            next_uid: 3,
            highest: 4,
            rows: Rows::Are(&[(1, 4, 0, 3), (2, 0, 0, 4)]),
            mails: &[(1, b"x"), (2, b"y")],
            ..MADE
        },
    },
    Stage {
        ask: Some(Ask::StoreKeyword(1, 9, How::Add, 0, b"k1")),
        state: State {
            offset: 112,
            next_uid: 3,
            highest: 5,
            rows: Rows::Are(&[(1, 4, 1, 5), (2, 0, 1, 5)]),
            mails: &[(1, b"x"), (2, b"y")],
            ..MADE
        },
    },
    // three records of the extension, which show nothing
    Stage {
        ask: Some(Ask::Check),
        state: State {
            offset: 188,
            next_uid: 3,
            highest: 8,
            rows: Rows::Are(&[(1, 4, 1, 5), (2, 0, 1, 5)]),
            mails: &[(1, b"x"), (2, b"y")],
            ..MADE
        },
    },
    Stage {
        ask: Some(Ask::Expunge),
        state: State {
            offset: 216,
            next_uid: 3,
            highest: 9,
            rows: Rows::Are(&[(2, 0, 1, 5)]),
            mails: &[(2, b"y")],
            ..MADE
        },
    },
    Stage {
        ask: Some(Ask::Check),
        state: State {
            offset: 284,
            next_uid: 3,
            highest: 12,
            rows: Rows::Are(&[(2, 0, 1, 5)]),
            mails: &[(2, b"y")],
            ..MADE
        },
    },
    Stage {
        ask: Some(Ask::AppendKeyword(8, b"k2", b"z")),
        state: State {
            offset: 324,
            next_uid: 4,
            highest: 14,
            rows: Rows::Are(&[(2, 0, 1, 5), (3, 8, 1, 14)]),
            mails: &[(2, b"y"), (3, b"z")],
            ..MADE
        },
    },
    Stage {
        ask: Some(Ask::Remove(1, 2)),
        state: State {
            offset: 352,
            next_uid: 4,
            highest: 15,
            rows: Rows::Are(&[(3, 8, 1, 14)]),
            mails: &[(3, b"z")],
            ..MADE
        },
    },
    // the flag is changed, the keywords are taken, and one is given
    Stage {
        ask: Some(Ask::StoreKeyword(3, 3, How::Replace, 16, b"k1")),
        state: State {
            offset: 412,
            next_uid: 4,
            highest: 18,
            rows: Rows::Are(&[(3, 16, 1, 18)]),
            mails: &[(3, b"z")],
            ..MADE
        },
    },
    Stage {
        ask: Some(Ask::Check),
        state: State {
            offset: 480,
            next_uid: 4,
            highest: 21,
            rows: Rows::Are(&[(3, 16, 1, 18)]),
            mails: &[(3, b"z")],
            ..MADE
        },
    },
];

// The making; two messages, a STORE; a CHECK with two reads, the listing, two files and the commit;
// an EXPUNGE with a read; a CHECK with a read of the cache file, the listing, a removal, two files
// and the commit; a message; a removal with a read; a STORE; a CHECK as the second one, with a read
// of the message that came since.
const CALLS: u32 = 1 + 10 + 4 + 9 + 5 + 9 + 5 + 5 + 4 + 10;

fn new_run(alloc: Global) -> Run {
    Run {
        is_new: true,
        folder: List::new(alloc),
        stages: STAGES,
    }
}

#[test]
fn calls_of_all_commands_are_counted(rt: HostRuntime) -> Result<(), Fail> {
    let alloc = rt.alloc();
    assert_eq!(rt; calls_of(alloc, &new_run(alloc))?, u64::from(CALLS));
    Ok(())
}

#[test]
fn each_call_fails_and_its_command_is_sent_again(rt: HostRuntime) -> Result<(), Fail> {
    fail_each_once(rt.alloc(), &new_run(rt.alloc()), CALLS)
}

#[test]
fn each_call_fails_and_nothing_is_sent_behind_it(rt: HostRuntime) -> Result<(), Fail> {
    fail_each_at_the_end(rt.alloc(), &new_run(rt.alloc()), CALLS)
}

#[test]
fn each_call_is_the_last(rt: HostRuntime) -> Result<(), Fail> {
    stop_before_each(rt.alloc(), &new_run(rt.alloc()), CALLS)
}

const LONG: State = State {
    file_seq: 1,
    offset: 131_640,
    next_uid: 165,
    highest: 296,
    rows: Rows::Long(0),
    mails: &[(1, b"hello")],
};

// The log is rotated before the first group.
const LONG_STAGES: &[Stage] = &[
    Stage {
        ask: None,
        state: LONG,
    },
    Stage {
        ask: None,
        state: State {
            file_seq: 2,
            offset: 40,
            ..LONG
        },
    },
    Stage {
        ask: Some(Ask::Append(0, b"x")),
        state: State {
            file_seq: 2,
            offset: 56,
            next_uid: 166,
            highest: 297,
            rows: Rows::Long(1),
            mails: &[(1, b"hello"), (165, b"x")],
        },
    },
];

fn long_run(alloc: Global) -> Result<Run, Fail> {
    Ok(Run {
        is_new: false,
        folder: long_folder(alloc)?,
        stages: LONG_STAGES,
    })
}

// The opening, a read and three files of the rotation, and a message.
const LONG_CALLS: u32 = 3 + 4 + 5;

#[test]
fn calls_of_a_rotation_are_counted(rt: HostRuntime) -> Result<(), Fail> {
    let alloc = rt.alloc();
    assert_eq!(rt; calls_of(alloc, &long_run(alloc)?)?, u64::from(LONG_CALLS));
    Ok(())
}

#[test]
fn each_call_of_a_rotation_fails_and_its_command_is_sent_again(
    rt: HostRuntime,
) -> Result<(), Fail> {
    fail_each_once(rt.alloc(), &long_run(rt.alloc())?, LONG_CALLS)
}

#[test]
fn each_call_of_a_rotation_fails_and_nothing_is_sent_behind_it(
    rt: HostRuntime,
) -> Result<(), Fail> {
    fail_each_at_the_end(rt.alloc(), &long_run(rt.alloc())?, LONG_CALLS)
}

#[test]
fn each_call_of_a_rotation_is_the_last(rt: HostRuntime) -> Result<(), Fail> {
    stop_before_each(rt.alloc(), &long_run(rt.alloc())?, LONG_CALLS)
}
