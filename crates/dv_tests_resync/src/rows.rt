use crate::answers::Told;
use crate::cases::{Case, Later, follow, hear};
use crate::mailboxes::*;
use dv_model::End;
use std::test::Fail;

const NINE: &[&[u8]] = &[
    APPEND_1,
    APPEND_2,
    APPEND_3,
    APPEND_4,
    APPEND_5,
    APPEND_6,
    APPEND_7,
    APPEND_8,
    APPEND_9,
    DELETE_5_TO_9,
    EXPUNGE_5_TO_9,
];

const CASES: &[Case] = &[
    // A changed message, and UIDs that were never given out.
    Case {
        records: &[APPEND_1, SEE_1],
        state: (1000, 3, &[(End::Number(1), End::Number(5))]),
        told: &[Told::Fetch(1, 1, 8, &[], 4), Told::Highest(4)],
        text: b"* 1 FETCH (UID 1 FLAGS (\\Seen) MODSEQ (4))\n* OK [HIGHESTMODSEQ 4]\n",
    },
    // Messages that were expunged.
    Case {
        records: NINE,
        state: (1000, 12, &[(End::Number(1), End::Number(9))]),
        told: &[Told::Vanished(&[(5, 9)]), Told::Highest(13)],
        text: b"* VANISHED (EARLIER) 5:9\n* OK [HIGHESTMODSEQ 13]\n",
    },
    // Of those only the known ones are told, in rising ranges that don't touch.
    Case {
        records: NINE,
        state: (
            1000,
            13,
            &[
                (End::Number(9), End::Number(7)),
                (End::Number(5), End::Number(5)),
                (End::Number(8), End::Number(4_000_000_000)),
            ],
        ),
        told: &[Told::Vanished(&[(5, 5), (7, 9)]), Told::Highest(13)],
        text: b"* VANISHED (EARLIER) 5,7:9\n* OK [HIGHESTMODSEQ 13]\n",
    },
    // A row at an equal number isn't told, and `*` is the last UID that was given out.
    Case {
        records: &[APPEND_1, APPEND_2, EXPUNGE_2],
        state: (1000, 3, &[(End::Star, End::Star)]),
        told: &[Told::Vanished(&[(2, 2)]), Told::Highest(5)],
        text: b"* VANISHED (EARLIER) 2\n* OK [HIGHESTMODSEQ 5]\n",
    },
    // Where no UID was given out it names nothing, nor does 0.
    Case {
        records: &[],
        state: (1000, 2, &[(End::Number(0), End::Star)]),
        told: &[Told::Highest(2)],
        text: b"* OK [HIGHESTMODSEQ 2]\n",
    },
    // Under another UIDVALIDITY all is told.
    Case {
        records: &[APPEND_1, SEE_1, NAME_1_TO_9],
        state: (999, 5, &[(End::Number(1), End::Number(1))]),
        told: &[
            Told::Stale(1000),
            Told::Fetch(1, 1, 8, &[b"k1"], 5),
            Told::Highest(5),
        ],
        text: b"* OK [UIDVALIDITY 1000]\n\
            * 1 FETCH (UID 1 FLAGS (\\Seen k1) MODSEQ (5))\n\
            * OK [HIGHESTMODSEQ 5]\n",
    },
];

#[test]
fn clients_with_older_states_hear_what_changed(rt: HostRuntime) -> Result<(), Fail> {
    for case in CASES {
        hear(rt.alloc(), case)?;
    }
    Ok(())
}

const LATER: &[Later] = &[
    Later {
        before: &[],
        after: &[APPEND_1, SEE_1],
    },
    Later {
        before: &[],
        after: NINE,
    },
    Later {
        before: &[APPEND_1, APPEND_2],
        after: &[EXPUNGE_2, APPEND_3, NAME_1_TO_9],
    },
    Later {
        before: &[APPEND_1, NAME_1_TO_9],
        after: &[VALIDITY_2000, APPEND_2],
    },
    Later {
        before: &[APPEND_1],
        after: &[],
    },
];

#[test]
fn replicas_become_those_of_later_mailboxes(rt: HostRuntime) -> Result<(), Fail> {
    for later in LATER {
        follow(rt.alloc(), later)?;
    }
    Ok(())
}
