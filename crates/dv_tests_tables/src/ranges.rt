use crate::cases::{Case, all_hold};
use dv_model::{Change, NoMemory, Pair};
use dv_ranges::{join_changes, join_pairs};
use std::alloc::Global;
use std::test::Fail;

// What is joined, and to what.
enum Joined {
    Pairs(&'static [Pair], &'static [Pair]),
    Changes(&'static [Change], &'static [Change]),
}

fn are_pairs(pairs: &[Pair], expected: &[Pair]) -> bool {
    if pairs.len() != expected.len() {
        return false;
    }
    for (pair, e) in pairs.iter().zip(expected) {
        if pair.first != e.first || pair.last != e.last {
            return false;
        }
    }
    true
}

fn is_change(c: &Change, e: &Change) -> bool {
    c.first == e.first && c.last == e.last && c.add == e.add && c.remove == e.remove
}

fn are_changes(changes: &[Change], expected: &[Change]) -> bool {
    if changes.len() != expected.len() {
        return false;
    }
    for (c, e) in changes.iter().zip(expected) {
        if !is_change(c, e) {
            return false;
        }
    }
    true
}

impl Case for Joined {
    fn holds(&self, alloc: Global) -> Result<bool, NoMemory> {
        match self {
            Joined::Pairs(ranges, expected) => match join_pairs(alloc, ranges)? {
                Some(joined) => Ok(are_pairs(&joined, expected)),
                None => Ok(false),
            },
            Joined::Changes(changes, expected) => match join_changes(alloc, changes)? {
                Some(joined) => Ok(are_changes(&joined, expected)),
                None => Ok(false),
            },
        }
    }
}

const CASES: [(&str, Joined); 2] = [
    (
        "ranges that overlap",
        Joined::Pairs(
            &[
                Pair { first: 5, last: 9 },
                Pair { first: 1, last: 3 },
                Pair { first: 8, last: 7 },
                Pair { first: 2, last: 6 },
            ],
            &[Pair { first: 1, last: 9 }],
        ),
    ),
    (
        "changes that overlap",
        Joined::Changes(
            &[
                Change {
                    first: 5,
                    last: 20,
                    add: 8,
                    remove: 1,
                },
                Change {
                    first: 1,
                    last: 10,
                    add: 4,
                    remove: 8,
                },
                Change {
                    first: 9,
                    last: 4294967295,
                    add: 1,
                    remove: 0,
                },
            ],
            &[
                Change {
                    first: 1,
                    last: 4,
                    add: 4,
                    remove: 8,
                },
                Change {
                    first: 5,
                    last: 8,
                    add: 4,
                    remove: 9,
                },
                Change {
                    first: 9,
                    last: 10,
                    add: 5,
                    remove: 9,
                },
                Change {
                    first: 11,
                    last: 20,
                    add: 9,
                    remove: 1,
                },
                Change {
                    first: 21,
                    last: 4294967295,
                    add: 1,
                    remove: 0,
                },
            ],
        ),
    ),
];

#[test]
fn what_overlaps_is_joined(rt: HostRuntime) -> Result<(), Fail> {
    all_hold(rt.alloc(), &CASES)
}
