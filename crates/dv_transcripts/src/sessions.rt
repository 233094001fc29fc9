use crate::follower::{Turn, first_other};
use std::test::*;

const APPEND_1: &[u8] = b"\x80\x80\x80\x84\x02\0\0\x10\x01\0\0\0\0\0\0\0";

const APPEND_1_DELETED: &[u8] = b"\x80\x80\x80\x84\x02\0\0\x10\x01\0\0\0\x04\0\0\0";

const APPEND_2: &[u8] = b"\x80\x80\x80\x84\x02\0\0\x10\x02\0\0\0\0\0\0\0";

const APPEND_3: &[u8] = b"\x80\x80\x80\x84\x02\0\0\x10\x03\0\0\0\0\0\0\0";

const EXPUNGE_1: &[u8] = b"\x80\x80\x80\x84\x91\xcd\0\x10\x01\0\0\0\x01\0\0\0";

const EXPUNGE_2: &[u8] = b"\x80\x80\x80\x84\x91\xcd\0\x10\x02\0\0\0\x02\0\0\0";

const EXPUNGE_3: &[u8] = b"\x80\x80\x80\x84\x91\xcd\0\x10\x03\0\0\0\x03\0\0\0";

// UID 1 leaves, with a GUID of zero bytes.
const REMOVE_1: &[u8] = b"\x80\x80\x80\x87\x90\xed\0\x10\x01\0\0\0\
    \0\0\0\0\0\0\0\0\0\0\0\0\0\0\0\0";

const SEE_1: &[u8] = b"\x80\x80\x80\x85\x04\0\0\x10\x01\0\0\0\x01\0\0\0\x08\0\0\0";

const UNSEE_1: &[u8] = b"\x80\x80\x80\x85\x04\0\0\x10\x01\0\0\0\x01\0\0\0\0\x08\0\0";

const FLAG_1: &[u8] = b"\x80\x80\x80\x85\x04\0\0\x10\x01\0\0\0\x01\0\0\0\x02\0\0\0";

// UID 1 has the flag Draft and no other.
const DRAFT_1: &[u8] = b"\x80\x80\x80\x85\x04\0\0\x10\x01\0\0\0\x01\0\0\0\x10\x0f\0\0";

// UID 1 loses its keywords.
const RESET_1: &[u8] = b"\x80\x80\x80\x84\0\x08\0\x10\x01\0\0\0\x01\0\0\0";

const ADD_K1_TO_1: &[u8] = b"\x80\x80\x80\x86\0\x04\0\x10\0\0\x02\0k1\0\0\x01\0\0\0\x01\0\0\0";

const SEE_2: &[u8] = b"\x80\x80\x80\x85\x04\0\0\x10\x02\0\0\0\x02\0\0\0\x08\0\0\0";

const FLAG_2: &[u8] = b"\x80\x80\x80\x85\x04\0\0\x10\x02\0\0\0\x02\0\0\0\x02\0\0\0";

// A row that another session expunged is shown until numbers may change.
const DELAYED: [Turn; 3] = [
    Turn {
        others: &[APPEND_1_DELETED],
        command: b"SELECT",
        own: &[],
        end: 72,
        says: b"b * 1 EXISTS\n\
                  b * OK [UIDVALIDITY 1000]\n\
                  b * OK [UIDNEXT 2]\n\
                  b * 1 FETCH (UID 1 FLAGS (\\Deleted))\n\
                  b OK [MARK 1:72] SELECT\n",
    },
    Turn {
        others: &[EXPUNGE_1],
        command: b"FETCH 1 (FLAGS)",
        own: &[],
        end: 88,
        says: b"b * 1 FETCH (UID 1 FLAGS (\\Deleted))\nb OK [MARK 1:88] FETCH\n",
    },
    Turn {
        others: &[],
        command: b"NOOP",
        own: &[],
        end: 88,
        says: b"b * 1 EXPUNGE\nb OK [MARK 1:88] NOOP\n",
    },
];

#[test]
fn expunge_is_told_when_numbers_may_change(rt: HostRuntime) -> Result<(), Fail> {
    assert_eq!(rt; first_other(rt.alloc(), &DELAYED, b"")?, None);
    Ok(())
}

// A session is told of what it appends and expunges itself.
const OWN: [Turn; 3] = [
    Turn {
        others: &[],
        command: b"SELECT",
        own: &[],
        end: 56,
        says: b"b * 0 EXISTS\n\
                  b * OK [UIDVALIDITY 1000]\n\
                  b * OK [UIDNEXT 1]\n\
                  b OK [MARK 1:56] SELECT\n",
    },
    Turn {
        others: &[],
        command: b"APPEND (\\Deleted) {2}",
        own: &[APPEND_1_DELETED],
        end: 72,
        says: b"b * 1 EXISTS\n\
                  b * 1 FETCH (UID 1 FLAGS (\\Deleted))\n\
                  b OK [APPENDUID 1000 1] [MARK 1:72] APPEND\n",
    },
    Turn {
        others: &[],
        command: b"EXPUNGE",
        own: &[EXPUNGE_1],
        end: 88,
        says: b"b * 1 EXPUNGE\nb OK [MARK 1:88] EXPUNGE\n",
    },
];

#[test]
fn own_append_and_expunge_are_told(rt: HostRuntime) -> Result<(), Fail> {
    assert_eq!(rt; first_other(rt.alloc(), &OWN, b"")?, None);
    Ok(())
}

// A STORE isn't told of a row that left, and the next command is, once.
const UNTOLD: [Turn; 4] = [
    Turn {
        others: &[APPEND_1_DELETED, APPEND_2],
        command: b"SELECT",
        own: &[],
        end: 88,
        says: b"b * 2 EXISTS\n\
                  b * OK [UIDVALIDITY 1000]\n\
                  b * OK [UIDNEXT 3]\n\
                  b * 1 FETCH (UID 1 FLAGS (\\Deleted))\n\
                  b * 2 FETCH (UID 2 FLAGS ())\n\
                  b OK [MARK 1:88] SELECT\n",
    },
    Turn {
        others: &[EXPUNGE_1],
        command: b"STORE 1:2 +FLAGS (\\Flagged)",
        own: &[FLAG_2],
        end: 124,
        says: b"b * 2 FETCH (UID 2 FLAGS (\\Flagged))\n\
                  b NO [EXPUNGEISSUED] UID 1 MARK 1:124\n",
    },
    Turn {
        others: &[],
        command: b"NOOP",
        own: &[],
        end: 124,
        says: b"b * 1 EXPUNGE\nb OK [MARK 1:124] NOOP\n",
    },
    Turn {
        others: &[],
        command: b"NOOP",
        own: &[],
        end: 124,
        says: b"b OK [MARK 1:124] NOOP\n",
    },
];

#[test]
fn store_leaves_a_row_that_left_for_later(rt: HostRuntime) -> Result<(), Fail> {
    assert_eq!(rt; first_other(rt.alloc(), &UNTOLD, b"")?, None);
    Ok(())
}

// Nothing is told of a row that came and left, nor of a flag that was set and taken back.
const NEVER_SHOWN: [Turn; 4] = [
    Turn {
        others: &[APPEND_1],
        command: b"SELECT",
        own: &[],
        end: 72,
        says: b"b * 1 EXISTS\n\
                  b * OK [UIDVALIDITY 1000]\n\
                  b * OK [UIDNEXT 2]\n\
                  b * 1 FETCH (UID 1 FLAGS ())\n\
                  b OK [MARK 1:72] SELECT\n",
    },
    Turn {
        others: &[APPEND_2, EXPUNGE_2],
        command: b"NOOP",
        own: &[],
        end: 104,
        says: b"b OK [MARK 1:104] NOOP\n",
    },
    Turn {
        others: &[SEE_1, UNSEE_1],
        command: b"NOOP",
        own: &[],
        end: 144,
        says: b"b OK [MARK 1:144] NOOP\n",
    },
    Turn {
        others: &[],
        command: b"FETCH 1 (MODSEQ)",
        own: &[],
        end: 144,
        says: b"b * 1 FETCH (UID 1 MODSEQ (7))\nb OK [MARK 1:144] FETCH\n",
    },
];

#[test]
fn what_came_to_nothing_is_not_told(rt: HostRuntime) -> Result<(), Fail> {
    assert_eq!(rt; first_other(rt.alloc(), &NEVER_SHOWN, b"")?, None);
    Ok(())
}

// Flags are replaced, and four searches find by them and by the message.
const SEARCHES: [Turn; 6] = [
    Turn {
        others: &[APPEND_1, SEE_1],
        command: b"SELECT",
        own: &[],
        end: 92,
        says: b"b * 1 EXISTS\n\
                  b * OK [UIDVALIDITY 1000]\n\
                  b * OK [UIDNEXT 2]\n\
                  b * 1 FETCH (UID 1 FLAGS (\\Seen))\n\
                  b OK [MARK 1:92] SELECT\n",
    },
    Turn {
        others: &[],
        command: b"STORE 1 FLAGS (\\Draft k1)",
        own: &[DRAFT_1, RESET_1, ADD_K1_TO_1],
        end: 152,
        says: b"b * 1 FETCH (UID 1 FLAGS (\\Draft k1))\nb OK [MARK 1:152] STORE\n",
    },
    Turn {
        others: &[],
        command: b"SEARCH OR SEEN KEYWORD k1",
        own: &[],
        end: 152,
        says: b"b * SEARCH 1\nb OK [MARK 1:152] SEARCH\n",
    },
    Turn {
        others: &[],
        command: b"UID SEARCH NOT DRAFT",
        own: &[],
        end: 152,
        says: b"b * SEARCH\nb OK [MARK 1:152] UID SEARCH\n",
    },
    Turn {
        others: &[],
        command: b"SEARCH LARGER 4",
        own: &[],
        end: 152,
        says: b"b * SEARCH 1\nb OK [MARK 1:152] SEARCH\n",
    },
    Turn {
        others: &[],
        command: b"SEARCH HEADER Subject \"\"",
        own: &[],
        end: 152,
        says: b"b * SEARCH\nb OK [MARK 1:152] SEARCH\n",
    },
];

#[test]
fn flags_are_replaced_and_searched(rt: HostRuntime) -> Result<(), Fail> {
    assert_eq!(rt; first_other(rt.alloc(), &SEARCHES, b"hello")?, None);
    Ok(())
}

// What is refused before SELECT, and over the empty mailbox.
const REFUSED: [Turn; 5] = [
    Turn {
        others: &[],
        command: b"NOOP",
        own: &[],
        end: 56,
        says: b"b BAD NOT SELECTED\n",
    },
    Turn {
        others: &[],
        command: b"SELECT",
        own: &[],
        end: 56,
        says: b"b * 0 EXISTS\n\
                  b * OK [UIDVALIDITY 1000]\n\
                  b * OK [UIDNEXT 1]\n\
                  b OK [MARK 1:56] SELECT\n",
    },
    Turn {
        others: &[],
        command: b"FETCH 1 (FLAGS)",
        own: &[],
        end: 56,
        says: b"b BAD NO MESSAGE 1\n",
    },
    Turn {
        others: &[],
        command: b"FETCH * (FLAGS)",
        own: &[],
        end: 56,
        says: b"b BAD NO MESSAGE 0\n",
    },
    Turn {
        others: &[],
        command: b"UID FETCH 1:* (FLAGS)",
        own: &[],
        end: 56,
        says: b"b OK [MARK 1:56] UID FETCH\n",
    },
];

#[test]
fn commands_without_their_messages_are_refused(rt: HostRuntime) -> Result<(), Fail> {
    assert_eq!(rt; first_other(rt.alloc(), &REFUSED, b"")?, None);
    Ok(())
}

// The ends of a range stand in either order, and each row is named once.
const SETS: [Turn; 5] = [
    Turn {
        others: &[APPEND_1, APPEND_2, APPEND_3],
        command: b"SELECT",
        own: &[],
        end: 104,
        says: b"b * 3 EXISTS\n\
                  b * OK [UIDVALIDITY 1000]\n\
                  b * OK [UIDNEXT 4]\n\
                  b * 1 FETCH (UID 1 FLAGS ())\n\
                  b * 2 FETCH (UID 2 FLAGS ())\n\
                  b * 3 FETCH (UID 3 FLAGS ())\n\
                  b OK [MARK 1:104] SELECT\n",
    },
    Turn {
        others: &[],
        command: b"FETCH 3:2,1:2 (FLAGS)",
        own: &[],
        end: 104,
        says: b"b * 1 FETCH (UID 1 FLAGS ())\n\
                  b * 2 FETCH (UID 2 FLAGS ())\n\
                  b * 3 FETCH (UID 3 FLAGS ())\n\
                  b OK [MARK 1:104] FETCH\n",
    },
    Turn {
        others: &[],
        command: b"FETCH *:2 (FLAGS)",
        own: &[],
        end: 104,
        says: b"b * 2 FETCH (UID 2 FLAGS ())\n\
                  b * 3 FETCH (UID 3 FLAGS ())\n\
                  b OK [MARK 1:104] FETCH\n",
    },
    Turn {
        others: &[],
        command: b"UID FETCH 9:3,7:* (FLAGS)",
        own: &[],
        end: 104,
        says: b"b * 3 FETCH (UID 3 FLAGS ())\nb OK [MARK 1:104] UID FETCH\n",
    },
    Turn {
        others: &[],
        command: b"FETCH 1,4:2 (FLAGS)",
        own: &[],
        end: 104,
        says: b"b BAD NO MESSAGE 4\n",
    },
];

#[test]
fn ranges_stand_in_either_order(rt: HostRuntime) -> Result<(), Fail> {
    assert_eq!(rt; first_other(rt.alloc(), &SETS, b"")?, None);
    Ok(())
}

// A STORE keeps its hands off a message that changed since, and names it.
const UNCHANGED_SINCE: [Turn; 4] = [
    Turn {
        others: &[APPEND_1, SEE_1],
        command: b"SELECT",
        own: &[],
        end: 92,
        says: b"b * 1 EXISTS\n\
                  b * OK [UIDVALIDITY 1000]\n\
                  b * OK [UIDNEXT 2]\n\
                  b * 1 FETCH (UID 1 FLAGS (\\Seen))\n\
                  b OK [MARK 1:92] SELECT\n",
    },
    Turn {
        others: &[],
        command: b"FETCH 1 (MODSEQ)",
        own: &[],
        end: 92,
        says: b"b * 1 FETCH (UID 1 MODSEQ (4))\nb OK [MARK 1:92] FETCH\n",
    },
    Turn {
        others: &[],
        command: b"STORE 1 (UNCHANGEDSINCE 3) +FLAGS (\\Flagged)",
        own: &[],
        end: 92,
        says: b"b OK [MODIFIED 1] [MARK 1:92] STORE\n",
    },
    Turn {
        others: &[],
        command: b"STORE 1 (UNCHANGEDSINCE 4) +FLAGS (\\Flagged)",
        own: &[FLAG_1],
        end: 112,
        says: b"b * 1 FETCH (UID 1 FLAGS (\\Flagged \\Seen))\nb OK [MARK 1:112] STORE\n",
    },
];

#[test]
fn store_names_messages_that_changed_since(rt: HostRuntime) -> Result<(), Fail> {
    assert_eq!(rt; first_other(rt.alloc(), &UNCHANGED_SINCE, b"")?, None);
    Ok(())
}

// A removal by UIDs passes over those that no row has.
const REMOVED: [Turn; 3] = [
    Turn {
        others: &[APPEND_1, SEE_1],
        command: b"SELECT",
        own: &[],
        end: 92,
        says: b"b * 1 EXISTS\n\
                  b * OK [UIDVALIDITY 1000]\n\
                  b * OK [UIDNEXT 2]\n\
                  b * 1 FETCH (UID 1 FLAGS (\\Seen))\n\
                  b OK [MARK 1:92] SELECT\n",
    },
    Turn {
        others: &[],
        command: b"UID REMOVE 1:5",
        own: &[REMOVE_1],
        end: 120,
        says: b"b * 1 EXPUNGE\nb OK [MARK 1:120] UID REMOVE\n",
    },
    Turn {
        others: &[],
        command: b"UID REMOVE 1:5",
        own: &[],
        end: 120,
        says: b"b OK [MARK 1:120] UID REMOVE\n",
    },
];

#[test]
fn removed_messages_are_told_once(rt: HostRuntime) -> Result<(), Fail> {
    assert_eq!(rt; first_other(rt.alloc(), &REMOVED, b"")?, None);
    Ok(())
}

// Of three messages one is held. A message that left comes before a damaged one, and of each
// kind the smallest UID is named.
const BODIES: [Turn; 5] = [
    Turn {
        others: &[APPEND_1, APPEND_2, APPEND_3],
        command: b"SELECT",
        own: &[],
        end: 104,
        says: b"b * 3 EXISTS\n\
                  b * OK [UIDVALIDITY 1000]\n\
                  b * OK [UIDNEXT 4]\n\
                  b * 1 FETCH (UID 1 FLAGS ())\n\
                  b * 2 FETCH (UID 2 FLAGS ())\n\
                  b * 3 FETCH (UID 3 FLAGS ())\n\
                  b OK [MARK 1:104] SELECT\n",
    },
    Turn {
        others: &[],
        command: b"FETCH 3:1 (BODY[])",
        own: &[],
        end: 104,
        says: b"b * 1 FETCH (UID 1 BODY[] {5}\nhello)\nb NO [CORRUPTION] UID 2 MARK 1:104\n",
    },
    Turn {
        others: &[EXPUNGE_3],
        command: b"FETCH 1:3 (BODY[])",
        own: &[],
        end: 120,
        says: b"b * 1 FETCH (UID 1 BODY[] {5}\n\
                  hello)\n\
                  b NO [EXPUNGEISSUED] UID 3 MARK 1:120\n",
    },
    Turn {
        others: &[EXPUNGE_2],
        command: b"FETCH 1:3 (RFC822.SIZE)",
        own: &[],
        end: 136,
        says: b"b * 1 FETCH (UID 1 RFC822.SIZE 5)\nb NO [EXPUNGEISSUED] UID 2 MARK 1:136\n",
    },
    Turn {
        others: &[],
        command: b"NOOP",
        own: &[],
        end: 136,
        says: b"b * 3 EXPUNGE\nb * 2 EXPUNGE\nb OK [MARK 1:136] NOOP\n",
    },
];

#[test]
fn messages_that_are_not_there_are_named(rt: HostRuntime) -> Result<(), Fail> {
    assert_eq!(rt; first_other(rt.alloc(), &BODIES, b"hello")?, None);
    Ok(())
}

// One row left, one changed and one is new, where numbers may change.
const MOVED: [Turn; 2] = [
    Turn {
        others: &[APPEND_1, APPEND_2],
        command: b"SELECT",
        own: &[],
        end: 88,
        says: b"b * 2 EXISTS\n\
                  b * OK [UIDVALIDITY 1000]\n\
                  b * OK [UIDNEXT 3]\n\
                  b * 1 FETCH (UID 1 FLAGS ())\n\
                  b * 2 FETCH (UID 2 FLAGS ())\n\
                  b OK [MARK 1:88] SELECT\n",
    },
    Turn {
        others: &[EXPUNGE_1, SEE_2, APPEND_3],
        command: b"NOOP",
        own: &[],
        end: 140,
        says: b"b * 1 EXPUNGE\n\
                  b * 2 EXISTS\n\
                  b * 1 FETCH (UID 2 FLAGS (\\Seen))\n\
                  b * 2 FETCH (UID 3 FLAGS ())\n\
                  b OK [MARK 1:140] NOOP\n",
    },
];

#[test]
fn all_is_told_where_numbers_may_change(rt: HostRuntime) -> Result<(), Fail> {
    assert_eq!(rt; first_other(rt.alloc(), &MOVED, b"")?, None);
    Ok(())
}

// The same, where numbers may not change.
const HELD: [Turn; 2] = [
    Turn {
        others: &[APPEND_1, APPEND_2],
        command: b"SELECT",
        own: &[],
        end: 88,
        says: b"b * 2 EXISTS\n\
                  b * OK [UIDVALIDITY 1000]\n\
                  b * OK [UIDNEXT 3]\n\
                  b * 1 FETCH (UID 1 FLAGS ())\n\
                  b * 2 FETCH (UID 2 FLAGS ())\n\
                  b OK [MARK 1:88] SELECT\n",
    },
    Turn {
        others: &[EXPUNGE_1, APPEND_3],
        command: b"STORE 2 +FLAGS (\\Seen)",
        own: &[SEE_2],
        end: 140,
        says: b"b * 3 EXISTS\n\
                  b * 2 FETCH (UID 2 FLAGS (\\Seen))\n\
                  b * 3 FETCH (UID 3 FLAGS ())\n\
                  b OK [MARK 1:140] STORE\n",
    },
];

#[test]
fn no_expunge_is_told_where_numbers_are_held(rt: HostRuntime) -> Result<(), Fail> {
    assert_eq!(rt; first_other(rt.alloc(), &HELD, b"")?, None);
    Ok(())
}
