use crate::cases::{Case, print, refuse};
use std::test::Fail;

const SEEN: &[u8] = b"a SELECT\na APPEND () {5}\nhello\na STORE 1 +FLAGS (\\Seen)\n";

const EXPUNGED: &[u8] = b"a SELECT\na APPEND () {1}\n1\na APPEND () {1}\n2\na APPEND () {1}\n3\n\
    a APPEND () {1}\n4\na APPEND () {1}\n5\na APPEND () {1}\n6\na APPEND () {1}\n7\n\
    a APPEND () {1}\n8\na APPEND () {1}\n9\na STORE 5:9 +FLAGS (\\Deleted)\na EXPUNGE\n";

const CASES: &[Case] = &[
    // A changed message.
    Case {
        script: Some(SEEN),
        words: &["resync", "1000", "3", "1:5"],
        sink_fails: &[],
        status: 0,
        output: "* 1 FETCH (UID 1 FLAGS (\\Seen) MODSEQ (4))\n* OK [HIGHESTMODSEQ 4]\n\
            END 0 MARK 1:92 GROUPS 0\n",
    },
    // Messages that are gone.
    Case {
        script: Some(EXPUNGED),
        words: &["resync", "1000", "12", "1:9"],
        sink_fails: &[],
        status: 0,
        output: "* VANISHED (EARLIER) 5:9\n* OK [HIGHESTMODSEQ 13]\nEND 0 MARK 1:328 GROUPS 0\n",
    },
    // `*` is the last UID that was given out.
    Case {
        script: Some(EXPUNGED),
        words: &["resync", "1000", "13", "*,6:5"],
        sink_fails: &[],
        status: 0,
        output: "* VANISHED (EARLIER) 5:6,9\n* OK [HIGHESTMODSEQ 13]\nEND 0 MARK 1:328 GROUPS 0\n",
    },
    // Another UIDVALIDITY.
    Case {
        script: Some(SEEN),
        words: &["resync", "999", "0", "1"],
        sink_fails: &[],
        status: 0,
        output: "* OK [UIDVALIDITY 1000]\n* 1 FETCH (UID 1 FLAGS (\\Seen) MODSEQ (4))\n\
            * OK [HIGHESTMODSEQ 4]\nEND 0 MARK 1:92 GROUPS 0\n",
    },
    // A mailbox that is made, and the largest numbers.
    Case {
        script: None,
        words: &["resync", "1000", "9223372036854775807", "4294967295:*,*"],
        sink_fails: &[],
        status: 0,
        output: "* OK [HIGHESTMODSEQ 2]\nEND 0 MARK 1:56 GROUPS 0\n",
    },
    Case {
        script: None,
        words: &["resync", "4294967295", "0", "*:1,2"],
        sink_fails: &[],
        status: 0,
        output: "* OK [UIDVALIDITY 1000]\n* OK [HIGHESTMODSEQ 2]\nEND 0 MARK 1:56 GROUPS 0\n",
    },
    // The answers can't be written, or the last line.
    Case {
        script: Some(SEEN),
        words: &["resync", "1000", "3", "1:5"],
        sink_fails: &[1],
        status: 7,
        output: "",
    },
    Case {
        script: Some(SEEN),
        words: &["resync", "1000", "3", "1:5"],
        sink_fails: &[2],
        status: 7,
        output: "* 1 FETCH (UID 1 FLAGS (\\Seen) MODSEQ (4))\n* OK [HIGHESTMODSEQ 4]\n",
    },
];

#[test]
fn clients_hear_of_the_folder(rt: HostRuntime) -> Result<(), Fail> {
    for case in CASES {
        print(rt.alloc(), case)?;
    }
    Ok(())
}

const REFUSED: &[&[&str]] = &[
    &["resync"],
    &["resync", "1000", "3"],
    &["resync", "1000", "3", "1", "2"],
    &["RESYNC", "1000", "3", "1"],
    &["resync", "", "3", "1"],
    &["resync", "01000", "3", "1"],
    &["resync", "+1000", "3", "1"],
    &["resync", "4294967296", "3", "1"],
    &["resync", "1000", "-3", "1"],
    &["resync", "1000", "9223372036854775808", "1"],
    &["resync", "1000", "18446744073709551616", "1"],
    &["resync", "1000", "3", ""],
    &["resync", "1000", "3", "0"],
    &["resync", "1000", "3", "01"],
    &["resync", "1000", "3", "1,"],
    &["resync", "1000", "3", ",1"],
    &["resync", "1000", "3", "1,,2"],
    &["resync", "1000", "3", "1:"],
    &["resync", "1000", "3", "1:2:3"],
    &["resync", "1000", "3", "1 2"],
    &["resync", "1000", "3", "**"],
    &["resync", "1000", "3", "4294967296"],
];

#[test]
fn other_words_are_refused(rt: HostRuntime) -> Result<(), Fail> {
    for words in REFUSED {
        refuse(rt.alloc(), words)?;
    }
    Ok(())
}
