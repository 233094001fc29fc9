use dv_model::{Bytes, List, Reply, Value};
use dv_replies::parse_reply;
use dv_script::reply_text;
use dv_sets::ParseEnd;
use std::alloc::Global;
use std::test::*;

// Each is one reply, and all that may follow is another.
const GOOD: [&[u8]; 22] = [
    b"a * 0 EXISTS\n",
    b"a * OK [UIDVALIDITY 1000]\n",
    b"a * OK [UIDNEXT 4294967295]\n",
    b"a OK [MARK 1:56] SELECT\n",
    b"s64 OK [APPENDUID 1000 4294967294] [MARK 1:76] APPEND\n",
    b"a * 1 FETCH (UID 1 FLAGS ())\n",
    b"a * 1 FETCH (UID 1 FLAGS (\\Answered \\Flagged \\Deleted \\Seen \\Draft k1 k1))\n",
    b"a * 2 FETCH (UID 3 FLAGS (K) RFC822.SIZE 5 BODY[] {5}\nhel)\n FIELD to {2}\nHi MODSEQ (7))\n",
    b"a * 2 FETCH (UID 3 FIELD Subject NIL BODY[] {0}\n)\n",
    b"a * 2 FETCH (UID 3)\n",
    b"b * 9 EXPUNGE\n",
    b"a * SEARCH\n",
    b"a * SEARCH 1 12\n",
    b"a OK [MODIFIED 7,9] [MARK 1:92] UID STORE\n",
    b"b NO [EXPUNGEISSUED] UID 1 MARK 1:124\n",
    b"b NO [EXPUNGEISSUED] [MODIFIED 2] UID 1 MARK 1:124\n",
    b"a NO [CORRUPTION] UID 1 MARK 1:72\n",
    b"a NO [UNAVAILABLE] FAULTS 18446744073709551615\n",
    b"a NO [LIMIT] UIDS\n",
    b"a NO [LIMIT] BYTES 33554433\n",
    b"a BAD NOT SELECTED\n",
    b"a BAD NO MESSAGE 0\n",
];

// Whether the text of the reply that begins the line is the line.
fn is_printed_again(alloc: Global, line: &[u8]) -> Result<bool, ParseEnd> {
    let (session, reply, size) = parse_reply(alloc, line)?;
    let again = reply_text(alloc, session.as_slice(), &reply)?;
    Ok(size == line.len() && again.as_slice() == line)
}

#[test]
fn each_line_is_read_and_printed_again(rt: HostRuntime) {
    for line in GOOD {
        assert_eq!(rt; is_printed_again(rt.alloc(), line), Ok(true), "{line:?}");
    }
}

fn are_values(keywords: &List<Bytes>, bytes: &Bytes) -> bool {
    keywords.len() == 1 && bytes.as_slice() == b") \n".as_slice()
}

// Whether the reply is a FETCH of UID 7 with two flags, a keyword and a body.
fn is_fetch(reply: &Reply) -> bool {
    let Reply::Fetch {
        number: 1,
        uid: 7,
        values,
    } = reply
    else {
        return false;
    };
    let [Value::Flags(10, keywords), Value::Body(bytes)] = values.as_slice() else {
        return false;
    };
    are_values(keywords, bytes)
}

fn reads_fetch(alloc: Global, text: &[u8]) -> Result<bool, ParseEnd> {
    let (_, reply, _) = parse_reply(alloc, text)?;
    Ok(is_fetch(&reply))
}

#[test]
fn values_are_those_that_stand_there(rt: HostRuntime) {
    let text = b"a * 1 FETCH (UID 7 FLAGS (\\Flagged \\Seen k) BODY[] {3}\n) \n)\n";
    assert_eq!(rt; reads_fetch(rt.alloc(), text), Ok(true));
}

// None is a reply.
const BAD: [&[u8]; 9] = [
    b"",
    b"a * 1 EXISTS",
    b"A * 1 EXISTS\n",
    b"a * 4294967296 EXISTS\n",
    b"a * SEARCH 1  2\n",
    b"a * 1 FETCH (UID 1 FLAGS (\\Seen \\Flagged))\n",
    b"a * 1 FETCH (UID 1 BODY[] {7}\nhello)\n",
    b"a OK [MARK 1:72] LOGOUT\n",
    b"a NO [UNAVAILABLE] FAULTS 18446744073709551616\n",
];

fn end_of(alloc: Global, line: &[u8]) -> Option<ParseEnd> {
    parse_reply(alloc, line).err()
}

#[test]
fn other_lines_are_refused(rt: HostRuntime) {
    for line in BAD {
        assert_eq!(rt; end_of(rt.alloc(), line), Some(ParseEnd::Bad), "{line:?}");
    }
}
