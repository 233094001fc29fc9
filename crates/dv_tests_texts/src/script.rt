use dv_model::{Bytes, Command, Key, List, Mark, NoMemory, Reply, Value, Word};
use dv_script::{
    ScriptEnd, decimal_text, mark_text, parse, print_script, replies_text, reply_text,
};
use std::alloc::Global;
use std::test::*;

fn end_of(alloc: Global, script: &[u8]) -> Option<ScriptEnd> {
    parse(alloc, script).err()
}

const FIRST: ScriptEnd = ScriptEnd::BadLine { line: 1 };

// Whether the command is an APPEND of these flags, so many keywords and this message.
fn is_append(command: &Command, wanted: (u8, usize), bytes: &[u8]) -> bool {
    match command {
        Command::Append {
            flags,
            keywords,
            message,
        } => (*flags, keywords.len()) == wanted && message.as_slice() == bytes,
        _ => false,
    }
}

// Whether the first of two lines is an APPEND of six bytes.
fn begins_with_append(alloc: Global, script: &[u8]) -> Result<bool, ScriptEnd> {
    let lines = parse(alloc, script)?;
    match lines.as_slice() {
        [first, _] => Ok(is_append(&first.command, (8, 1), b"a\nb\r\n\n")),
        _ => Ok(false),
    }
}

fn end_of_line_feeds(alloc: Global, count: usize) -> Result<Option<ScriptEnd>, NoMemory> {
    let script = vec![in alloc; b'\n'; count]?;
    Ok(end_of(alloc, script.as_slice()))
}

#[test]
fn a_literal_has_its_bytes_and_faults_their_lines(rt: HostRuntime) {
    let alloc = rt.alloc();
    let script = b"a APPEND (\\Seen k \\Seen k) {6}\r\na\nb\r\n\n\na NOOP\nb NOPE";
    assert_eq!(rt; begins_with_append(alloc, &script[..46]), Ok(true));
    assert_eq!(rt; end_of(alloc, script), Some(ScriptEnd::BadLine { line: 7 }));
    let short = Some(ScriptEnd::ShortLiteral { line: 2 });
    assert_eq!(rt; end_of(alloc, b"#\na APPEND () {3}\nab"), short);
    let long = Ok(Some(ScriptEnd::TooLong));
    assert_eq!(rt; end_of_line_feeds(alloc, 67_108_865), long);
}

// Lines that each break the form at one place.
const BAD: [&[u8]; 12] = [
    b"a",
    b"a  NOOP",
    b"a noop",
    b"a UID NOOP",
    b"a APPEND () {01}",
    b"a FETCH 4294967296 (FLAGS)",
    b"a FETCH 1 (FLAGS FLAGS FLAGS FLAGS FLAGS FLAGS FLAGS FLAGS FLAGS)",
    b"a STORE 1 FLAGS (\\seen)",
    b"a STORE 1 (UNCHANGEDSINCE 9223372036854775808) FLAGS ()",
    b"a SEARCH OR ALL",
    b"a SEARCH HEADER to \"\\\"",
    b"a UID REMOVE ",
];

#[test]
fn lines_of_no_form_are_refused(rt: HostRuntime) {
    for line in BAD {
        assert_eq!(rt; end_of(rt.alloc(), line), Some(FIRST), "{line:?}");
    }
}

// Commands in their printed form.
const PRINTED: &[u8] = b"a SELECT
b2 NOOP
a CHECK
a EXPUNGE
a APPEND (\\Seen \\Draft k1 Z) {2}
x

a APPEND () {0}

a FETCH 1,2:*,* (FLAGS RFC822.SIZE BODY[] FIELD To MODSEQ)
a UID STORE 3:9 (UNCHANGEDSINCE 7) -FLAGS (\\Answered)
a STORE 1 +FLAGS (k)
a STORE 1 FLAGS ()
a SEARCH ALL
a UID SEARCH UNSEEN OR (KEYWORD k LARGER 10) NOT (UID 1:2,4 FLAGGED)
a SEARCH HEADER To \"a (b\"
a UID REMOVE 1:3,9
";

// Whether the script is printed so, of as many lines.
fn prints(alloc: Global, script: &[u8], count: usize, wanted: &[u8]) -> Result<bool, ScriptEnd> {
    let lines = parse(alloc, script)?;
    let text = print_script(alloc, &lines)?;
    Ok(lines.len() == count && text.as_slice() == wanted)
}

#[test]
fn a_printed_script_is_printed_again(rt: HostRuntime) {
    assert_eq!(rt; prints(rt.alloc(), PRINTED, 14, PRINTED), Ok(true));
    let loose =
        b"#\na SEARCH ((ALL)) (SEEN (DRAFT UID 7:7))\r\na STORE 1 FLAGS (k \\Draft \\Seen k)";
    let tight = b"a SEARCH ALL (SEEN (DRAFT UID 7))\na STORE 1 FLAGS (\\Seen \\Draft k)\n";
    assert_eq!(rt; prints(rt.alloc(), loose, 2, tight), Ok(true));
}

// Whether the key is OR of SEEN and NOT UNDRAFT, and LARGER 7.
fn is_that_key(key: &Key) -> bool {
    let Key::And(keys) = key else {
        return false;
    };
    let [Key::Or(one, other), Key::Larger(7)] = keys.as_slice() else {
        return false;
    };
    let (Key::Has(8), Key::Not(inside)) = (one.get(), other.get()) else {
        return false;
    };
    matches!(inside.get(), Key::Lacks(16))
}

fn is_that_search(command: &Command) -> bool {
    matches!(command, Command::Search { by_uid: true, key } if is_that_key(key))
}

fn searches(alloc: Global, script: &[u8]) -> Result<bool, ScriptEnd> {
    let lines = parse(alloc, script)?;
    match lines.as_slice() {
        [line] => Ok(is_that_search(&line.command)),
        _ => Ok(false),
    }
}

#[test]
fn keys_and_sets_say_what_stands_there(rt: HostRuntime) {
    let script = b"a UID SEARCH (OR SEEN NOT UNDRAFT) LARGER 7\n";
    assert_eq!(rt; searches(rt.alloc(), script), Ok(true));
}

const MARK: Mark = Mark {
    file_seq: 1,
    offset: 72,
};

fn fetch_one(alloc: Global, value: Value) -> Result<Reply, NoMemory> {
    let mut values = List::new(alloc);
    values.push(value)?;
    Ok(Reply::Fetch {
        number: 1,
        uid: 1,
        values,
    })
}

// The answer of a first append.
fn replies(alloc: Global) -> Result<List<Reply>, NoMemory> {
    let mut replies = List::new(alloc);
    replies.push(Reply::Exists(1))?;
    replies.push(fetch_one(alloc, Value::Flags(0, List::new(alloc)))?)?;
    replies.push(Reply::Done {
        word: Word::Append,
        mark: MARK,
        appended: Some((1000, 1)),
        modified: List::new(alloc),
    })?;
    Ok(replies)
}

fn replies_print(alloc: Global, wanted: &[u8]) -> Result<bool, NoMemory> {
    let replies = replies(alloc)?;
    let text = replies_text(alloc, b"a", &replies)?;
    Ok(text.as_slice() == wanted)
}

#[test]
fn the_answer_of_a_first_append(rt: HostRuntime) {
    let wanted =
        b"a * 1 EXISTS\na * 1 FETCH (UID 1 FLAGS ())\na OK [APPENDUID 1000 1] [MARK 1:72] APPEND\n";
    assert_eq!(rt; replies_print(rt.alloc(), wanted), Ok(true));
}

fn bytes_of(alloc: Global, bytes: &[u8]) -> Result<Bytes, NoMemory> {
    Ok(List::from_slice(alloc, bytes)?)
}

fn draft_and_k1(alloc: Global) -> Result<Value, NoMemory> {
    let name = bytes_of(alloc, b"k1")?;
    let mut keywords = List::new(alloc);
    keywords.push(name)?;
    Ok(Value::Flags(0x30, keywords))
}

// The field `to` with the value Hi.
fn field_to(alloc: Global) -> Result<Value, NoMemory> {
    let found = bytes_of(alloc, b"Hi")?;
    Ok(Value::Field(bytes_of(alloc, b"to")?, Some(found)))
}

fn add_values(alloc: Global, values: &mut List<Value>) -> Result<(), NoMemory> {
    values.push(draft_and_k1(alloc)?)?;
    values.push(Value::Size(5))?;
    values.push(Value::Body(bytes_of(alloc, b"hello")?))?;
    values.push(Value::Field(bytes_of(alloc, b"Subject")?, None))?;
    values.push(field_to(alloc)?)?;
    values.push(Value::Modseq(7))?;
    Ok(())
}

fn fetch_of_all(alloc: Global) -> Result<Reply, NoMemory> {
    let mut values = List::new(alloc);
    add_values(alloc, &mut values)?;
    Ok(Reply::Fetch {
        number: 2,
        uid: 3,
        values,
    })
}

fn values_print(alloc: Global, wanted: &[u8]) -> Result<bool, NoMemory> {
    let reply = fetch_of_all(alloc)?;
    let text = reply_text(alloc, b"a", &reply)?;
    Ok(text.as_slice() == wanted)
}

#[test]
fn values_of_a_fetch(rt: HostRuntime) {
    let wanted =
        b"a * 2 FETCH (UID 3 FLAGS (\\Draft k1) RFC822.SIZE 5 BODY[] {5}\nhello FIELD Subject NIL FIELD to {2}\nHi MODSEQ (7))\n";
    assert_eq!(rt; values_print(rt.alloc(), wanted), Ok(true));
}

fn is_mark(alloc: Global, wanted: &[u8]) -> Result<bool, NoMemory> {
    let text = mark_text(alloc, MARK)?;
    Ok(text.as_slice() == wanted)
}

fn is_largest(alloc: Global, wanted: &[u8]) -> Result<bool, NoMemory> {
    let text = decimal_text(alloc, u64::MAX)?;
    Ok(text.as_slice() == wanted)
}

#[test]
fn numbers_have_texts(rt: HostRuntime) {
    assert_eq!(rt; is_mark(rt.alloc(), b"MARK 1:72"), Ok(true));
    assert_eq!(rt; is_largest(rt.alloc(), b"18446744073709551615"), Ok(true));
}
