use crate::{Answer, Call, open_lines};
use dv_model::{Bytes, List, NoMemory};
use dv_script::ScriptEnd;
use dv_shelf::MemSink;
use std::alloc::Global;
use std::test::*;

fn is_same(call: Call<'_>, wanted: Call<'_>) -> bool {
    match (call, wanted) {
        (Call::Save(a), Call::Save(b)) => a == b,
        (Call::Copy(a), Call::Copy(b)) => a == b,
        (Call::Drop(a), Call::Drop(b)) => a == b,
        (Call::Get(a), Call::Get(b)) => a == b,
        (Call::Purge, Call::Purge) => true,
        _ => false,
    }
}

// Whether the script says these calls and no other.
fn says(script: &[u8], wanted: &[Call<'_>]) -> bool {
    let Ok(mut calls) = open_lines(script) else {
        return false;
    };
    for one in wanted {
        match calls.next() {
            Some(call) if is_same(call, *one) => {}
            _ => return false,
        }
    }
    calls.next().is_none()
}

fn fault_of(script: &[u8]) -> Option<ScriptEnd> {
    open_lines(script).err()
}

#[test]
fn each_line_says_its_call(rt: HostRuntime) {
    let all = b"SAVE {6}\r\na\nb\r\n\n\n# none\n\nCOPY 1\nDROP 0\nGET 4294967295\r\nPURGE";
    let calls = [
        Call::Save(b"a\nb\r\n\n"),
        Call::Copy(1),
        Call::Drop(0),
        Call::Get(4_294_967_295),
        Call::Purge,
    ];
    assert_eq!(rt; says(all, &calls), true);
    assert_eq!(rt; says(b"", &[]), true);
    assert_eq!(rt; says(b"#", &[]), true);
    assert_eq!(rt; says(b"SAVE {0}", &[Call::Save(b"")]), true);
    assert_eq!(rt;
        says(b"SAVE {0}\n\nGET 7", &[Call::Save(b""), Call::Get(7)]),
        true
    );
    assert_eq!(rt; says(b"SAVE {2}\nhi", &[Call::Save(b"hi")]), true);
    assert_eq!(rt; says(b"SAVE {2}\n\r\n\r\n", &[Call::Save(b"\r\n")]), true);
}

// Lines that each break the form at one place.
const BAD: [&[u8]; 13] = [
    b"COPY",
    b"COPY ",
    b"COPY  1",
    b" COPY 1",
    b"COPY 1 ",
    b"copy 1",
    b"COPY 01",
    b"COPY -1",
    b"GET 4294967296",
    b"DROP 1\r",
    b"PURGE 1",
    b"SAVE {4294967296}",
    b"SAVE (1)",
];

#[test]
fn lines_of_no_form_are_refused(rt: HostRuntime) {
    for line in BAD {
        assert_eq!(rt;
            fault_of(line),
            Some(ScriptEnd::BadLine { line: 1 }),
            "{line:?}"
        );
    }
}

// Scripts with a fault, and the fault.
const FAULTS: [(&[u8], ScriptEnd); 7] = [
    (b"SAVE {1}", ScriptEnd::ShortLiteral { line: 1 }),
    (b"SAVE {3}\nab", ScriptEnd::ShortLiteral { line: 1 }),
    (
        b"GET 1\n#\nSAVE {3}\r\n\n\n",
        ScriptEnd::ShortLiteral { line: 3 },
    ),
    (b"SAVE {1}\nab\nPURGE", ScriptEnd::BadLine { line: 1 }),
    (
        b"SAVE {3}\n\n\n\n\nGET x\nNO",
        ScriptEnd::BadLine { line: 6 },
    ),
    (b"\n\r\nPURGE\r\r\n", ScriptEnd::BadLine { line: 3 }),
    (b"a SELECT\n", ScriptEnd::BadLine { line: 1 }),
];

fn end_of_line_feeds(alloc: Global, count: usize) -> Result<Option<ScriptEnd>, NoMemory> {
    let script = vec![in alloc; b'\n'; count]?;
    Ok(fault_of(script.as_slice()))
}

// A comment of so many bytes.
fn end_of_comment(alloc: Global, count: usize) -> Result<Option<ScriptEnd>, NoMemory> {
    let script = vec![in alloc; b'#'; count]?;
    Ok(fault_of(script.as_slice()))
}

#[test]
fn faults_have_their_lines(rt: HostRuntime) {
    for (script, fault) in FAULTS {
        assert_eq!(rt; fault_of(script), Some(fault), "{script:?}");
    }
    let alloc = rt.alloc();
    assert_eq!(rt;
        end_of_line_feeds(alloc, 67_108_865),
        Ok(Some(ScriptEnd::TooLong))
    );
    assert_eq!(rt; end_of_comment(alloc, 65_536), Ok(None));
    assert_eq!(rt;
        end_of_comment(alloc, 65_537),
        Ok(Some(ScriptEnd::BadLine { line: 1 }))
    );
}

// Whether the answer is written so.
fn is_written(alloc: Global, answer: Answer, wanted: &[u8]) -> Result<bool, NoMemory> {
    let mut sink = MemSink::new(alloc, 100, List::new(alloc))?;
    let done = answer.write_to(&mut sink).is_ok();
    Ok(done && sink.taken() == wanted)
}

fn is_message_written(alloc: Global, message: &[u8], wanted: &[u8]) -> Result<bool, NoMemory> {
    let bytes = Bytes::from_slice(alloc, message)?;
    is_written(alloc, Answer::Held(bytes), wanted)
}

#[test]
fn answers_have_their_texts(rt: HostRuntime) {
    let alloc = rt.alloc();
    assert_eq!(rt;
        is_written(alloc, Answer::Done(4294967294), b"OK 4294967294\n"),
        Ok(true)
    );
    assert_eq!(rt; is_message_written(alloc, b"bc", b"OK {2}\nbc\n"), Ok(true));
    assert_eq!(rt; is_message_written(alloc, b"", b"OK {0}\n\n"), Ok(true));
    assert_eq!(rt;
        is_written(alloc, Answer::Purged(0), b"OK PURGED 0\n"),
        Ok(true)
    );
    assert_eq!(rt;
        is_written(alloc, Answer::Damaged, b"NO DAMAGED\n"),
        Ok(true)
    );
    assert_eq!(rt; is_written(alloc, Answer::None, b"NO NONE\n"), Ok(true));
    assert_eq!(rt; is_written(alloc, Answer::Full, b"NO FULL\n"), Ok(true));
    assert_eq!(rt; is_written(alloc, Answer::Ids, b"NO IDS\n"), Ok(true));
    assert_eq!(rt; is_written(alloc, Answer::Files, b"NO FILES\n"), Ok(true));
    assert_eq!(rt;
        is_written(alloc, Answer::TooLong(48), b"NO BYTES 48\n"),
        Ok(true)
    );
    assert_eq!(rt;
        is_written(alloc, Answer::Disk(1), b"NO DISK 1\n"),
        Ok(true)
    );
}
