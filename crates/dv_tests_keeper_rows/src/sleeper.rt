use crate::plays::played;
use dv_model::Bytes;
use dv_tests_keeper::Ask;
use dv_tests_keeper::Ask::Line;
use std::alloc::Global;
use std::test::Fail;

const STORES: u32 = 400;

// The sleepers: before which STORE each of them selects the mailbox.
const SLEEPERS: &[(&str, u32)] = &[
    ("b", 1),
    ("c", 1),
    ("d", 60),
    ("e", 120),
    ("f", 180),
    ("g", 240),
    ("h", 300),
    ("i", 360),
];

// 164 appends.
fn appends<'a>(alloc: Global) -> Result<Vec<Ask<'a>>, Fail> {
    let mut asks = Vec::new(alloc);
    asks.push(Line(b"a SELECT\n"))?;
    for _ in 0..164 {
        asks.push(Line(b"a APPEND () {1}\nx\n"))?;
    }
    Ok(asks)
}

// A STORE of every second message of 164.
fn store(alloc: Global) -> Result<Bytes, Fail> {
    let mut line = Bytes::from_slice(alloc, b"a STORE 1")?;
    for k in 1..82u32 {
        line.extend(format!(in alloc; ",{}", 2 * k + 1)?.as_bytes())?;
    }
    line.extend(b" +FLAGS (\\Seen)\n")?;
    Ok(line)
}

// This command of each sleeper.
fn lines(alloc: Global, command: &str) -> Result<Vec<Bytes>, Fail> {
    let mut lines = Vec::new(alloc);
    for (name, _) in SLEEPERS {
        let line = format!(in alloc; "{name} {command}\n")?;
        lines.push(Bytes::from_slice(alloc, line.as_bytes())?)?;
    }
    Ok(lines)
}

// Those sleepers select the mailbox that do it before this STORE.
fn add_selects<'a>(asks: &mut Vec<Ask<'a>>, store: u32, selects: &'a [Bytes]) -> Result<(), Fail> {
    for ((_, before), select) in SLEEPERS.iter().zip(selects) {
        if *before == store {
            asks.push(Line(select.as_slice()))?;
        }
    }
    Ok(())
}

// 164 appends, and 400 times that STORE, while the sleepers select the mailbox.
fn asks<'a>(alloc: Global, store: &'a [u8], selects: &'a [Bytes]) -> Result<Vec<Ask<'a>>, Fail> {
    let mut asks = appends(alloc)?;
    for at in 1..=STORES {
        add_selects(&mut asks, at, selects)?;
        asks.push(Line(store))?;
    }
    Ok(asks)
}

// What a session is told that sleeps through all STOREs.
fn tell_rows(alloc: Global, name: &str, text: &mut Bytes) -> Result<(), Fail> {
    for k in 0..82u32 {
        let n = 2 * k + 1;
        let line = format!(in alloc; "{name} * {n} FETCH (UID {n} FLAGS (\\Seen))\n")?;
        text.extend(line.as_bytes())?;
    }
    Ok(())
}

// What the sleepers are told at the end: of the flags, those that selected the mailbox before the
// first STORE. A STORE is a record of 992 bytes. Rotations come before the 131st, 264th and 397th,
// and a file begins at 40.
fn told(alloc: Global) -> Result<Bytes, Fail> {
    let mut text = Bytes::new(alloc);
    for (name, before) in SLEEPERS {
        if *before == 1 {
            tell_rows(alloc, name, &mut text)?;
        }
        text.extend(format!(in alloc; "{name} OK [MARK 4:4008] NOOP\n")?.as_bytes())?;
    }
    Ok(text)
}

#[test]
fn a_sleeper_hears_once_of_what_changed(rt: HostRuntime) -> Result<(), Fail> {
    let alloc = rt.alloc();
    let store = store(alloc)?;
    let selects = lines(alloc, "SELECT")?;
    let noops = lines(alloc, "NOOP")?;
    let mut asks = asks(alloc, store.as_slice(), selects.as_slice())?;
    for noop in &noops {
        asks.push(Line(noop.as_slice()))?;
    }
    let played = played(&rt, alloc, 9, &asks)?;
    assert!(rt; played.out.taken().ends_with(told(alloc)?.as_slice()));
    assert_eq!(rt; played.entries, 564);
    Ok(())
}
