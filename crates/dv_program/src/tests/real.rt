use super::{count_of, obeyed, path_of};
use std::fs;
use std::process::Abort;
use std::sync::Wait;
use std::test::Fail;
use std::thread::Threads;
use std::time::{SystemTime, UNIX_EPOCH};

/// The number at a place of a file.
fn number_at(bytes: &[u8], at: usize) -> u64 {
    let (_, rest) = bytes.split_at(at.min(bytes.len()));
    match rest {
        [a, b, c, d, ..] => u64::from(u32::from_le_bytes([*a, *b, *c, *d])),
        _ => 0,
    }
}

#[test]
fn the_named_folder_is_made_by_the_real_clock(rt: HostRuntime) -> Result<(), Fail> {
    let alloc = rt.alloc();
    let path = path_of(rt, "named")?;
    let (status, out, errors) = obeyed(rt, &rt, &[path.as_str(), "run"])?;
    assert_eq!(rt; status, 0);
    assert!(rt; out.taken() == b"END 0 MARK 1:56 GROUPS 0\n".as_slice());
    assert!(rt; errors.taken().is_empty());
    let log = fs::read(&rt, format!(in alloc; "{path}/dovecot.index.log")?)?;
    let made = number_at(log.as_slice(), 4);
    let now = SystemTime::now(&rt)?.duration_since(UNIX_EPOCH)?.as_secs();
    assert!(rt; made <= now && now - made < 1000, "{made}");
    fs::remove_dir_all(&rt, path.as_str())?;
    Ok(())
}

#[test]
fn a_script_without_lines_is_served_in_threads(rt: HostRuntime) -> Result<(), Fail> {
    let path = path_of(rt, "threads")?;
    for _ in 0..2 {
        let (status, out, errors) = obeyed(rt, &rt, &[path.as_str(), "run", "--threads"])?;
        assert_eq!(rt; status, 0);
        assert!(rt; out.taken() == b"END 0 MARK 1:56 GROUPS 0\n".as_slice());
        assert!(rt; errors.taken().is_empty());
    }
    fs::remove_dir_all(&rt, path.as_str())?;
    Ok(())
}

const USAGE: &str =
    "usage: sdbox FOLDER run < SCRIPT\n       sdbox FOLDER run --threads < SCRIPT\n       \
    sdbox FOLDER pop3 < LINES\n       sdbox FOLDER watch KEY < SCRIPT\n       \
    sdbox FOLDER rebuild\n       \
    sdbox FOLDER gen SEED COUNT SESSIONS\n       sdbox FOLDER resync VALIDITY MODSEQ SET\n       \
    sdbox FOLDER mdbox < SCRIPT\n";

#[test]
fn wrong_words_are_told_on_both_outputs(rt: HostRuntime) -> Result<(), Fail> {
    for words in [
        &["nowhere_at_all", "run", "--thread"] as &[&str],
        &["nowhere_at_all", "run", "--threads", "2"],
        &["nowhere_at_all", "watch", "--threads"],
        &["nowhere_at_all"],
        &[],
    ] {
        let (status, out, errors) = obeyed(rt, &rt, words)?;
        assert_eq!(rt; status, 1);
        assert!(rt; out.taken() == b"FAULT 1 USAGE\n".as_slice());
        assert!(rt; errors.taken() == USAGE.as_bytes());
    }
    Ok(())
}

#[test]
fn help_names_each_command(rt: HostRuntime) -> Result<(), Fail> {
    let (status, out, errors) = obeyed(rt, &rt, &["--help"])?;
    assert_eq!(rt; status, 0);
    assert!(rt; errors.taken().is_empty());
    for word in [
        "SELECT",
        "NOOP",
        "CHECK",
        "APPEND",
        "EXPUNGE",
        "FETCH",
        "STORE",
        "SEARCH",
        "UID REMOVE",
        "UIDL",
        "RETR",
        "DELE",
        "RSET",
        "QUIT",
        "SAVE",
        "COPY",
        "DROP",
        "GET",
        "PURGE",
    ] {
        assert!(rt; count_of(out.taken(), word.as_bytes()) > 0, "{word}");
    }
    Ok(())
}

#[test]
fn a_rebuild_makes_no_folder(rt: HostRuntime) -> Result<(), Fail> {
    let path = path_of(rt, "missing")?;
    let (status, out, _errors) = obeyed(rt, &rt, &[path.as_str(), "rebuild"])?;
    assert_eq!(rt; status, 2);
    assert!(rt; out.taken() == b"FAULT 2 DISK 1\n".as_slice());
    assert!(rt; fs::metadata(&rt, path.as_str()).is_err());
    Ok(())
}

#[test]
fn a_rebuild_says_what_it_found(rt: HostRuntime) -> Result<(), Fail> {
    let path = path_of(rt, "empty")?;
    fs::create_dir(&rt, path.as_str())?;
    let (status, out, errors) = obeyed(rt, &rt, &[path.as_str(), "rebuild"])?;
    assert_eq!(rt; status, 0);
    assert!(rt; out.taken() == b"END 0 REBUILT kept 0 skipped 0\n".as_slice());
    assert!(rt; !errors.taken().is_empty());
    fs::remove_dir_all(&rt, path.as_str())?;
    Ok(())
}

/// Fails unless the folder that the first word made is refused by the other.
fn is_refused_by<R: Abort + Threads + Wait + Sync>(
    rt: HostRuntime,
    threads: &R,
    word: &'static str,
    other: &'static str,
) -> Result<(), Fail> {
    let path = path_of(rt, word)?;
    let (status, out, _errors) = obeyed(rt, threads, &[path.as_str(), word])?;
    assert_eq!(threads; status, 0);
    assert!(threads; out.taken() == b"END 0 MARK 1:56 GROUPS 0\n".as_slice());
    let (status, out, _errors) = obeyed(rt, threads, &[path.as_str(), other])?;
    assert_eq!(threads; status, 2);
    assert!(threads; out.taken() == b"FAULT 2 DISK 1\n".as_slice());
    fs::remove_dir_all(&rt, path.as_str())?;
    Ok(())
}

#[test]
fn neither_word_takes_a_folder_of_the_other(rt: HostRuntime) -> Result<(), Fail> {
    is_refused_by(rt, &rt, "run", "mdbox")?;
    is_refused_by(rt, &rt, "mdbox", "run")
}
