use crate::{MailFile, guids_of, mail_text, put, read_mail, sweep};
use dv_model::{Bytes, List};
use dv_shelf::{MemShelf, Name, Shelf, ShelfFault};
use std::alloc::Global;
use std::test::*;

// The message hello as UID 1 of the mailbox 1000, made and received at 1001.
const FIRST: &[u8] =
    b"2 M1e C3e9\n\x01\x02N          0000000000000005\nhello\n\x01\x03\nG000003e8000003e800000001000003e9\nR3e9\nZ5\nV5\n\n";

const GUID: [u8; 16] = [0, 0, 3, 0xe8, 0, 0, 3, 0xe8, 0, 0, 0, 1, 0, 0, 3, 0xe9];

// A folder with that message as UID 1 and a file of another format as UID 2, of which these calls
// fail.
fn folder(alloc: Global, fails: &[u32]) -> Result<MemShelf, Fail> {
    let mut files = List::new(alloc);
    files.push((Name::Mail(1), Bytes::from_slice(alloc, FIRST)?))?;
    files.push((Name::Mail(2), Bytes::from_slice(alloc, b"hello")?))?;
    let fails = List::from_slice(alloc, fails)?;
    Ok(MemShelf::of(alloc, &files, 10_000, fails, None)?)
}

fn is_hello(mail: MailFile) -> bool {
    match mail {
        MailFile::Held(m) => m.bytes.as_slice() == b"hello".as_slice() && m.guid == Some(GUID),
        MailFile::Damaged => false,
    }
}

#[test]
fn message_is_put_and_read(rt: HostRuntime) -> Result<(), Fail> {
    let alloc = rt.alloc();
    let text = mail_text(alloc, &GUID, 1001, b"hello")?;
    assert_eq!(rt; text.as_slice(), FIRST);
    let mut shelf = MemShelf::new(alloc, 10_000, List::new(alloc), None)?;
    assert!(rt; put(&mut shelf, 1, &text).is_ok());
    let mail = read_mail(alloc, &mut shelf, 1).ok().ok_or("a fault")?;
    assert!(rt; is_hello(mail));
    Ok(())
}

#[test]
fn damaged_messages_have_no_guid(rt: HostRuntime) -> Result<(), Fail> {
    let alloc = rt.alloc();
    let mut shelf = folder(alloc, &[])?;
    let rows = guids_of(alloc, &mut shelf, &[1, 2, 3])
        .ok()
        .ok_or("a fault")?;
    assert_eq!(rt; rows.len(), 3);
    for (row, (uid, guid)) in rows
        .as_slice()
        .iter()
        .zip([(1, GUID), (2, [0; 16]), (3, [0; 16])])
    {
        assert_eq!(rt; (row.uid, row.guid), (uid, guid));
    }
    Ok(())
}

#[test]
fn swept_messages_are_gone(rt: HostRuntime) -> Result<(), Fail> {
    let alloc = rt.alloc();
    let mut shelf = folder(alloc, &[])?;
    assert!(rt; sweep(&mut shelf, &[2, 3]).is_ok());
    assert!(rt;
        shelf
            .read(alloc, Name::Mail(2))
            .is_ok_and(|file| file.is_none())
    );
    let mail = read_mail(alloc, &mut shelf, 1).ok().ok_or("a fault")?;
    assert!(rt; is_hello(mail));
    Ok(())
}

#[test]
fn failures_are_told(rt: HostRuntime) -> Result<(), Fail> {
    let alloc = rt.alloc();
    let mut shelf = folder(alloc, &[1, 2])?;
    assert!(rt; sweep(&mut shelf, &[1, 2]).is_err());
    assert!(rt; read_mail(alloc, &mut shelf, 1).err() == Some(ShelfFault::Failed));
    let mail = read_mail(alloc, &mut shelf, 1).ok().ok_or("a fault")?;
    assert!(rt; is_hello(mail));
    Ok(())
}
