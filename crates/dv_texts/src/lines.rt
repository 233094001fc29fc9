//! The lines of replies as text. One that can't be put whole leaves no part of it.

ghost use Rattle.std.specs.Prelude.{◌≡◌, ◌++◌, ℕ, List, OnErr, OnOk, take};
ghost use Rattle.dv_model.specs.Sessions.{fetch_line};
ghost use Rattle.dv_model.specs.Texts.{line_text};
ghost use Rattle.dv_responses.specs.Supplied.{DescribesItems};
ghost use Rattle.dv_script.specs.Extending.{Extends};
ghost use Rattle.dv_view.specs.Tells.{fetch_of};

use crate::items::{put_flags, put_items};
use dv_keywords::Table;
use dv_model::{Bytes, Item, NoMemory, Reply, Shown};
use dv_script::{begin_fetch, end_fetch, put_line};
use dv_search::MailFacts;
use dv_view::Live;
use std::alloc::Global;
use std::mem;

// Takes back what stands behind so many bytes.
fn take_back(alloc: Global, text: &mut Bytes, length: usize)
    ensures { text.new ≡ take length text.old }
{
    let mut bytes = mem::replace(text, Bytes::new(alloc)).into_vec();
    bytes.truncate(length);
    *text = Bytes::from_vec(bytes);
}

/// Adds the line of a reply. After `NoMemory`, which is the only error, the text is as before.
pub(crate) fn add_line(
    alloc: Global,
    text: &mut Bytes,
    session: &[u8],
    reply: &Reply,
) -> Result<(), NoMemory>
    ensures ok { OnOk result (text.new ≡ text.old ++ line_text session.now reply.now) }
    ensures err { OnErr result (text.new ≡ text.old) }
{
    let before = text.len();
    match put_line(text, session, reply) {
        Ok(()) => Ok(()),
        Err(e) => {
            take_back(alloc, text, before);
            Err(e)
        }
    }
}

fn put_flags_line(
    alloc: Global,
    text: &mut Bytes,
    session: &[u8],
    names: &Table,
    number: u32,
    s: &Shown,
) -> Result<(), NoMemory>
    ensures ok { OnOk result (text.new ≡ text.old
        ++ line_text session.now (fetch_of names.now.names (number, s.now))) }
    ensures err { OnErr result (Extends text.old text.new) }
{
    begin_fetch(text, session, number, s.uid)?;
    put_flags(alloc, text, names, s)?;
    end_fetch(text)
}

/// Adds the FETCH line with UID and flags of a row. After `NoMemory`, which is the only error, the
/// text is as before.
pub(crate) fn add_flags_line(
    alloc: Global,
    text: &mut Bytes,
    session: &[u8],
    names: &Table,
    number: u32,
    s: &Shown,
) -> Result<(), NoMemory>
    ensures ok { OnOk result (text.new ≡ text.old
        ++ line_text session.now (fetch_of names.now.names (number, s.now))) }
    ensures err { OnErr result (text.new ≡ text.old) }
{
    let before = text.len();
    match put_flags_line(alloc, text, session, names, number, s) {
        Ok(()) => Ok(()),
        Err(e) => {
            take_back(alloc, text, before);
            Err(e)
        }
    }
}

fn put_fetch_line(
    alloc: Global,
    text: &mut Bytes,
    session: &[u8],
    live: &Live,
    number: u32,
    s: &Shown,
    items: &[Item],
    facts: &MailFacts,
) -> Result<(), NoMemory>
    ensures ok { (message : List ℕ) → DescribesItems items.now message facts.now
        → OnOk result (text.new ≡ text.old ++ line_text session.now
        (fetch_line live.now.mailbox items.now (number, s.now) message)) }
    ensures err { OnErr result (Extends text.old text.new) }
{
    begin_fetch(text, session, number, s.uid)?;
    put_items(alloc, text, live, s, items, facts)?;
    end_fetch(text)
}

/// Adds the FETCH line of a row with the values of the items, where they are known of the message.
/// After `NoMemory`, which is the only error, the text is as before.
pub(crate) fn add_fetch_line(
    alloc: Global,
    text: &mut Bytes,
    session: &[u8],
    live: &Live,
    number: u32,
    s: &Shown,
    items: &[Item],
    facts: &MailFacts,
) -> Result<(), NoMemory>
    ensures ok { (message : List ℕ) → DescribesItems items.now message facts.now
        → OnOk result (text.new ≡ text.old ++ line_text session.now
        (fetch_line live.now.mailbox items.now (number, s.now) message)) }
    ensures err { OnErr result (text.new ≡ text.old) }
{
    let before = text.len();
    match put_fetch_line(alloc, text, session, live, number, s, items, facts) {
        Ok(()) => Ok(()),
        Err(e) => {
            take_back(alloc, text, before);
            Err(e)
        }
    }
}
