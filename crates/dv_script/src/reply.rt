ghost use Rattle.std.specs.Prelude.{◌≡◌, ◌++◌, codes, flat_map, IfOk, OnErr, OnOk};
ghost use Rattle.dv_model.specs.Texts.{line_text, reply_text, given_text, modified_text, mark_text, word_text};
ghost use Rattle.dv_model.specs.declared.types.Reply.TheVariants.{Fetch, Search, Done, Gone, Damaged};
ghost use Rattle.dv_script.specs.Extending.{Extends};
ghost use Rattle.dv_script.specs.Fetches.{fetch_end, fetch_front, numbered};

use crate::pieces::{put, put_around, put_before, put_number, put_numbers};
use crate::value::put_values;
use dv_model::{Bytes, List, Mark, NoMemory, Reply, Value, Word};
use std::alloc::Global;

/// The line of a reply: the session's name, a space, the reply's text and a line feed.
pub fn reply_text(alloc: Global, session: &[u8], reply: &Reply) -> Result<Bytes, NoMemory>
    ensures { IfOk result (λ text. text ≡ line_text session.now reply.now) }
{
    let mut text = List::new(alloc);
    put_line(&mut text, session, reply)?;
    Ok(text)
}

/// The lines of replies, one behind another.
pub fn replies_text(alloc: Global, session: &[u8], replies: &List<Reply>) -> Result<Bytes, NoMemory>
    ensures { IfOk result (λ text. text ≡ flat_map (line_text session.now) replies.now) }
{
    let mut text = List::new(alloc);
    for reply in replies.as_slice() {
        put_line(&mut text, session, reply)?;
    }
    Ok(text)
}

/// The text of a mark, as replies and the last line of a run have it.
pub fn mark_text(alloc: Global, mark: Mark) -> Result<Bytes, NoMemory>
    ensures { IfOk result (λ text. text ≡ mark_text mark) }
{
    let mut text = List::new(alloc);
    put_mark(&mut text, mark)?;
    Ok(text)
}

/// Adds the line of a reply. `NoMemory` is the only error.
pub fn put_line(text: &mut Bytes, session: &[u8], reply: &Reply) -> Result<(), NoMemory>
    ensures ok { OnOk result (text.new ≡ text.old ++ line_text session.now reply.now) }
    ensures err { OnErr result (Extends text.old text.new) }
{
    put_session(text, session)?;
    put_reply(text, reply)?;
    put(text, b"\n")
}

/// Adds the line of a FETCH up to its values. `NoMemory` is the only error.
pub fn begin_fetch(text: &mut Bytes, session: &[u8], number: u32, uid: u32) -> Result<(), NoMemory>
    ensures ok { OnOk result (text.new ≡ text.old ++ fetch_front session.now number uid) }
    ensures err { OnErr result (Extends text.old text.new) }
{
    put_session(text, session)?;
    put_numbered(text, number, uid)
}

/// Adds what stands in the line of a FETCH behind its values. `NoMemory` is the only error.
pub fn end_fetch(text: &mut Bytes) -> Result<(), NoMemory>
    ensures ok { OnOk result (text.new ≡ text.old ++ fetch_end) }
    ensures err { OnErr result (Extends text.old text.new) }
{
    put(text, b")\n")
}

fn put_session(text: &mut Bytes, session: &[u8]) -> Result<(), NoMemory>
    ensures ok { OnOk result (text.new ≡ text.old ++ (session.now ++ codes " ")) }
    ensures err { OnErr result (Extends text.old text.new) }
{
    put(text, session)?;
    put(text, b" ")
}

// A FETCH up to its values.
fn put_numbered(text: &mut Bytes, number: u32, uid: u32) -> Result<(), NoMemory>
    ensures ok { OnOk result (text.new ≡ text.old ++ numbered number uid) }
    ensures err { OnErr result (Extends text.old text.new) }
{
    put_around(text, b"* ", number as u64, b" FETCH (UID ")?;
    put_number(text, uid as u64)
}

fn put_reply(text: &mut Bytes, reply: &Reply) -> Result<(), NoMemory>
    ensures ok { OnOk result (text.new ≡ text.old ++ reply_text reply.now) }
    ensures err { OnErr result (Extends text.old text.new) }
{
    match reply {
        Reply::Exists(n) => put_around(text, b"* ", *n as u64, b" EXISTS"),
        Reply::Expunge(n) => put_around(text, b"* ", *n as u64, b" EXPUNGE"),
        Reply::Fetch {
            number,
            uid,
            values,
        } => put_fetch(text, *number, *uid, values),
        Reply::Search(numbers) => put_search(text, numbers),
        Reply::Validity(n) => put_around(text, b"* OK [UIDVALIDITY ", *n as u64, b"]"),
        Reply::NextUid(n) => put_around(text, b"* OK [UIDNEXT ", *n as u64, b"]"),
        Reply::Done {
            word,
            mark,
            appended,
            modified,
        } => put_done(text, *word, *mark, *appended, modified),
        Reply::Gone {
            uid,
            mark,
            modified,
        } => put_gone(text, *uid, *mark, modified),
        Reply::Damaged { uid, mark } => put_damaged(text, *uid, *mark),
        Reply::Unavailable { faults } => put_before(text, b"NO [UNAVAILABLE] FAULTS ", *faults),
        Reply::UidsUsedUp => put(text, b"NO [LIMIT] UIDS"),
        Reply::TooLong { bytes } => put_before(text, b"NO [LIMIT] BYTES ", *bytes),
        Reply::NotSelected => put(text, b"BAD NOT SELECTED"),
        Reply::NoMessage(n) => put_before(text, b"BAD NO MESSAGE ", *n as u64),
    }
}

fn put_fetch(text: &mut Bytes, number: u32, uid: u32, values: &List<Value>) -> Result<(), NoMemory>
    ensures ok { OnOk result (text.new ≡ text.old ++ reply_text (Fetch number uid values.now)) }
    ensures err { OnErr result (Extends text.old text.new) }
{
    put_numbered(text, number, uid)?;
    put_values(text, values.as_slice())?;
    put(text, b")")
}

fn put_search(text: &mut Bytes, numbers: &List<u32>) -> Result<(), NoMemory>
    ensures ok { OnOk result (text.new ≡ text.old ++ reply_text (Search numbers.now)) }
    ensures err { OnErr result (Extends text.old text.new) }
{
    put(text, b"* SEARCH")?;
    put_numbers(text, b" ", numbers.as_slice())
}

fn put_done(
    text: &mut Bytes,
    word: Word,
    mark: Mark,
    appended: Option<(u32, u32)>,
    modified: &List<u32>,
) -> Result<(), NoMemory>
    ensures ok { OnOk result
        (text.new ≡ text.old ++ reply_text (Done word mark appended modified.now)) }
    ensures err { OnErr result (Extends text.old text.new) }
{
    put(text, b"OK ")?;
    put_given(text, appended)?;
    put_modified(text, modified)?;
    put(text, b"[")?;
    put_mark(text, mark)?;
    put(text, b"] ")?;
    put(text, word_text(word))
}

fn put_given(text: &mut Bytes, given: Option<(u32, u32)>) -> Result<(), NoMemory>
    ensures ok { OnOk result (text.new ≡ text.old ++ given_text given) }
    ensures err { OnErr result (Extends text.old text.new) }
{
    let Some((validity, uid)) = given else {
        return Ok(());
    };
    put_around(text, b"[APPENDUID ", validity as u64, b" ")?;
    put_number(text, uid as u64)?;
    put(text, b"] ")
}

fn put_modified(text: &mut Bytes, numbers: &List<u32>) -> Result<(), NoMemory>
    ensures ok { OnOk result (text.new ≡ text.old ++ modified_text numbers.now) }
    ensures err { OnErr result (Extends text.old text.new) }
{
    let Some((first, others)) = numbers.as_slice().split_first() else {
        return Ok(());
    };
    put_before(text, b"[MODIFIED ", *first as u64)?;
    put_numbers(text, b",", others)?;
    put(text, b"] ")
}

fn put_mark(text: &mut Bytes, mark: Mark) -> Result<(), NoMemory>
    ensures ok { OnOk result (text.new ≡ text.old ++ mark_text mark) }
    ensures err { OnErr result (Extends text.old text.new) }
{
    put_around(text, b"MARK ", mark.file_seq as u64, b":")?;
    put_number(text, mark.offset as u64)
}

fn word_text(word: Word) -> &'static [u8]
    ensures { result.now ≡ word_text word }
{
    match word {
        Word::Select => b"SELECT",
        Word::Noop => b"NOOP",
        Word::Check => b"CHECK",
        Word::Append => b"APPEND",
        Word::Expunge => b"EXPUNGE",
        Word::Fetch => b"FETCH",
        Word::Store => b"STORE",
        Word::Search => b"SEARCH",
        Word::UidFetch => b"UID FETCH",
        Word::UidStore => b"UID STORE",
        Word::UidSearch => b"UID SEARCH",
        Word::UidRemove => b"UID REMOVE",
    }
}

fn put_gone(text: &mut Bytes, uid: u32, mark: Mark, modified: &List<u32>) -> Result<(), NoMemory>
    ensures ok { OnOk result (text.new ≡ text.old ++ reply_text (Gone uid mark modified.now)) }
    ensures err { OnErr result (Extends text.old text.new) }
{
    put(text, b"NO [EXPUNGEISSUED] ")?;
    put_modified(text, modified)?;
    put_around(text, b"UID ", uid as u64, b" ")?;
    put_mark(text, mark)
}

fn put_damaged(text: &mut Bytes, uid: u32, mark: Mark) -> Result<(), NoMemory>
    ensures ok { OnOk result (text.new ≡ text.old ++ reply_text (Damaged uid mark)) }
    ensures err { OnErr result (Extends text.old text.new) }
{
    put_around(text, b"NO [CORRUPTION] UID ", uid as u64, b" ")?;
    put_mark(text, mark)
}
