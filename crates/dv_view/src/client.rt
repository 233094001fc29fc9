ghost use Rattle.std.specs.Prelude.{◌≡◌, ◌++◌, [], ◌+◌, ◌-◌, ◌≤◌, All, drop, length, map, replicate, take, vec_capacity, vec_len, OnErr, OnOk};
ghost use Rattle.dv_view.specs.Clients.{bare_row, flags_of, heard_bare, heard_rows, known_bare, with_row};

use dv_model::{List, NoMemory, Reply, Shown, Value};
use std::alloc::{AllocError, Global};
use std::mem;

/// A client that listens to what it is told of a mailbox. It takes no notice of keywords and of
/// modification sequences.
#[derive(Drop)]
pub struct Client {
    /// Each message's UID and flags, by message number.
    pub rows: List<Shown>,
}

fn bare_row(alloc: Global, uid: u32, flags: u8) -> Shown
    ensures { result ≡ bare_row uid flags }
{
    Shown {
        uid,
        flags,
        keywords: List::new(alloc),
        modseq: 0,
    }
}

// Removes the row of this number, counted from 1.
fn remove_row(rows: &mut Vec<Shown>, number: u32)
    ensures { rows.new.items ≡ take (number - 1) rows.old.items ++ drop number rows.old.items }
{
    let number = number as usize;
    if number > 0 && number <= rows.len() {
        rows.remove(number - 1);
    }
}

// Sets the row of this number, counted from 1.
fn set_row(rows: &mut Vec<Shown>, number: u32, row: Shown)
    ensures { rows.new.items ≡ with_row rows.old.items number row }
{
    let number = number as usize;
    if number > 0 && number <= rows.len() {
        rows[number - 1] = row;
    }
}

// Adds so many rows of which nothing is known yet, in the room that is there.
fn add_unknown(alloc: Global, rows: &mut Vec<Shown>, count: usize)
    requires { vec_len rows.old + count ≤ vec_capacity rows.old }
    ensures { rows.new.items ≡ rows.old.items ++ replicate count (bare_row 0 0) }
{
    let mut more = count;
    while more > 0 {
        rows.push(bare_row(alloc, 0, 0)).unwrap();
        more -= 1;
    }
}

// Cuts the rows to so many, or fills them up.
fn resize(alloc: Global, rows: &mut Vec<Shown>, count: u32) -> Result<(), AllocError>
    ensures ok { OnOk result (rows.new.items
        ≡ take count rows.old.items ++ replicate (count - length rows.old.items) (bare_row 0 0)) }
    ensures err { OnErr result (rows.new.items ≡ rows.old.items) }
{
    let count = count as usize;
    if count <= rows.len() {
        rows.truncate(count);
        return Ok(());
    }
    let more = count - rows.len();
    rows.reserve(more)?;
    add_unknown(alloc, rows, more);
    Ok(())
}

fn flags_of(values: &[Value]) -> Option<u8>
    ensures { result ≡ flags_of values.now }
{
    for value in values {
        if let Value::Flags(flags, _) = value {
            return Some(*flags);
        }
    }
    None
}

fn hear_rows(alloc: Global, rows: &mut Vec<Shown>, r: &Reply) -> Result<(), AllocError>
    ensures ok { OnOk result (rows.new.items ≡ heard_rows rows.old.items r.now) }
    ensures err { OnErr result (rows.new.items ≡ rows.old.items) }
{
    match r {
        Reply::Expunge(number) => remove_row(rows, *number),
        Reply::Exists(count) => return resize(alloc, rows, *count),
        Reply::Fetch {
            number,
            uid,
            values,
        } => {
            if let Some(flags) = flags_of(values.as_slice()) {
                set_row(rows, *number, bare_row(alloc, *uid, flags));
            }
        }
        _ => {}
    }
    Ok(())
}

impl Client {
    /// Hears one line: EXPUNGE removes a row, EXISTS cuts the list or fills it up with rows of UID
    /// 0, and a FETCH with FLAGS sets a row (RFC 3501, sections 7.3.1, 7.4.1 and 7.4.2). After
    /// `NoMemory`, which is the answer to an EXISTS alone, the rows are as before.
    pub fn hear(&mut self, alloc: Global, r: &Reply) -> Result<(), NoMemory>
        // What is known is what any client knows, without names.
        ensures ok { OnOk result (map known_bare self.new.rows
            ≡ heard_bare (map known_bare self.old.rows) r.now) }
        // Lists of keywords stay empty.
        ensures keywords { All (λ s. s.keywords ≡ []) self.old.rows
            → All (λ s. s.keywords ≡ []) self.new.rows }
        ensures err { OnErr result (self.new.rows ≡ self.old.rows) }
    {
        let mut rows = mem::replace(&mut self.rows, List::new(alloc)).into_vec();
        let heard = hear_rows(alloc, &mut rows, r);
        self.rows = List::from_vec(rows);
        heard?;
        Ok(())
    }
}
