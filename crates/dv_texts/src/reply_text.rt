//! A session's replies, of which only the text is kept, in pieces: a long one finds room between
//! what else is in memory, and isn't copied where it grows.

ghost use Rattle.std.specs.Prelude.{◌≡◌, ◌+◌, ◌*◌, ◌++◌, ◌≤◌, [], IfSome, OnOk, length, min};
ghost use Rattle.dv_shelf.specs.Causes.{HasCause};
ghost use Rattle.dv_shelf.specs.Streams.{Appends, AppendsFront};

use crate::lines::{add_fetch_line, add_flags_line, add_line};
use crate::pieces::{cut_pieces, write_pieces};
use dv_keywords::Table;
use dv_model::{Bytes, Item, NoMemory, Reply, Shown};
use dv_responses::Responses;
use dv_search::MailFacts;
use dv_shelf::{Failed, Sink};
use dv_view::{Live, Replies};
use std::alloc::Global;
use std::marker::Model;
use std::mem;

// About what stands in a line around its session and the bytes of a message.
const AROUND: usize = 56;

// From so many bytes on a piece of the text is whole.
const PIECE: usize = 32768;

// The room of a piece, for most lines that pass its end.
const PIECE_ROOM: usize = PIECE + 1024;

// A message of so many bytes or more has its room alone, and not some for others too.
const LARGE: usize = 65536;

// The most bytes that whole pieces have in sum.
const MOST: usize = 1 << 62;

// The room of a line with this message, where that is large; and what stands around it.
fn large_room(body: &Option<Bytes>) -> Option<usize>
    ensures { IfSome result (λ room. IfSome body.now (λ b. room ≤ length b + 56)) }
{
    match body {
        Some(body) if body.len() >= LARGE => Some(body.len().saturating_add(AROUND)),
        _ => None,
    }
}

// The room of so many lines and one more, each with a session's name of this length and some bytes
// around it, and of so many bytes of messages, as far as a piece has it.
fn lines_room(lines: usize, name: usize, bytes: usize) -> usize
    ensures { result ≡ min ((lines + 1) * (name + 56) + bytes) 33792 }
{
    let line = name.saturating_add(AROUND);
    let room = lines
        .saturating_add(1)
        .saturating_mul(line)
        .saturating_add(bytes);
    room.min(PIECE_ROOM)
}

/// The text of the replies of a session, each on a line that begins with the session's name, while
/// they are taken one by one. Contracts see the name and the text.
#[derive(Drop)]
pub struct ReplyText {
    alloc: Global,
    session: Bytes,
    // The pieces that are whole, and how many bytes they have.
    pieces: Vec<Bytes>,
    whole: usize,
    // The piece behind them.
    text: Bytes,
}

impl Model for ReplyText {
    ghost use Rattle.std.specs.Prelude.{◌≡◌, ◌++◌, ◌≤◌, ◌^◌, length};
    ghost use Rattle.dv_texts.specs.Lines.{Lines, joined};

    ghost Value = { Lines };

    ghost view = { λ t. record { session = t.session; text = joined t.pieces.items ++ t.text } };

    ghost invariant = { λ t. (t.whole ≡ length (joined t.pieces.items)) × (t.whole ≤ 2 ^ 62) };
}

impl ReplyText {
    /// No replies yet, of the session with this name. Takes no memory.
    pub fn new(alloc: Global, session: Bytes) -> ReplyText
        ensures { result ≡ record { session = session; text = [] } }
    {
        ReplyText {
            alloc,
            session,
            pieces: Vec::new(alloc),
            whole: 0,
            text: Bytes::new(alloc),
        }
    }

    /// Writes the lines so far, piece by piece, or after a failure some from the front.
    pub fn write_to<O: Sink>(&self, out: &mut O) -> Result<(), Failed>
        ensures ok { O.sees.tells →
            OnOk result (Appends (O.sees.taken out.old) (O.sees.taken out.new) self.now.text) }
        ensures err { O.sees.tells → AppendsFront (O.sees.taken out.old) (O.sees.taken out.new)
            self.now.text }
        ensures cause { HasCause (O.sees.fault_count out.old) (O.sees.fault_count out.new) result }
    {
        write_pieces(&self.pieces, out)?;
        out.write_all(self.text.as_slice())
    }

    // Makes room for so many bytes in the last piece.
    fn reserve(&mut self, room: usize) -> Result<(), NoMemory>
        ensures { self.new ≡ self.old }
    {
        let mut text = mem::replace(&mut self.text, Bytes::new(self.alloc)).into_vec();
        let reserved = text.reserve_exact(room);
        self.text = Bytes::from_vec(text);
        reserved?;
        Ok(())
    }

    // Makes room for a message where it is large.
    fn make_room(&mut self, facts: &MailFacts) -> Result<(), NoMemory>
        ensures { self.new ≡ self.old }
    {
        match large_room(&facts.body) {
            Some(room) => self.reserve(room),
            None => Ok(()),
        }
    }

    // Begins another piece where the last one is whole.
    fn settle(&mut self) -> Result<(), NoMemory>
        ensures { self.new ≡ self.old }
    {
        if self.text.len() < PIECE {
            return Ok(());
        }
        let whole = self.whole.saturating_add(self.text.len());
        if whole > MOST {
            return Err(NoMemory);
        }
        let next = Bytes::from_vec(Vec::with_capacity(self.alloc, PIECE_ROOM)?);
        self.pieces.reserve(1)?;
        let piece = mem::replace(&mut self.text, next);
        self.pieces.push_reserved(piece);
        self.whole = whole;
        Ok(())
    }
}

impl Replies for ReplyText {
    ghost use Rattle.dv_texts.specs.Lines.{with_replies, none_taken, more_taken};

    ghost with = { λ t replies. with_replies t replies };

    ghost size = { λ t. length t.text };

    ghost none = { λ t. none_taken t };

    ghost more = { λ t a b. more_taken t a b };

    fn expect(&mut self, replies: usize, bytes: usize) -> Result<(), NoMemory> {
        self.settle()?;
        let room = lines_room(replies, self.session.len(), bytes);
        self.reserve(room)
    }

    fn take(&mut self, reply: Reply) -> Result<(), NoMemory> {
        self.settle()?;
        add_line(self.alloc, &mut self.text, self.session.as_slice(), &reply)
    }

    fn take_flags(
        &mut self,
        alloc: Global,
        names: &Table,
        number: u32,
        s: &Shown,
    ) -> Result<(), NoMemory> {
        self.settle()?;
        let session = self.session.as_slice();
        add_flags_line(alloc, &mut self.text, session, names, number, s)
    }

    fn length(&self) -> usize {
        self.whole + self.text.as_slice().len()
    }

    fn cut(&mut self, alloc: Global, length: usize) {
        let last = mem::replace(&mut self.text, Bytes::new(alloc));
        let (whole, last) = cut_pieces(&mut self.pieces, self.whole, last, length);
        let mut text = last.into_vec();
        text.truncate(length.saturating_sub(whole));
        self.whole = whole;
        self.text = Bytes::from_vec(text);
    }
}

impl Responses for ReplyText {
    fn take_fetch(
        &mut self,
        alloc: Global,
        live: &Live,
        number: u32,
        s: &Shown,
        items: &[Item],
        facts: &MailFacts,
    ) -> Result<(), NoMemory> {
        self.settle()?;
        self.make_room(facts)?;
        let session = self.session.as_slice();
        add_fetch_line(
            alloc,
            &mut self.text,
            session,
            live,
            number,
            s,
            items,
            facts,
        )
    }
}
