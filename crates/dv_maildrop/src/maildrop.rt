ghost use Rattle.std.specs.Prelude.{◌≡◌, ◌++◌, [], false, IfOk, None, OnErr, OnOk, Some};
ghost use Rattle.dv_maildrop.specs.declared.types.PopLine.TheVariants as pop_line;
ghost use Rattle.dv_maildrop.specs.Answers.{listing_answer, marking_answer, stat_answer};
ghost use Rattle.dv_script.specs.Extending.{Extends};
ghost use Rattle.dv_maildrop.specs.Maildrops.{asked, behind, marked_set, row_of, unmarked};

use crate::counts::{octets_of, set_flag, set_of, unmark};
use crate::listing::{Listing, put_one, put_rows};
use crate::pieces::{put, put_large_number, put_last_line, put_number, put_ok, put_refusal};
use crate::types::{Asked, Listed, PopLine};
use dv_model::{Bytes, List, NoMemory, Span};
use std::alloc::Global;
use std::marker::Model;

/// The messages that a session was given when it began, with those that it has marked as deleted
/// (RFC 1939, section 5). Neither numbers nor sizes change while it lasts. Each call takes the same
/// time however many messages there are, unless it says otherwise.
#[derive(Drop)]
pub struct Maildrop {
    uid_validity: u32,
    rows: List<Listed>,
    // The numbers of the marked rows, in the order of their marks.
    marked: Vec<u32>,
    // Whether each row is marked.
    flags: Vec<bool>,
    // How many rows are not marked, and the sum of their sizes.
    count: usize,
    octets: u128,
    // The sum of all sizes.
    whole: u128,
    ended: bool,
}

impl Model for Maildrop {
    ghost use Rattle.dv_maildrop.specs.Counts.{IsKept};
    ghost use Rattle.dv_maildrop.specs.Maildrops.{Transaction};

    ghost Value = { Transaction };

    ghost view = { λ m. record {
      uid_validity = m.uid_validity;
      rows = m.rows;
      marked = m.marked.items;
      ended = m.ended;
    } };

    ghost invariant = { λ m. IsKept (record {
      uid_validity = m.uid_validity;
      rows = m.rows;
      marked = m.marked.items;
      ended = m.ended;
    }) m.flags.items m.count m.octets m.whole };
}

impl Maildrop {
    /// A maildrop of these messages under a UIDVALIDITY, none of them marked: the k-th has number k,
    /// counted from 1. `NoMemory` is the only error. The time is in proportion to the messages.
    pub fn new(alloc: Global, uid_validity: u32, rows: List<Listed>) -> Result<Maildrop, NoMemory>
        ensures { IfOk result (λ made. made ≡ record {
          uid_validity = uid_validity;
          rows = rows;
          marked = [];
          ended = false;
        }) }
    {
        let flags = vec![in alloc; false; rows.len()]?;
        let octets = octets_of(rows.as_slice());
        let count = rows.len();
        Ok(Maildrop {
            uid_validity,
            rows,
            marked: Vec::new(alloc),
            flags,
            count,
            octets,
            whole: octets,
            ended: false,
        })
    }

    /// The UIDVALIDITY (RFC 3501, section 2.3.1.1).
    pub fn uid_validity(&self) -> u32
        ensures { result ≡ self.now.uid_validity }
    {
        self.uid_validity
    }

    /// All messages, by their numbers.
    pub fn rows(&self) -> &[Listed]
        ensures { result.now ≡ self.now.rows }
    {
        self.rows.as_slice()
    }

    /// Whether a QUIT was answered.
    pub fn has_ended(&self) -> bool
        ensures { result ≡ self.now.ended }
    {
        self.ended
    }

    /// The message of a number, unless it is marked or there is none.
    pub fn row(&self, number: u32) -> Option<Listed>
        ensures { result ≡ row_of self.now number }
    {
        let end = number as usize;
        if end == 0 || end > self.rows.len() {
            return None;
        }
        if self.flags[end - 1] {
            return None;
        }
        Some(*self.rows.get(end - 1))
    }

    /// The UIDs of the marked messages, in the order of their numbers, as a set; it is empty where
    /// none is marked. `NoMemory` is the only error. The time is in proportion to the messages.
    pub fn marked_set(&self, alloc: Global) -> Result<List<Span>, NoMemory>
        ensures { IfOk result (λ set. set ≡ marked_set self.now) }
    {
        set_of(alloc, self.rows.as_slice(), &self.flags)
    }

    /// What the store is to be asked before a line can be answered: for the message of a RETR, and
    /// for the removal of the marked messages by a QUIT.
    pub fn asked(&self, line: &PopLine) -> Asked
        ensures { result ≡ asked self.now line.now }
    {
        match *line {
            PopLine::Retr(number) => match self.row(number) {
                Some(row) => Asked::Message(row),
                None => Asked::Nothing,
            },
            PopLine::Quit if !self.marked.is_empty() => Asked::Removal,
            _ => Asked::Nothing,
        }
    }

    /// Adds the answer to STAT.
    pub(crate) fn put_stat(&self, text: &mut Bytes) -> Result<(), NoMemory>
        ensures ok { OnOk result (text.new ≡ text.old ++ stat_answer (unmarked self.now)) }
        ensures err { OnErr result (Extends text.old text.new) }
    {
        put(text, b"+OK ")?;
        put_number(text, self.count as u64)?;
        put(text, b" ")?;
        put_large_number(text, self.octets)?;
        put(text, b"\r\n")
    }

    fn put_all(&self, listing: Listing, text: &mut Bytes) -> Result<(), NoMemory>
        ensures ok { OnOk result (text.new ≡ text.old ++ listing_answer listing self.now None) }
        ensures err { OnErr result (Extends text.old text.new) }
    {
        put_ok(text)?;
        put_rows(text, listing, self.rows.as_slice(), &self.flags)?;
        put_last_line(text)
    }

    /// Adds the answer to LIST or UIDL.
    pub(crate) fn put_listing(
        &self,
        listing: Listing,
        number: Option<u32>,
        text: &mut Bytes,
    ) -> Result<(), NoMemory>
        ensures ok { OnOk result (text.new ≡ text.old ++ listing_answer listing self.now number) }
        ensures err { OnErr result (Extends text.old text.new) }
    {
        let Some(number) = number else {
            return self.put_all(listing, text);
        };
        match self.row(number) {
            Some(row) => put_one(text, listing, number, row),
            None => put_refusal(text, b"NONE"),
        }
    }

    // Marks the message of a number.
    fn mark(&mut self, number: u32, row: Listed) -> Result<(), NoMemory>
        requires { row_of self.old number ≡ Some row }
        ensures ok { OnOk result (self.new ≡ behind self.old (pop_line.Dele number)) }
        ensures err { OnErr result (self.new ≡ self.old) }
    {
        self.marked.push(number)?;
        set_flag(&mut self.flags, number, true);
        self.count -= 1;
        self.octets -= u128::from(row.size);
        Ok(())
    }

    /// Adds the answer to DELE, and marks the message.
    pub(crate) fn delete(&mut self, number: u32, text: &mut Bytes) -> Result<(), NoMemory>
        ensures ok { OnOk result (text.new ≡ text.old ++ marking_answer (row_of self.old number)) }
        ensures behind { OnOk result (self.new ≡ behind self.old (pop_line.Dele number)) }
        ensures err { OnErr result (Extends text.old text.new) }
        ensures same { OnErr result (self.new ≡ self.old) }
    {
        let Some(row) = self.row(number) else {
            return put_refusal(text, b"NONE");
        };
        put_ok(text)?;
        self.mark(number, row)
    }

    /// Takes all marks away. The time is in proportion to them.
    pub(crate) fn reset(&mut self)
        ensures { self.new ≡ behind self.old pop_line.Rset }
    {
        unmark(&mut self.marked, &mut self.flags);
        self.count = self.rows.len();
        self.octets = self.whole;
    }

    /// Ends the session.
    pub(crate) fn end(&mut self)
        ensures { self.new ≡ behind self.old pop_line.Quit }
    {
        self.ended = true;
    }
}
