ghost use Rattle.std.specs.Prelude.{◌≡◌, ◌↔◌, ◌⊎◌, ℕ, ◌+◌, ◌-◌, ◌^◌, ◌<◌, ◌≤◌, [], ◌∷◌, ◌++◌, All, filter, fold, length, map, not, position, nat_eq, IfOk, IfSome, IsTrue, OnOk, OnErr, Ok, Some, slice_get, if◌then◌else◌, true, Contains, count_by, nat_le};
ghost use Rattle.dv_ext.specs.Sizes.{fitted, sizes_of};
ghost use Rattle.dv_model.specs.declared.types.How.TheVariants.{Add};
ghost use Rattle.dv_rows.specs.Adding.{AreInOrder};
ghost use Rattle.dv_model.specs.Effects.{is_in_pairs, is_in_guid_rows, keywords_after, with_item, with_row_parts, zeroed};
ghost use Rattle.dv_rows.specs.Changed.{changed_keywords, written_at_front};
ghost use Rattle.dv_rows.specs.Kept.{AreRows, flag_count};
ghost use Rattle.dv_rows.specs.Noted.{has};
ghost use Rattle.dv_rows.specs.Parted.{HasUid, IsNamed, is_among, is_missing, is_parted};
ghost use Rattle.std.specs.List.{list_any};
ghost use Rattle.std.specs.List.Sorted.{IsStrictlyIncreasing};
ghost use Rattle.dv_validity.specs.Laws.{changed_flags, restamped};

use crate::adding::add_keyword;
use crate::counts::{Counts, flags_of, put_note, tally};
use crate::flags::{ChangeFlags, StampFlags};
use crate::keywords::{ClearKeywords, change_keywords};
use crate::naming::name_ranges;
use crate::parting::{MarkMissing, copies, first_missing};
use crate::parts::{clear_part, fit_parts, set_part};
use crate::places::{add_note, add_row, place_of};
use crate::ranges::Range;
use crate::uids::{Mark, first_place, remove_marked};
use crate::walks::walk;
use dv_model::{Bytes, Change, Extension, GuidRow, How, List, NoMemory, Pair, Row};
use std::alloc::Global;
use std::marker::Model;

/// The rows of a mailbox, by rising UID. Contracts see them and the room: the number of rows that
/// can be added without memory.
#[derive(Drop)]
pub struct Rows {
    alloc: Global,
    rows: Vec<Row>,
    // The flags of each row.
    notes: Vec<u8>,
    counts: Counts,
    // Both vectors have room for so many more.
    room: u32,
}

impl Model for Rows {
    ghost use Rattle.std.specs.Prelude.{◌+◌, ◌≤◌, vec_len, vec_capacity};
    ghost use Rattle.dv_rows.specs.Changed.{changed_keywords, written_at_front};
    ghost use Rattle.dv_rows.specs.Kept.{Kept, AreCounted};

    ghost Value = { Kept };

    ghost view = { λ s. record { rows = s.rows.items; room = s.room } };

    ghost invariant = { λ s. record {
      counted : AreCounted s.rows.items s.notes.items s.counts;
      for_rows : vec_len s.rows + s.room ≤ vec_capacity s.rows;
      for_notes : vec_len s.notes + s.room ≤ vec_capacity s.notes;
    } };
}

impl Rows {
    /// No rows.
    pub fn empty(alloc: Global) -> Rows
        ensures { result.rows ≡ [] }
    {
        Rows {
            alloc,
            rows: Vec::new(alloc),
            notes: Vec::new(alloc),
            counts: Counts {
                seen: 0,
                deleted: 0,
            },
            room: 0,
        }
    }

    /// These rows, with no room for more. `NoMemory` is the only error.
    pub fn of(alloc: Global, rows: List<Row>) -> Result<Rows, NoMemory>
        requires { AreRows rows }
        ensures { IfOk result (λ made. made ≡ record { rows = rows; room = 0 }) }
    {
        let rows = rows.into_vec();
        let notes = flags_of(alloc, &rows)?;
        let counts = tally(&notes);
        Ok(Rows {
            alloc,
            rows,
            notes,
            counts,
            room: 0,
        })
    }

    /// The rows as a list, without memory.
    pub fn into_list(self) -> List<Row>
        ensures is { result ≡ self.rows }
        ensures rows { AreRows result }
    {
        List::from_vec(self.rows)
    }

    /// The rows as a slice.
    pub fn as_slice(&self) -> &[Row]
        ensures { result.now ≡ self.now.rows }
    {
        &self.rows
    }

    /// The number of rows.
    pub fn count(&self) -> u32
        ensures is { result ≡ length self.now.rows }
        ensures rows { AreRows self.now.rows }
    {
        self.rows.len() as u32
    }

    /// The row at a place, counted from 0.
    pub fn row(&self, k: u32) -> &Row
        requires { k < length self.now.rows }
        ensures { slice_get self.now.rows k ≡ Some result.now }
    {
        &self.rows[k as usize]
    }

    /// The place of the row with this UID.
    pub fn position(&self, uid: u32) -> Option<u32>
        ensures { result ≡ position (λ row. nat_eq row.uid uid) self.now.rows }
    {
        match place_of(&self.rows, uid) {
            Some(at) => Some(at as u32),
            None => None,
        }
    }

    /// Whether a UID is above that of each row.
    pub fn is_above(&self, uid: u32) -> bool
        ensures { IsTrue result ↔ All (λ row. row.uid < uid) self.now.rows }
    {
        match self.rows.last() {
            Some(row) => row.uid < uid,
            None => true,
        }
    }

    /// How many rows have the flag Seen.
    pub fn seen(&self) -> u32
        ensures { result ≡ flag_count 8 self.now.rows }
    {
        self.counts.seen
    }

    /// How many rows have the flag Deleted.
    pub fn deleted(&self) -> u32
        ensures { result ≡ flag_count 4 self.now.rows }
    {
        self.counts.deleted
    }

    /// Makes room for so many rows more. After `NoMemory` all is as before.
    pub fn reserve(&mut self, n: u32) -> Result<(), NoMemory>
        ensures rows { self.new.rows ≡ self.old.rows }
        ensures ok { OnOk result (n ≤ self.new.room) }
        ensures room { self.old.room ≤ self.new.room }
        ensures err { OnErr result (self.new ≡ self.old) }
        ensures succeeds { n ≤ self.old.room → result ≡ Ok tt }
    {
        if n <= self.room {
            return Ok(());
        }
        self.notes.reserve(n as usize)?;
        self.rows.reserve(n as usize)?;
        self.room = n;
        Ok(())
    }

    /// Adds a row at the end, which has no keywords. It takes memory only where there is no room;
    /// after `NoMemory` all is as before.
    pub fn append(
        &mut self,
        uid: u32,
        flags: u8,
        parts: List<Bytes>,
        modseq: u64,
    ) -> Result<(), NoMemory>
        requires above { All (λ row. row.uid < uid) self.old.rows }
        requires below { uid < 2 ^ 32 - 1 }
        ensures ok { OnOk result (self.new.rows
            ≡ self.old.rows
            ++ record { uid = uid; flags = flags; keywords = []; parts = parts; modseq = modseq }
            ∷ []) }
        ensures room { self.old.room ≤ self.new.room + 1 }
        ensures err { OnErr result (self.new ≡ self.old) }
        ensures succeeds { 0 < self.old.room → result ≡ Ok tt }
    {
        self.reserve(1)?;
        let row = Row {
            uid,
            flags,
            keywords: List::new(self.alloc),
            parts,
            modseq,
        };
        self.push(row);
        Ok(())
    }

    // Adds a row at the end, in the room that is there.
    fn push(&mut self, row: Row)
        requires above { All (λ other. other.uid < row.uid) self.old.rows }
        requires below { row.uid < 2 ^ 32 - 1 }
        requires room { 0 < self.old.room }
        ensures rows { self.new.rows ≡ self.old.rows ++ row ∷ [] }
        ensures room { self.old.room ≡ self.new.room + 1 }
    {
        add_note(&mut self.notes, &mut self.counts, row.flags);
        add_row(&mut self.rows, row);
        self.room -= 1;
    }

    // Puts a row in the place of the one with its UID.
    fn replace(&mut self, row: Row)
        ensures rows { self.new.rows
            ≡ map (λ other. if nat_eq row.uid other.uid then row else other) self.old.rows }
        ensures room { self.new.room ≡ self.old.room }
    {
        if let Some(at) = place_of(&self.rows, row.uid) {
            put_note(&mut self.notes, &mut self.counts, at, row.flags);
            self.rows[at] = row;
        }
    }

    // Removes the rows in the ranges. Only those behind the first that leaves are moved.
    fn remove<R: Range>(&mut self, ranges: &[R])
        ensures rows { self.new.rows
            ≡ filter
            (λ row. not (list_any (has R.lowest R.highest row.uid) ranges.now)) self.old.rows }
        ensures room { self.new.room ≡ self.old.room }
    {
        let from = first_place(&self.rows, ranges);
        walk(
            &mut self.rows,
            &mut self.notes,
            &mut self.counts,
            ranges,
            &Mark,
        );
        remove_marked(&mut self.rows, &mut self.notes, from);
    }

    // Removes the rows with these UIDs, which rise, that the part lacks. Only rows behind the first
    // that leaves are moved.
    fn remove_missing(&mut self, uids: &[u32], part: &Rows)
        requires { IsStrictlyIncreasing uids.now }
        ensures rows { self.new.rows
            ≡ filter (λ row. not (is_missing uids.now part.now.rows row.uid)) self.old.rows }
        ensures room { self.new.room ≡ self.old.room }
        ensures are { AreRows self.new.rows }
    {
        let from = first_missing(&self.rows, uids, part);
        walk(
            &mut self.rows,
            &mut self.notes,
            &mut self.counts,
            uids,
            &MarkMissing { part },
        );
        remove_marked(&mut self.rows, &mut self.notes, from);
    }

    /// Removes the rows in the ranges (Dovecot's `mail_transaction_expunge`), without memory.
    pub fn expunge(&mut self, pairs: &[Pair])
        ensures rows { self.new.rows
            ≡ filter (λ row. not (is_in_pairs pairs.now row.uid)) self.old.rows }
        ensures room { self.new.room ≡ self.old.room }
    {
        self.remove(pairs);
    }

    /// Removes the rows that are named (Dovecot's `mail_transaction_expunge_guid`), without memory.
    pub fn expunge_named(&mut self, rows: &[GuidRow])
        ensures rows { self.new.rows
            ≡ filter (λ row. not (is_in_guid_rows rows.now row.uid)) self.old.rows }
        ensures room { self.new.room ≡ self.old.room }
    {
        self.remove(rows);
    }

    /// Changes flags (Dovecot's `mail_transaction_flag_update`), without memory. A row whose system
    /// flags are others then has this modification sequence.
    pub fn change_flags(&mut self, changes: &[Change], modseq: u64)
        ensures rows { self.new.rows
            ≡ map (λ row. restamped modseq row (fold changed_flags row changes.now)) self.old.rows }
        ensures room { self.new.room ≡ self.old.room }
    {
        walk(
            &mut self.rows,
            &mut self.notes,
            &mut self.counts,
            changes,
            &ChangeFlags,
        );
        walk(
            &mut self.rows,
            &mut self.notes,
            &mut self.counts,
            changes,
            &StampFlags { modseq },
        );
    }

    /// Adds the keyword at a place of the table to the rows in the ranges, removes it from them or
    /// leaves them it alone (Dovecot's `mail_transaction_keyword_update`). A row whose keywords are
    /// others then has this modification sequence. After `NoMemory` all is as before.
    pub fn change_keywords(
        &mut self,
        pairs: &[Pair],
        how: How,
        place: u32,
        modseq: u64,
    ) -> Result<(), NoMemory>
        ensures ok { OnOk result (self.new.rows
            ≡ map (λ row. restamped modseq row
            (changed_keywords pairs.now (keywords_after how place) row)) self.old.rows) }
        ensures room { self.new.room ≡ self.old.room }
        ensures err { OnErr result (self.new ≡ self.old) }
    {
        change_keywords(self.alloc, &mut self.rows, pairs, how, place, modseq)?;
        Ok(())
    }

    /// Adds the keyword at a place of the table to the rows in the ranges, as `change_keywords`
    /// does: each row's keywords rise, so it is put among them where they stand, and none is
    /// copied. After `NoMemory` all is as before.
    pub fn add_keyword(&mut self, pairs: &[Pair], place: u32, modseq: u64) -> Result<(), NoMemory>
        requires { AreInOrder self.old.rows }
        ensures ok { OnOk result (self.new.rows
            ≡ map (λ row. restamped modseq row
            (changed_keywords pairs.now (keywords_after Add place) row)) self.old.rows) }
        ensures room { self.new.room ≡ self.old.room }
        ensures err { OnErr result (self.new ≡ self.old) }
    {
        add_keyword(self.alloc, &mut self.rows, pairs, place, modseq)?;
        Ok(())
    }

    /// Takes all keywords from the rows in the ranges (Dovecot's
    /// `mail_transaction_keyword_reset`), without memory. A row that had some then has this
    /// modification sequence.
    pub fn clear_keywords(&mut self, pairs: &[Pair], modseq: u64)
        ensures rows { self.new.rows
            ≡ map (λ row. restamped modseq row
            (changed_keywords pairs.now (λ places. []) row)) self.old.rows }
        ensures room { self.new.room ≡ self.old.room }
    {
        let clear = ClearKeywords {
            alloc: self.alloc,
            modseq,
        };
        walk(
            &mut self.rows,
            &mut self.notes,
            &mut self.counts,
            pairs,
            &clear,
        );
    }

    /// Gives each row a part for each extension: its own ones, filled up with zero bytes to the
    /// extensions' sizes. After `NoMemory` all is as before.
    pub fn fit_parts(&mut self, extensions: &[Extension]) -> Result<(), NoMemory>
        ensures ok { OnOk result (self.new.rows
            ≡ map (with_row_parts (fitted (sizes_of extensions.now))) self.old.rows) }
        ensures room { self.new.room ≡ self.old.room }
        ensures err { OnErr result (self.new ≡ self.old) }
    {
        fit_parts(self.alloc, &mut self.rows, extensions)?;
        Ok(())
    }

    /// Sets the part at a place of each row to zero bytes, without memory.
    pub fn clear_part(&mut self, place: u32)
        ensures rows { self.new.rows ≡ map (with_row_parts (with_item place zeroed)) self.old.rows }
        ensures room { self.new.room ≡ self.old.room }
    {
        clear_part(self.alloc, &mut self.rows, place);
    }

    /// Writes these bytes over the first ones of the part at a place of the row with this UID,
    /// where there is such a row, without memory.
    pub fn set_part(&mut self, uid: u32, place: u32, bytes: &[u8])
        requires { All
            (λ row. IfSome (slice_get row.parts place)
            (λ part. length bytes.now ≤ length part)) self.old.rows }
        ensures rows { self.new.rows
            ≡ map (λ row. if nat_eq uid row.uid then with_row_parts
            (with_item place (written_at_front bytes.now)) row else row) self.old.rows }
        ensures room { self.new.room ≡ self.old.room }
    {
        set_part(self.alloc, &mut self.rows, uid, place, bytes);
    }

    /// Adds the UIDs of the rows in the ranges, which may be in disorder and overlap: each is
    /// found by halves. After `NoMemory` some of them may be added.
    pub fn name_uids<R: Range>(&self, ranges: &[R], uids: &mut Vec<u32>) -> Result<(), NoMemory>
        ensures named { OnOk result ((uid : ℕ) →
            IsNamed R.lowest R.highest ranges.now self.now.rows uid
            → Contains uids.new.items uid) }
        ensures kept { (uid : ℕ) → Contains uids.old.items uid → Contains uids.new.items uid }
        ensures only { (uid : ℕ) → Contains uids.new.items uid →
            Contains uids.old.items uid
            ⊎ IsNamed R.lowest R.highest ranges.now self.now.rows uid }
    {
        name_ranges(&self.rows, ranges, uids)
    }

    /// Copies of the rows with these UIDs, which rise: each is found by halves. `NoMemory` is the
    /// only error.
    pub fn part(&self, alloc: Global, uids: &[u32]) -> Result<Rows, NoMemory>
        requires { IsStrictlyIncreasing uids.now }
        ensures { IfOk result (λ part. part
            ≡ record {
              rows = filter (λ row. is_among uids.now row.uid) self.now.rows;
              room = 0;
            }) }
    {
        let rows = copies(alloc, &self.rows, uids)?;
        Rows::of(alloc, List::from_vec(rows))
    }

    /// Puts a part in the place of the rows with these UIDs, which rise, without memory: rows with
    /// UIDs from the bound on are added at the end, and rows that the part lacks leave, in one
    /// move.
    pub fn put_part(&mut self, uids: &[u32], bound: u32, part: Rows)
        requires rising { IsStrictlyIncreasing uids.now }
        requires named { All (HasUid self.old.rows) uids.now }
        requires below { All (λ row. row.uid < bound) self.old.rows }
        requires parted { All (λ row. is_parted uids.now bound row.uid ≡ true) part.rows }
        requires room { count_by (λ row. nat_le bound row.uid) part.rows ≤ self.old.room }
        ensures part { filter (λ row. is_parted uids.now bound row.uid) self.new.rows
            ≡ part.rows }
        ensures others { filter (λ row. not (is_parted uids.now bound row.uid)) self.new.rows
            ≡ filter (λ row. not (is_parted uids.now bound row.uid)) self.old.rows }
        ensures rows { AreRows self.new.rows }
        ensures room { self.old.room
            ≡ self.new.room + count_by (λ row. nat_le bound row.uid) part.rows }
    {
        self.remove_missing(uids, &part);
        for row in part.into_list().into_vec() {
            if row.uid < bound {
                self.replace(row);
            } else {
                self.push(row);
            }
        }
    }
}
