ghost use Rattle.std.specs.Prelude.{◌≡◌, ◌⊎◌, ◌-◌, ◌≤◌, true, length, slice_get, IfOk, Some};
ghost use mathlib.Core.List.{IsPrefix};
ghost use Rattle.dv_front.specs.Ends.{joined, known, loaded, second_of, with_taken, word_loaded};
ghost use Rattle.dv_front.specs.Notes.{AreGood};

use crate::rule::{Beginning, Compares, Learns, LoadsFront, LoadsWord, Rule, SeatView, Sharing};
use atomic_table::{Seat, Table};
use dv_model::NoMemory;
use std::alloc::Global;
use std::marker::Model;
use std::sync::Arc;

/// What is added to the number of published words once they are sealed.
pub(crate) const SEAL: u64 = 1 << 63;

/// A table of shared words: the number of published words, and the data words.
pub(crate) type Words = Table<u8, SeatView, Beginning, Rule, Global>;

/// How many words are published, and whether there will be no more.
#[derive(Clone, Copy, PartialEq, Eq, Debug)]
pub struct FrontWord {
    pub words: u32,
    pub sealed: bool,
}

/// An end of a table that loads its words. Contracts see the notes whose words it knows, and how
/// many of these words it has taken.
#[derive(Drop)]
pub struct Pass {
    pub(crate) table: Arc<Words, Global>,
    pub(crate) seat: Seat<u8, SeatView>,
    pub(crate) taken: u32,
}

impl Model for Pass {
    ghost use Rattle.std.specs.Prelude.{◌≡◌, ◌+◌, ◌≤◌, [], true, false, length};
    ghost use Rattle.std.specs.Arc.{arc_value};
    ghost use Rattle.dv_front.specs.Ends.{PassView};
    ghost use Rattle.dv_front.specs.Notes.{text_of};

    ghost Value = { PassView };

    ghost view = { λ p. record {
      table = p.seat.table_id;
      generation = p.seat.me.0.own.generation;
      notes = p.seat.me.0.own.notes;
      taken = p.taken;
      sealed = p.seat.me.0.own.sealed;
      loads = p.seat.me.0.loads;
    } };

    ghost invariant = { λ p.
        ((arc_value p.table).shared.table_id ≡ p.seat.table_id)
        × (p.seat.me.1 ≡ [])
        × (p.seat.me.0.live ≡ true)
        × (p.seat.me.0.pen ≡ false)
        × (p.seat.me.0.told ≡ p.seat.me.0.own)
        × (p.seat.me.0.own.generation.room + 1 ≡ p.seat.table_id.words)
        × (length (text_of p.seat.me.0.own.notes) ≤ p.seat.me.0.own.generation.room)
        × (p.taken ≤ length (text_of p.seat.me.0.own.notes)) };
}

/// Loads the number of published words, which is never less than the pass knew. The notes that it
/// knows then are good: from the start of the log, each entry applies behind those before it.
pub fn load_front(p: &mut Pass) -> FrontWord
    ensures front { (result.words ≡ length (known p.new)) × (result.sealed ≡ p.new.sealed) }
    ensures begins { IsPrefix p.old.notes p.new.notes }
    ensures text { IsPrefix (known p.old) (known p.new) }
    ensures good { AreGood p.new.generation p.new.notes }
    // Behind the seal nothing is published.
    ensures last { p.old.sealed ≡ true → (p.new.sealed ≡ true) × (p.new.notes ≡ p.old.notes) }
    ensures pass { p.new ≡ loaded p.old p.new.notes p.new.sealed }
{
    let word = p.table.shared.load::<LoadsFront>(&mut p.seat, 0);
    if word < SEAL {
        FrontWord {
            words: word as u32,
            sealed: false,
        }
    } else {
        FrontWord {
            words: (word - SEAL) as u32,
            sealed: true,
        }
    }
}

/// How many words the pass has taken, of those that it knows.
pub fn words_taken(p: &Pass) -> u32
    ensures { (result ≡ p.now.taken) × (result ≤ length (known p.now)) }
{
    p.taken
}

/// Loads the word at a place, counted from 1. It is taken where it is the next.
pub fn load_word(p: &mut Pass, at: u32) -> u32
    requires { (1 ≤ at) × (at ≤ length (known p.old)) }
    ensures word { slice_get (known p.old) (at - 1) ≡ Some result }
    ensures pass { p.new ≡ word_loaded p.old at }
{
    let word = p.table.shared.load::<LoadsWord>(&mut p.seat, at as usize);
    if at - 1 == p.taken {
        p.taken = at;
    }
    word as u32
}

/// Counts all words up to a place, counted from 1, as taken without loading them.
pub fn skip_to(p: &mut Pass, at: u32)
    requires { (p.old.taken ≤ at) × (at ≤ length (known p.old)) }
    ensures { p.new ≡ with_taken p.old at }
{
    p.taken = at;
}

/// A second pass that knows as much and has taken as much. After `NoMemory` the pass is as before.
pub fn split(p: &mut Pass) -> Result<Pass, NoMemory>
    ensures second { IfOk result (λ second. second ≡ second_of p.old) }
    ensures pass { p.new ≡ p.old }
{
    let table = Arc::try_clone(&p.table)?;
    let seat = p.table.shared.split_seat::<Sharing>(&mut p.seat);
    Ok(Pass {
        table,
        seat,
        taken: p.taken,
    })
}

/// Then the pass knows and has taken what either has: the longer list of notes, which begins with
/// both.
pub fn join(p: &mut Pass, other: Pass)
    requires { other.table ≡ p.old.table }
    ensures pass { p.new ≡ joined p.old other }
    ensures begins { IsPrefix p.old.notes p.new.notes × IsPrefix other.notes p.new.notes }
    ensures good { AreGood p.new.generation p.new.notes }
    ensures one { other.generation ≡ p.old.generation }
{
    let Pass {
        table: _,
        seat,
        taken,
    } = other;
    p.table.shared.join_seat::<Sharing>(&mut p.seat, seat);
    p.table.shared.load::<Learns>(&mut p.seat, 0);
    p.taken = p.taken.max(taken);
}

/// Of the notes that two passes of one table know, one list begins the other.
pub fn agree(a: &mut Pass, b: &mut Pass)
    requires { b.old.table ≡ a.old.table }
    ensures either { IsPrefix a.old.notes b.old.notes ⊎ IsPrefix b.old.notes a.old.notes }
    ensures one { b.old.generation ≡ a.old.generation }
    ensures same { (a.new ≡ a.old) × (b.new ≡ b.old) }
{
    let second = b.table.shared.split_seat::<Sharing>(&mut b.seat);
    a.table.shared.join_seat::<Sharing>(&mut a.seat, second);
    a.table.shared.load::<Compares>(&mut a.seat, 0);
}
