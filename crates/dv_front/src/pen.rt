ghost use Rattle.std.specs.Prelude.{◌≡◌, ◌+◌, ◌++◌, ◌∷◌, [], ◌^◌, ◌<◌, ◌≤◌, false, length, take, IfOk};
ghost use mathlib.Core.List.{IsPrefix};
ghost use Rattle.dv_front.specs.Ends.{generation, knowledge, new_pass, new_pen, next_generation, shown, with_note, with_seal, with_word};
ghost use Rattle.dv_front.specs.Notes.{AreGood, text_of};
ghost use Rattle.dv_front.specs.Steps.{generation_by};

use crate::notes::NamesNote;
use crate::pass::{Pass, SEAL, Words};
use crate::rule::{Before, Beginning, Compares, Learns, Publishes, Puts, Seals, SeatView, Sharing};
use atomic_table::{Seat, Table};
use dv_model::{Mailbox, Mark, NoMemory};
use std::alloc::Global;
use std::marker::Model;
use std::snapshot::Snapshot;
use std::sync::Arc;

/// The one end of a table that stores. Contracts see which words it put, and the notes whose words
/// it published.
#[derive(Drop)]
pub struct Pen {
    table: Arc<Words, Global>,
    seat: Seat<u8, SeatView>,
    put: u32,
    published: u32,
}

impl Model for Pen {
    ghost use Rattle.std.specs.Prelude.{◌≡◌, ◌+◌, ◌≤◌, ◌<◌, ◌^◌, [], true, length, take};
    ghost use Rattle.std.specs.Arc.{arc_value};
    ghost use Rattle.dv_front.specs.Ends.{PenView};
    ghost use Rattle.dv_front.specs.Notes.{AreGood, text_of};

    ghost Value = { PenView };

    ghost view = { λ p. record {
      table = p.seat.table_id;
      generation = p.seat.me.0.own.generation;
      put = p.seat.me.0.put;
      notes = p.seat.me.0.own.notes;
      sealed = p.seat.me.0.own.sealed;
    } };

    ghost invariant = { λ p.
        ((arc_value p.table).shared.table_id ≡ p.seat.table_id)
        × (p.seat.me.1 ≡ [])
        × (p.seat.me.0.live ≡ true)
        × (p.seat.me.0.pen ≡ true)
        × (p.seat.me.0.told ≡ p.seat.me.0.own)
        × (p.seat.me.0.own.generation.room + 1 ≡ p.seat.table_id.words)
        × (p.seat.me.0.own.generation.room < 2 ^ 32)
        × (length p.seat.me.0.put ≤ p.seat.me.0.own.generation.room)
        × (p.put ≡ length p.seat.me.0.put)
        × (text_of p.seat.me.0.own.notes ≡ take p.published p.seat.me.0.put)
        × (p.published ≤ p.put)
        × AreGood p.seat.me.0.own.generation p.seat.me.0.own.notes };
}

/// The first generation, in a table of so many data words, of which none is published: its pen,
/// and a pass. The start of the log and the folder's count of failures serve contracts alone.
pub fn new_front(
    alloc: Global,
    words: u32,
    mailbox: &Mailbox,
    mark: Mark,
    start_count: u64,
) -> Result<(Pen, Pass), NoMemory>
    requires { 1 ≤ words }
    ensures pen { IfOk result (λ ends. ends.0 ≡ new_pen ends.0.table
        (generation words (record { mailbox = mailbox.now; mark = mark }) start_count)) }
    ensures pass { IfOk result (λ ends. ends.1 ≡ new_pass ends.0.table ends.0.generation) }
{
    let before = Before::First {
        mailbox: Snapshot::of(mailbox),
        mark,
        start_count,
    };
    front_behind(alloc, words, before)
}

/// The generation behind what a pen published, in a table of so many data words: its pen, and a
/// pass. Nothing is changed in the generation before it.
pub fn next_front(alloc: Global, pen: &Pen, words: u32) -> Result<(Pen, Pass), NoMemory>
    requires { 1 ≤ words }
    ensures pen { IfOk result (λ ends. ends.0 ≡ new_pen ends.0.table
        (next_generation words (knowledge pen.now))) }
    ensures pass { IfOk result (λ ends. ends.1 ≡ new_pass ends.0.table ends.0.generation) }
{
    front_behind(alloc, words, Before::Next(Snapshot::of(&pen.seat)))
}

// A table with so many data words, and its ends.
fn front_behind(alloc: Global, words: u32, before: Before) -> Result<(Pen, Pass), NoMemory>
    requires words { 1 ≤ words }
    requires good { AreGood (generation_by words before) [] }
    ensures pen { IfOk result (λ ends. ends.0 ≡ new_pen ends.0.table (generation_by words before)) }
    ensures pass { IfOk result (λ ends. ends.1 ≡ new_pass ends.0.table ends.0.generation) }
{
    let beginning = Beginning {
        room: u64::from(words),
        before,
    };
    let zeros = Vec::from_elem(alloc, 0u64, words as usize + 1)?;
    let (table, mut seat) = Table::of_words(alloc, zeros.as_slice(), &beginning)?;
    let table = Arc::new(alloc, table)?;
    let for_pass = Arc::try_clone(&table)?;
    let second = table.shared.split_seat::<Sharing>(&mut seat);
    let pass = Pass {
        table: for_pass,
        seat: second,
        taken: 0,
    };
    let pen = Pen {
        table,
        seat,
        put: 0,
        published: 0,
    };
    Ok((pen, pass))
}

/// How many words the pen put. The notes that it published are good.
pub fn words_put(pen: &Pen) -> u32
    ensures put { (result ≡ length pen.now.put) × (result ≤ pen.now.generation.room) }
    ensures small { pen.now.generation.room < 2 ^ 32 }
    ensures good { AreGood pen.now.generation pen.now.notes }
{
    pen.put
}

/// How many words can still be put.
pub fn words_left(pen: &Pen) -> u32
    ensures { result + length pen.now.put ≡ pen.now.generation.room }
{
    (pen.table.word_count() - 1) as u32 - pen.put
}

/// Puts a data word at the next place, counted from 1. No pass sees it before it is published.
pub fn put_word(pen: &mut Pen, at: u32, word: u32)
    requires next { at ≡ length pen.old.put + 1 }
    requires room { at ≤ pen.old.generation.room }
    ensures { pen.new ≡ with_word pen.old word }
{
    pen.table
        .shared
        .store::<Puts>(&mut pen.seat, at as usize, u64::from(word));
    pen.put = at;
}

/// Publishes the first words, so many of them, by one store: those that were published, and those
/// of one entry more, which the caller names.
pub fn publish<J: NamesNote>(pen: &mut Pen, words: u32)
    requires put { words ≤ length pen.old.put }
    requires text { take words pen.old.put ≡ text_of (pen.old.notes ++ J.note ∷ []) }
    requires good { AreGood pen.old.generation (pen.old.notes ++ J.note ∷ []) }
    requires open { pen.old.sealed ≡ false }
    ensures { pen.new ≡ with_note pen.old J.note }
{
    pen.table
        .shared
        .store::<Publishes<J>>(&mut pen.seat, 0, u64::from(words));
    pen.published = words;
}

/// From now on nothing is published.
pub fn seal(pen: &mut Pen)
    requires { pen.old.sealed ≡ false }
    ensures { pen.new ≡ with_seal pen.old }
{
    let sealed = u64::from(pen.published) + SEAL;
    pen.table.shared.store::<Seals>(&mut pen.seat, 0, sealed);
}

/// Shows a pass of the same table all that the pen published, and whether that is sealed.
pub fn show(pen: &mut Pen, p: &mut Pass)
    requires { p.old.table ≡ pen.old.table }
    ensures pass { p.new ≡ shown pen.old p.old }
    ensures begins { IsPrefix p.old.notes p.new.notes }
    ensures good { AreGood p.new.generation p.new.notes }
    ensures one { p.old.generation ≡ pen.old.generation }
    ensures pen { pen.new ≡ pen.old }
{
    let second = pen.table.shared.split_seat::<Sharing>(&mut pen.seat);
    p.table.shared.join_seat::<Sharing>(&mut p.seat, second);
    p.table.shared.load::<Learns>(&mut p.seat, 0);
    let second = p.table.shared.split_seat::<Sharing>(&mut p.seat);
    pen.table.shared.join_seat::<Sharing>(&mut pen.seat, second);
    pen.table.shared.load::<Compares>(&mut pen.seat, 0);
}
