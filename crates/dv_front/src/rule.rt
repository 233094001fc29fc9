use crate::notes::{Generation, NamesNote, Note};
use atomic_table::{Join, Play, Seat, Split, TableRule};
use dv_model::{Mailbox, Mark};
use std::collections::LinkedList;
use std::marker::PhantomData;
use std::snapshot::Snapshot;

/// What a seat knows of the published words. No value of it is made.
pub struct Knowledge {
    pub generation: Generation,
    pub notes: LinkedList<Note>,
    pub sealed: bool,
}

/// The view of a seat. No value of it is made.
pub struct SeatView {
    /// It isn't spent: no other view has taken it in.
    pub live: bool,
    /// It is the seat that stores.
    pub pen: bool,
    /// The data words that it put.
    pub put: LinkedList<u64>,
    /// How often it loaded the number of published words.
    pub loads: u64,
    pub own: Knowledge,
    /// What another seat knows, between a join and the load that follows.
    pub told: Knowledge,
}

/// What comes before a generation: the start of the log, or the pen's seat of the one before.
#[derive(Drop)]
pub enum Before {
    First {
        mailbox: Snapshot<Mailbox>,
        mark: Mark,
        start_count: u64,
    },
    Next(Snapshot<Seat<u8, SeatView>>),
}

/// What a generation is told when its table is made.
#[derive(Drop)]
pub struct Beginning {
    pub room: u64,
    pub before: Before,
}

pub struct Rule;

impl TableRule<u8, SeatView, Beginning> for Rule {
    ghost use Rattle.dv_front.specs.Rule.{IsKept};
    ghost use Rattle.dv_front.specs.Steps.{generation_of, first_view};

    ghost holds = { λ b s. IsKept (generation_of b) s.words s.views };

    ghost first = { λ b. first_view (generation_of b) };
}

/// A load of the number of published words.
pub struct LoadsFront;

impl Play<u8, SeatView> for LoadsFront {
    ghost use Rattle.dv_front.specs.Steps.{FrontLoaded};

    ghost then = { FrontLoaded };
}

/// A load of a published word.
pub struct LoadsWord;

impl Play<u8, SeatView> for LoadsWord {
    ghost use Rattle.dv_front.specs.Steps.{WordLoaded};

    ghost then = { WordLoaded };
}

/// A load that compares what was told with what is known.
pub struct Compares;

impl Play<u8, SeatView> for Compares {
    ghost use Rattle.dv_front.specs.Steps.{Compared};

    ghost then = { Compared };
}

/// A load that adds what was told to what is known.
pub struct Learns;

impl Play<u8, SeatView> for Learns {
    ghost use Rattle.dv_front.specs.Steps.{Learned};

    ghost then = { Learned };
}

/// A store of a data word that isn't published.
pub struct Puts;

impl Play<u8, SeatView> for Puts {
    ghost use Rattle.dv_front.specs.Steps.{WordPut};

    ghost then = { WordPut };
}

/// A store of the number of published words.
pub struct Publishes<J> {
    of: PhantomData<J>,
}

impl<J: NamesNote> Play<u8, SeatView> for Publishes<J> {
    ghost use Rattle.dv_front.specs.Steps.{Published};

    ghost then = { Published J.note };
}

/// A store of the seal.
pub struct Seals;

impl Play<u8, SeatView> for Seals {
    ghost use Rattle.dv_front.specs.Steps.{Sealed};

    ghost then = { Sealed };
}

/// A second view that knows as much, and a view that takes in another.
pub struct Sharing;

impl Split<SeatView> for Sharing {
    ghost use Rattle.dv_front.specs.Steps.{pass_of};

    ghost left = { λ v. v };

    ghost right = { pass_of };
}

impl Join<SeatView> for Sharing {
    ghost use Rattle.dv_front.specs.Steps.{hearing, spent_view};

    ghost both = { hearing };

    ghost spent = { spent_view };
}
