//! A storage that was opened, with its folder and a clock.

ghost use Rattle.std.specs.Prelude.{◌≡◌};
ghost use Rattle.dv_chain.specs.Openings.{HasBounds};
ghost use Rattle.dv_files.specs.Texts.{place_of};
ghost use Rattle.dv_mdbox.specs.States.{StandsAt, fresh_state};

use crate::tails::Tail;
use dv_chain::Chain;
use dv_files::Turn;
use dv_model::{Entry, List, Mark};
use std::alloc::Global;
use std::marker::Model;

/// A storage folder that is open, and the clock that its writes are dated by. Contracts see the
/// folder, the clock, the map at the end of its log, the turn of a rotation whose last replace is
/// owed, where the log ended at first, the groups since then, the place behind them, and the end of
/// the last message file, where it is known.
#[derive(Drop)]
pub struct Storage<S, C> {
    pub(crate) alloc: Global,
    pub(crate) shelf: S,
    pub(crate) clock: C,
    pub(crate) chain: Chain,
    pub(crate) owed: Option<Turn>,
    pub(crate) start: Mark,
    pub(crate) entries: Vec<Entry>,
    pub(crate) mark: Mark,
    /// The end of the last message file, where it is known.
    pub(crate) tail: Option<Tail>,
}

impl<S, C> Model for Storage<S, C> {
    ghost use Rattle.std.specs.Coded.{coded_list, coded_option};
    ghost use Rattle.dv_chain.specs.contracts.chain.Chain as chain_type;
    ghost use Rattle.dv_files.specs.contracts.texts.Turn as turn_type;
    ghost use Rattle.dv_model.specs.contracts.types.Entry as entry_type;
    ghost use Rattle.dv_model.specs.contracts.types.Mark as mark_type;
    ghost use Rattle.dv_files.specs.Texts.{place_of};
    ghost use Rattle.dv_writing.specs.Repairing.{IsOwing};
    ghost use Rattle.dv_mdbox.specs.contracts.tails.Tail as tail_type;
    ghost use Rattle.dv_mdbox.specs.States.{StandsAt, State, state_code};
    ghost use Rattle.dv_mdbox.specs.Tails.{KeepsEnd};

    ghost Value = { State S C };

    ghost coded = { state_code S.code C.code chain_type.the_row.coded
        (coded_option turn_type.the_row.coded) mark_type.the_row.coded
        (coded_list entry_type.the_row.coded) (coded_option tail_type.the_row.coded) };

    ghost view = { λ s. record {
      shelf = s.shelf;
      clock = s.clock;
      chain = s.chain;
      owed = s.owed;
      start = s.start;
      entries = s.entries.items;
      mark = s.mark;
      tail = s.tail;
    } };

    ghost invariant = { λ s. IsOwing s.chain s.owed × StandsAt s.mark (place_of s.chain) s.owed
        × KeepsEnd s.chain.live.mailbox s.tail };
}

/// Where the log of a chain ends.
fn place_of(chain: &Chain) -> Mark
    ensures { result ≡ place_of chain.now }
{
    Mark {
        file_seq: chain.log.file_seq,
        offset: chain.log.end,
    }
}

/// The storage of a chain that was opened just now. Takes no memory.
pub(crate) fn fresh<S, C>(alloc: Global, shelf: S, clock: C, chain: Chain) -> Storage<S, C>
    requires { HasBounds chain }
    ensures { result ≡ fresh_state shelf clock chain }
{
    let mark = place_of(&chain);
    Storage {
        alloc,
        shelf,
        clock,
        chain,
        owed: None,
        start: mark,
        entries: Vec::new(alloc),
        mark,
        tail: None,
    }
}

impl<S, C> Storage<S, C> {
    /// The place behind the last group, or where the log ended at first: the file, and the place
    /// there, in bytes. A rotation that no group followed leaves it as it is. Takes no memory.
    pub fn mark(&self) -> Mark
        ensures is { result ≡ self.now.mark }
        ensures stands { StandsAt result (place_of self.now.chain) self.now.owed }
    {
        self.mark
    }

    /// The folder and the clock, for other uses, and the groups that were written, each by author
    /// 1. Takes no memory.
    pub fn parts(self) -> (S, C, List<Entry>)
        ensures { result ≡ (self.shelf, self.clock, self.entries) }
    {
        let Storage {
            shelf,
            clock,
            entries,
            ..
        } = self;
        (shelf, clock, List::from_vec(entries))
    }
}
