//! A mailbox that was opened, with its folder and a clock.

ghost use Rattle.std.specs.Prelude.{◌≡◌};
ghost use Rattle.dv_chain.specs.Openings.{HasBounds};
ghost use Rattle.dv_files.specs.Texts.{place_of};
ghost use Rattle.dv_store.specs.States.{fresh_state};

use dv_apply::Live;
use dv_chain::Chain;
use dv_files::Turn;
use dv_lookups::CacheFile;
use dv_model::Mark;
use std::alloc::Global;
use std::marker::Model;

/// A mailbox folder that is open, and the clock that its writes are dated by. Contracts see the
/// folder, the clock, the chain, the turn of a rotation whose last replace is owed, the cache file
/// as far as it was read, and the place behind the last group.
#[derive(Drop)]
pub struct Store<S, C> {
    pub(crate) alloc: Global,
    pub(crate) shelf: S,
    pub(crate) clock: C,
    pub(crate) chain: Chain,
    pub(crate) owed: Option<Turn>,
    pub(crate) cache: CacheFile,
    pub(crate) mark: Mark,
}

impl<S, C> Model for Store<S, C> {
    ghost use Rattle.std.specs.Coded.{coded_option};
    ghost use Rattle.dv_chain.specs.contracts.chain.Chain as chain_type;
    ghost use Rattle.dv_files.specs.contracts.texts.Turn as turn_type;
    ghost use Rattle.dv_lookups.specs.contracts.cache_file.CacheFile as file_type;
    ghost use Rattle.dv_model.specs.contracts.types.Mark as mark_type;
    ghost use Rattle.dv_writing.specs.Repairing.{IsOwing};
    ghost use Rattle.dv_store.specs.States.{State, state_code};

    ghost Value = { State S C };

    ghost coded = { state_code S.code C.code chain_type.the_row.coded
        (coded_option turn_type.the_row.coded) file_type.the_row.coded mark_type.the_row.coded };

    ghost view = { λ s. record {
      shelf = s.shelf;
      clock = s.clock;
      chain = s.chain;
      owed = s.owed;
      cache = s.cache;
      mark = s.mark;
    } };

    ghost invariant = { λ s. IsOwing s.chain s.owed };
}

/// The store of a chain that was opened just now. Takes no memory.
pub(crate) fn fresh<S, C>(alloc: Global, shelf: S, clock: C, chain: Chain) -> Store<S, C>
    requires { HasBounds chain }
    ensures { result ≡ fresh_state shelf clock chain }
{
    let mark = place_of(&chain);
    Store {
        alloc,
        shelf,
        clock,
        chain,
        owed: None,
        cache: CacheFile::Unread,
        mark,
    }
}

/// Where the log of a chain ends.
pub(crate) fn place_of(chain: &Chain) -> Mark
    ensures { result ≡ place_of chain.now }
{
    Mark {
        file_seq: chain.log.file_seq,
        offset: chain.log.end,
    }
}

impl<S, C> Store<S, C> {
    /// The mailbox.
    pub fn live(&self) -> &Live
        ensures { result.now ≡ self.now.chain.live }
    {
        &self.chain.live
    }

    /// The place behind the last group, or where the log ended at first: the file, and the place
    /// there, in bytes. A rotation that no group followed leaves it as it is.
    pub fn mark(&self) -> Mark
        ensures { result ≡ self.now.mark }
    {
        self.mark
    }

    /// Where the log ends: the file, and the place there, in bytes.
    pub fn place(&self) -> Mark
        ensures { result ≡ place_of self.now.chain }
    {
        place_of(&self.chain)
    }

    /// The number that names the mailbox's files.
    pub fn indexid(&self) -> u32
        ensures { result ≡ self.now.chain.indexid }
    {
        self.chain.indexid
    }

    /// The folder and the clock, for other uses.
    pub fn parts(self) -> (S, C)
        ensures { result ≡ (self.shelf, self.clock) }
    {
        let Store { shelf, clock, .. } = self;
        (shelf, clock)
    }
}
