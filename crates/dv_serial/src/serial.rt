ghost use Rattle.std.specs.Prelude.{◌≡◌, length};
ghost use Rattle.dv_serial.specs.Servings.{serving_over};

use dv_answer::Session;
use dv_apply::Live;
use dv_model::{List, Mark};
use dv_store::Store;
use std::alloc::Global;
use std::marker::Model;

/// The sessions of a script over a mailbox folder, served one command after another. Contracts see
/// the folder with its mailbox and the clock, the sessions, and how many groups were written. The
/// groups themselves are in the folder alone.
#[derive(Drop)]
pub struct Serial<S, C> {
    pub(crate) alloc: Global,
    pub(crate) store: Store<S, C>,
    /// Those of the numbers from 1 on.
    pub(crate) seats: Vec<Session>,
    /// How many groups were written.
    pub(crate) groups: u64,
}

impl<S, C> Model for Serial<S, C> {
    ghost use Rattle.std.specs.Coded.{coded_list, coded_option, coded_ℕ};
    ghost use Rattle.dv_model.specs.contracts.types.Mark as mark_type;
    ghost use Rattle.dv_chain.specs.contracts.chain.Chain as chain_type;
    ghost use Rattle.dv_files.specs.contracts.texts.Turn as turn_type;
    ghost use Rattle.dv_lookups.specs.contracts.cache_file.CacheFile as file_type;
    ghost use Rattle.dv_answer.specs.contracts.session.Session as session_type;
    ghost use Rattle.dv_store.specs.States.{state_code};
    ghost use Rattle.dv_serial.specs.Servings.{Serving, serving_code};

    ghost Value = { Serving S C };

    ghost coded = { serving_code
        (state_code S.code C.code chain_type.the_row.coded
        (coded_option turn_type.the_row.coded) file_type.the_row.coded
        mark_type.the_row.coded)
        (coded_list session_type.the_row.coded) coded_ℕ };

    ghost view = { λ s. record {
      store = s.store;
      seats = s.seats.items;
      groups = s.groups;
    } };
}

impl<S, C> Serial<S, C> {
    /// These sessions over a mailbox that was opened just now. Takes no memory.
    pub fn new(alloc: Global, store: Store<S, C>, seats: List<Session>) -> Serial<S, C>
        ensures { result ≡ serving_over store seats }
    {
        Serial {
            alloc,
            store,
            seats: seats.into_vec(),
            groups: 0,
        }
    }

    /// The place behind the last group that was written, or where the log ended at first.
    pub fn mark(&self) -> Mark
        ensures { result ≡ self.now.store.mark }
    {
        self.store.mark()
    }

    /// How many groups were written.
    pub fn count(&self) -> u64
        ensures { result ≡ self.now.groups }
    {
        self.groups
    }

    /// The mailbox.
    pub fn live(&self) -> &Live
        ensures { result.now ≡ self.now.store.chain.live }
    {
        self.store.live()
    }

    /// How many messages the mailbox has. Takes no memory.
    pub fn message_count(&self) -> u32
        ensures { result ≡ length self.now.store.chain.live.mailbox.rows }
    {
        self.store.live().count()
    }

    /// The UID that the next message will have (RFC 3501, section 2.3.1.1). Takes no memory.
    pub fn next_uid(&self) -> u32
        ensures { result ≡ self.now.store.chain.live.mailbox.next_uid }
    {
        self.store.live().next_uid()
    }

    /// The folder and the clock.
    pub fn parts(self) -> (S, C)
        ensures { result ≡ (self.store.shelf, self.store.clock) }
    {
        let Serial { store, .. } = self;
        store.parts()
    }
}
