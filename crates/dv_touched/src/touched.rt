ghost use Rattle.std.specs.Prelude.{◌≡◌, ◌↔◌, ◌⊎◌, ℕ, [], Contains, IfOk};
ghost use Rattle.std.specs.List.Sorted.{IsStrictlyIncreasing};
ghost use Rattle.dv_touched.specs.Telling.{Differs};

use crate::merging::{differing, merged};
use dv_model::NoMemory;
use dv_rows::Rows;
use std::alloc::Global;
use std::marker::Model;

/// The UIDs of which a session is to be told, rising. Contracts see them as a list.
#[derive(Drop)]
pub struct Touched {
    uids: Vec<u32>,
}

impl Model for Touched {
    ghost use Rattle.std.specs.Prelude.{ℕ, List};
    ghost use Rattle.std.specs.List.Sorted.{IsStrictlyIncreasing};

    ghost Value = { List ℕ };

    ghost view = { λ t. t.uids.items };

    ghost invariant = { λ t. IsStrictlyIncreasing t.uids.items };
}

impl Touched {
    /// No UIDs. Takes no memory.
    pub fn empty(alloc: Global) -> Touched
        ensures { result ≡ [] }
    {
        Touched {
            uids: Vec::new(alloc),
        }
    }

    /// Those of these UIDs, which rise, whose rows are shown in another way than before, or that
    /// are now the UIDs of rows or no more: each row is found by halves.
    pub fn between(alloc: Global, uids: &[u32], old: &Rows, new: &Rows) -> Result<Touched, NoMemory>
        requires { IsStrictlyIncreasing uids.now }
        ensures { IfOk result (λ touched. (uid : ℕ) →
            Contains touched uid
            ↔ (Contains uids.now uid × Differs old.now.rows new.now.rows uid)) }
    {
        let uids = differing(alloc, uids, old, new)?;
        Ok(Touched { uids })
    }

    /// These UIDs, which rise. Takes no memory.
    pub fn of(uids: Vec<u32>) -> Touched
        requires { IsStrictlyIncreasing uids.items }
        ensures { result ≡ uids.items }
    {
        Touched { uids }
    }

    /// The vector of the UIDs.
    pub fn into_uids(self) -> Vec<u32>
        ensures is { result.items ≡ self }
        ensures rising { IsStrictlyIncreasing self }
    {
        let Touched { uids } = self;
        uids
    }

    /// The UIDs of both.
    pub fn with(&self, alloc: Global, more: &Touched) -> Result<Touched, NoMemory>
        ensures all { IfOk result (λ all. (uid : ℕ) →
            Contains all uid ↔ (Contains self.now uid ⊎ Contains more.now uid)) }
        ensures rising { IfOk result (λ all. IsStrictlyIncreasing all) }
    {
        let uids = merged(alloc, &self.uids, &more.uids)?;
        Ok(Touched { uids })
    }

    /// The UIDs as a slice.
    pub fn uids(&self) -> &[u32]
        ensures is { result.now ≡ self.now }
        ensures rising { IsStrictlyIncreasing self.now }
    {
        &self.uids
    }

    /// Takes all UIDs away.
    pub fn clear(&mut self)
        ensures { self.new ≡ [] }
    {
        self.uids.truncate(0);
    }
}
