ghost use Rattle.std.specs.Prelude.{◌≡◌, ◌≢◌, ◌<◌, ◌^◌, ℕ, [], AllPairs, List, None, Some, IfOk, OnErr, OnOk, if◌then◌else◌, length};
ghost use Rattle.std.specs.Str.{bytes_eq};
ghost use Rattle.dv_keywords.specs.Finding.{FindsAll, found};

use dv_model::{Bytes, NoMemory};
use std::alloc::Global;
use std::collections::BTreeMap;

/// The places of names, by their bytes.
#[derive(Drop)]
pub struct Index {
    map: BTreeMap<Vec<u8>, u32>,
}

impl Index {
    /// No names.
    pub fn new(alloc: Global) -> Index
        ensures { FindsAll result.map [] }
    {
        Index {
            map: BTreeMap::new(alloc),
        }
    }

    /// The places of these names. `NoMemory` is the only error.
    pub fn of(alloc: Global, names: &[Bytes]) -> Result<Index, NoMemory>
        requires few { length names.now < 2 ^ 32 }
        requires distinct { AllPairs (λ a b. a ≢ b) names.now }
        ensures { IfOk result (λ index. FindsAll index.map names.now) }
    {
        let mut index = Index::new(alloc);
        for at in 0..names.len() {
            index.insert(alloc, names[at].as_slice(), at as u32)?;
        }
        Ok(index)
    }

    /// The place of a name.
    pub fn get(&self, name: &[u8]) -> Option<u32>
        ensures { result ≡ found self.now.map name.now }
    {
        self.map.get(name).copied()
    }

    /// Puts a name at a place, and says where it was before. After `NoMemory` all is as before.
    pub fn insert(&mut self, alloc: Global, name: &[u8], at: u32) -> Result<Option<u32>, NoMemory>
        ensures old { IfOk result (λ old. old ≡ found self.old.map name.now) }
        ensures ok { OnOk result ((other : List ℕ) → found self.new.map other
            ≡ (if bytes_eq name.now other then Some at else found self.old.map other)) }
        ensures err { OnErr result ((other : List ℕ) → found self.new.map other
            ≡ found self.old.map other) }
    {
        let key = Vec::from_slice(alloc, name)?;
        Ok(self.map.insert(key, at)?)
    }

    /// Takes a name away.
    pub fn remove(&mut self, name: &[u8])
        ensures { (other : List ℕ) → found self.new.map other
            ≡ (if bytes_eq name.now other then None else found self.old.map other) }
    {
        self.map.remove(name);
    }
}
