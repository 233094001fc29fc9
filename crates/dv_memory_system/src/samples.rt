ghost use Rattle.std.specs.Prelude.{◌≤◌, ℕ, length, IfOk};
ghost use Rattle.dv_shelf.specs.Disks.{Version, Gone, settled_version, version_written};
ghost use Rattle.dv_system.specs.Entries.{empty_file};

use crate::bytes::{copy_file, patched_file, written};
use dv_model::{Bytes, List, NoMemory};
use std::alloc::Global;

/// A file as reads give it, and two more that a crash may leave of it.
#[derive(Drop)]
pub struct Samples {
    pub read: Option<Bytes>,
    /// As its last sync left it.
    pub synced: Option<Bytes>,
    /// With the first half of each write since.
    pub torn: Option<Bytes>,
}

impl Samples {
    ghost use Rattle.dv_memory_system.specs.States.{AreSamples};

    /// Of no file.
    pub fn none() -> Samples
        ensures { AreSamples Gone result }
    {
        Samples {
            read: None,
            synced: None,
            torn: None,
        }
    }

    /// Of an empty file.
    pub fn empty(alloc: Global) -> Samples
        ensures { AreSamples empty_file result }
    {
        let read = List::new(alloc);
        let synced = List::new(alloc);
        let torn = List::new(alloc);
        Samples {
            read: Some(read),
            synced: Some(synced),
            torn: Some(torn),
        }
    }

    /// Of a durable file.
    pub fn durable(alloc: Global, file: &Option<Bytes>) -> Result<Samples, NoMemory>
        ensures { IfOk result (AreSamples (settled_version file.now)) }
    {
        let read = copy_file(alloc, file)?;
        let synced = copy_file(alloc, file)?;
        let torn = copy_file(alloc, file)?;
        Ok(Samples { read, synced, torn })
    }

    /// Of the file behind a write, of which reads see so many bytes.
    pub fn written(
        self,
        alloc: Global,
        at: u32,
        stuck: &[u8],
        half: &[u8],
    ) -> Result<Samples, NoMemory>
        requires { length half.now ≤ length stuck.now }
        ensures { (v : Version) (n : ℕ) → length stuck.now ≤ n → AreSamples v self →
            IfOk result (AreSamples (version_written at n stuck.now v)) }
    {
        let read = written(alloc, &self.read, at, stuck)?;
        let torn = patched_file(alloc, &self.torn, at, half)?;
        Ok(Samples {
            read: Some(read),
            synced: self.synced,
            torn,
        })
    }

    /// The same once more.
    pub fn copy(&self, alloc: Global) -> Result<Samples, NoMemory>
        ensures { (v : Version) → AreSamples v self.now → IfOk result (AreSamples v) }
    {
        let read = copy_file(alloc, &self.read)?;
        let synced = copy_file(alloc, &self.synced)?;
        let torn = copy_file(alloc, &self.torn)?;
        Ok(Samples { read, synced, torn })
    }
}
