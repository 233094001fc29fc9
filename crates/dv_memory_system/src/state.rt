ghost use Rattle.std.specs.Prelude.{◌≡◌, ◌≢◌, ℕ, List, [], ◌∷◌, ◌++◌, true, false, length, take, IfOk};
ghost use Rattle.dv_shelf.specs.Disks.{Version, Gone};
ghost use Rattle.dv_shelf.specs.Folders.{same_name};
ghost use Rattle.dv_system.specs.Entries.{At, absent, empty_file, put_at, hidden_at, written_at, synced_at, doubted_at, swept_at, unsure_at};
ghost use Rattle.dv_shelf.specs.declared.shelf.Name.{Name};
ghost use Rattle.dv_system.specs.declared.system.Entry.TheVariants as entry;
ghost use Rattle.dv_system.specs.Disks.{Disk, changed};

use crate::samples::Samples;
use crate::step::{Change, Deed, Step};
use dv_model::{Bytes, List, NoMemory};
use dv_shelf::Name;
use dv_system::Entry;
use std::alloc::Global;

/// What stands at an entry, with some files that a crash may leave there.
#[derive(Drop)]
pub struct State {
    pub first: Samples,
    /// Of the files that a crash may bring back.
    pub others: List<Option<Bytes>>,
    pub is_doubted: bool,
    pub is_unsure: bool,
}

impl State {
    ghost use Rattle.dv_memory_system.specs.Steps.{change_at, folder_synced_at, found_at, replaced_at};
    ghost use Rattle.dv_memory_system.specs.States.{AreSamples, IsShown};

    /// No file, and there never was one.
    fn absent(alloc: Global) -> State
        ensures { IsShown absent result }
    {
        let others = List::new(alloc);
        State {
            first: Samples::none(),
            others,
            is_doubted: false,
            is_unsure: false,
        }
    }

    /// The file as reads give it.
    pub fn into_read(self) -> Option<Bytes>
        ensures { result ≡ self.first.read }
    {
        let State {
            first,
            others: _,
            is_doubted: _,
            is_unsure: _,
        } = self;
        let Samples {
            read,
            synced: _,
            torn: _,
        } = first;
        read
    }

    /// A durable file that was there at the start.
    fn found(alloc: Global, bytes: &[u8]) -> Result<State, NoMemory>
        ensures { (at : At) → IfOk result (IsShown (found_at bytes.now at)) }
    {
        let file = List::from_slice(alloc, bytes)?;
        let first = Samples::durable(alloc, &Some(file))?;
        let others = List::new(alloc);
        Ok(State {
            first,
            others,
            is_doubted: false,
            is_unsure: false,
        })
    }

    /// Another file, or none, stands there, and reads see it.
    fn put(self, first: Samples, is_doubted: bool) -> Result<State, NoMemory>
        ensures { (at : At) (v : Version) → IsShown at self → AreSamples v first →
            IfOk result (IsShown (put_at v is_doubted at)) }
    {
        let others = with_samples(self.others, self.first)?;
        Ok(State {
            first,
            others,
            is_doubted,
            is_unsure: false,
        })
    }

    /// The same, but reads don't see it.
    fn hidden(self, first: Samples) -> Result<State, NoMemory>
        ensures { (at : At) (v : Version) → IsShown at self → AreSamples v first →
            IfOk result (IsShown (hidden_at v at)) }
    {
        let others = with_samples(self.others, first)?;
        Ok(State {
            first: self.first,
            others,
            is_doubted: self.is_doubted,
            is_unsure: self.is_unsure,
        })
    }

    fn replaced(self, first: Samples, is_seen: bool) -> Result<State, NoMemory>
        ensures { (at : At) (v : Version) → IsShown at self → AreSamples v first →
            IfOk result (IsShown (replaced_at is_seen v at)) }
    {
        if is_seen {
            self.put(first, false)
        } else {
            self.hidden(first)
        }
    }

    fn made(self, alloc: Global, is_seen: bool) -> Result<State, NoMemory>
        ensures { (at : At) → IsShown at self →
            IfOk result (IsShown (replaced_at is_seen empty_file at)) }
    {
        self.replaced(Samples::empty(alloc), is_seen)
    }

    fn removed(self, is_seen: bool) -> Result<State, NoMemory>
        ensures { (at : At) → IsShown at self →
            IfOk result (IsShown (replaced_at is_seen Gone at)) }
    {
        self.replaced(Samples::none(), is_seen)
    }

    /// Bytes were written over the file, and reads see so many of them.
    fn written(self, alloc: Global, at: u32, bytes: &[u8], stuck: usize) -> Result<State, NoMemory>
        ensures { (a : At) → IsShown a self →
            IfOk result (IsShown (written_at at (length bytes.now) (take stuck bytes.now) a)) }
    {
        let (seen, _) = bytes.split_at(stuck.min(bytes.len()));
        let (half, _) = seen.split_at(seen.len() / 2);
        let first = self.first.written(alloc, at, seen, half)?;
        Ok(State {
            first,
            others: self.others,
            is_doubted: self.is_doubted,
            is_unsure: self.is_unsure,
        })
    }

    /// A sync of the file answered Ok.
    fn synced(self, alloc: Global) -> Result<State, NoMemory>
        ensures { (at : At) → IsShown at self → IfOk result (IsShown (synced_at at)) }
    {
        if self.is_doubted {
            return Ok(self);
        }
        let first = Samples::durable(alloc, &self.first.read)?;
        Ok(State {
            first,
            others: self.others,
            is_doubted: self.is_doubted,
            is_unsure: self.is_unsure,
        })
    }

    fn doubted(self) -> State
        ensures { (at : At) → IsShown at self → IsShown (doubted_at at) result }
    {
        State {
            first: self.first,
            others: self.others,
            is_doubted: true,
            is_unsure: self.is_unsure,
        }
    }

    fn sync_answered(self, alloc: Global, is_done: bool) -> Result<State, NoMemory>
        ensures { (at : At) (bytes : List ℕ) → IsShown at self →
            IfOk result (IsShown (change_at (Change.Sync is_done) bytes at)) }
    {
        if is_done {
            self.synced(alloc)
        } else {
            Ok(self.doubted())
        }
    }

    /// A sync of the folder answered Ok.
    fn swept(self, alloc: Global) -> State
        ensures { (at : At) → IsShown at self → IsShown (swept_at at) result }
    {
        if self.is_unsure {
            return self;
        }
        let others = List::new(alloc);
        State {
            first: self.first,
            others,
            is_doubted: self.is_doubted,
            is_unsure: self.is_unsure,
        }
    }

    fn unsure(self) -> State
        ensures { (at : At) → IsShown at self → IsShown (unsure_at at) result }
    {
        State {
            first: self.first,
            others: self.others,
            is_doubted: self.is_doubted,
            is_unsure: true,
        }
    }

    fn folder_synced(self, alloc: Global, is_done: bool) -> State
        ensures { (at : At) → IsShown at self → IsShown (folder_synced_at is_done at) result }
    {
        if is_done {
            self.swept(alloc)
        } else {
            self.unsure()
        }
    }

    fn changed(self, alloc: Global, change: Change, bytes: &[u8]) -> Result<State, NoMemory>
        ensures { (at : At) → IsShown at self →
            IfOk result (IsShown (change_at change bytes.now at)) }
    {
        match change {
            Change::Found => State::found(alloc, bytes),
            Change::Create { is_seen } => self.made(alloc, is_seen),
            Change::Write { at, stuck } => self.written(alloc, at, bytes, stuck),
            Change::Sync { is_done } => self.sync_answered(alloc, is_done),
            Change::Unlink { is_seen } => self.removed(is_seen),
        }
    }
}

/// Three files more.
fn with_samples(
    others: List<Option<Bytes>>,
    samples: Samples,
) -> Result<List<Option<Bytes>>, NoMemory>
    ensures { IfOk result (λ made.
        made ≡ others ++ samples.read ∷ samples.synced ∷ samples.torn ∷ []) }
{
    let mut others = others;
    others.push(samples.read)?;
    others.push(samples.synced)?;
    others.push(samples.torn)?;
    Ok(others)
}

/// What stands at a name, and the temporary file.
#[derive(Drop)]
pub struct States {
    pub here: State,
    pub temporary: State,
}

impl States {
    ghost use Rattle.dv_memory_system.specs.Steps.{change_at, deed_then, disk_after, renamed_so, step_then};
    ghost use Rattle.dv_memory_system.specs.States.{AreShown};

    /// Behind some calls.
    pub fn after(alloc: Global, steps: &[Step], name: Name) -> Result<States, NoMemory>
        ensures { IfOk result (AreShown name (disk_after steps.now)) }
    {
        let mut states = States {
            here: State::absent(alloc),
            temporary: State::absent(alloc),
        };
        for step in steps {
            states = states.then(alloc, step, name)?;
        }
        Ok(states)
    }

    /// Behind one call more.
    fn then(self, alloc: Global, step: &Step, name: Name) -> Result<States, NoMemory>
        ensures { (disk : Disk) → AreShown name disk self →
            IfOk result (AreShown name (step_then disk step.now)) }
    {
        match step.deed {
            Deed::FoundFolder => Ok(self),
            Deed::MakeFolder => Ok(self),
            Deed::SyncParent { is_done: _ } => Ok(self),
            Deed::SyncFolder { is_done } => Ok(self.folder_synced(alloc, is_done)),
            Deed::Rename {
                name: other,
                is_seen,
            } => self.renamed(alloc, name, other, is_seen),
            Deed::File { entry, change } => {
                self.changed(alloc, name, entry, change, step.bytes.as_slice())
            }
        }
    }

    fn folder_synced(self, alloc: Global, is_done: bool) -> States
        ensures { (disk : Disk) (name : Name) (bytes : List ℕ) → AreShown name disk self →
            AreShown name (deed_then disk bytes (Deed.SyncFolder is_done)) result }
    {
        let here = self.here.folder_synced(alloc, is_done);
        States {
            here,
            temporary: self.temporary,
        }
    }

    /// The temporary file took a name.
    fn renamed(
        self,
        alloc: Global,
        name: Name,
        other: Name,
        is_seen: bool,
    ) -> Result<States, NoMemory>
        ensures { (disk : Disk) → AreShown name disk self →
            IfOk result (AreShown name (renamed_so is_seen disk other)) }
    {
        if same_name(other, name) {
            self.renamed_here(alloc, is_seen)
        } else {
            Ok(self.renamed_away(alloc, is_seen))
        }
    }

    fn renamed_here(self, alloc: Global, is_seen: bool) -> Result<States, NoMemory>
        ensures { (disk : Disk) (name : Name) → AreShown name disk self →
            IfOk result (AreShown name (renamed_so is_seen disk name)) }
    {
        if is_seen {
            self.put(alloc)
        } else {
            self.hidden(alloc)
        }
    }

    fn renamed_away(self, alloc: Global, is_seen: bool) -> States
        ensures { (disk : Disk) (name other : Name) → other ≢ name → AreShown name disk self →
            AreShown name (renamed_so is_seen disk other) result }
    {
        if is_seen {
            self.without_temporary(alloc)
        } else {
            self
        }
    }

    /// The temporary file took the name, and reads see it.
    fn put(self, alloc: Global) -> Result<States, NoMemory>
        ensures { (disk : Disk) (name : Name) → AreShown name disk self →
            IfOk result (AreShown name (renamed_so true disk name)) }
    {
        let States { here, temporary } = self;
        let here = here.put(temporary.first, temporary.is_doubted)?;
        Ok(States {
            here,
            temporary: State::absent(alloc),
        })
    }

    /// The same, but reads don't see it.
    fn hidden(self, alloc: Global) -> Result<States, NoMemory>
        ensures { (disk : Disk) (name : Name) → AreShown name disk self →
            IfOk result (AreShown name (renamed_so false disk name)) }
    {
        let States { here, temporary } = self;
        let first = temporary.first.copy(alloc)?;
        let here = here.hidden(first)?;
        Ok(States { here, temporary })
    }

    /// The temporary file took another name, and reads see it.
    fn without_temporary(self, alloc: Global) -> States
        ensures { (disk : Disk) (name other : Name) → other ≢ name → AreShown name disk self →
            AreShown name (renamed_so true disk other) result }
    {
        States {
            here: self.here,
            temporary: State::absent(alloc),
        }
    }

    fn changed(
        self,
        alloc: Global,
        name: Name,
        entry: Entry,
        change: Change,
        bytes: &[u8],
    ) -> Result<States, NoMemory>
        ensures { (disk : Disk) → AreShown name disk self →
            IfOk result (AreShown name (changed (change_at change bytes.now) disk entry)) }
    {
        match entry {
            Entry::Temporary => self.temporary_changed(alloc, change, bytes),
            Entry::File(other) => self.file_changed(alloc, name, other, change, bytes),
        }
    }

    fn temporary_changed(
        self,
        alloc: Global,
        change: Change,
        bytes: &[u8],
    ) -> Result<States, NoMemory>
        ensures { (disk : Disk) (name : Name) → AreShown name disk self → IfOk result
            (AreShown name (changed (change_at change bytes.now) disk entry.Temporary)) }
    {
        let States { here, temporary } = self;
        let temporary = temporary.changed(alloc, change, bytes)?;
        Ok(States { here, temporary })
    }

    fn file_changed(
        self,
        alloc: Global,
        name: Name,
        other: Name,
        change: Change,
        bytes: &[u8],
    ) -> Result<States, NoMemory>
        ensures { (disk : Disk) → AreShown name disk self → IfOk result
            (AreShown name (changed (change_at change bytes.now) disk (entry.File other))) }
    {
        if same_name(other, name) {
            self.here_changed(alloc, change, bytes)
        } else {
            Ok(self)
        }
    }

    fn here_changed(self, alloc: Global, change: Change, bytes: &[u8]) -> Result<States, NoMemory>
        ensures { (disk : Disk) (name : Name) → AreShown name disk self → IfOk result
            (AreShown name (changed (change_at change bytes.now) disk (entry.File name))) }
    {
        let States { here, temporary } = self;
        let here = here.changed(alloc, change, bytes)?;
        Ok(States { here, temporary })
    }
}

/// Whether two names are one.
pub fn same_name(a: Name, b: Name) -> bool
    ensures { result ≡ same_name a b }
{
    a == b
}
