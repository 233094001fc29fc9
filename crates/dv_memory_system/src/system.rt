ghost use Rattle.std.specs.Prelude.{◌≡◌, [], Some, None, true, false, length, is_some, IsErr, IfOk, MatchOption, OnOk, OnErr};
ghost use Rattle.dv_memory_system.specs.Steps.{synced_so, unlinked_so};
ghost use Rattle.dv_memory_system.specs.Places.{name_of, place_then, same_entry, unless_at};
ghost use Rattle.std.specs.List.{list_any};
ghost use Rattle.dv_memory_system.specs.Listing.{has_entry, is_mailbox_entry, makes_folder};

use crate::failing::{Trace, Turn, is_behind, is_listed};
use crate::state::States;
use crate::step::{Change, Deed, Step};
use dv_model::{Bytes, List, NoMemory};
use dv_shelf::{Failed, Folder, Name, ShelfFault, is_of_mailbox};
use dv_system::{Access, Entry, System};
use std::alloc::Global;

/// An open file of a system in memory: where it stood after so many calls that did something.
#[derive(Drop)]
pub struct MemFile {
    entry: Entry,
    since: usize,
}

/// A system in memory, by what its calls did.
#[derive(Drop)]
pub struct MemSystem {
    alloc: Global,
    steps: List<Step>,
    fails: List<u32>,
    stop: Option<u32>,
    trace: Trace,
    calls: u64,
    is_locked: bool,
}

impl MemSystem {
    ghost use Rattle.std.specs.Prelude.{List, Option, ℕ};
    ghost use Rattle.dv_shelf.specs.declared.shelf.Name.{Name};
    ghost use Rattle.dv_shelf.specs.Folders.{folder_of};
    ghost use Rattle.dv_shelf.specs.Crashes.{Elapses};
    ghost use Rattle.dv_system.specs.declared.system.Entry.{Entry};
    ghost use Rattle.dv_system.specs.Entries.{read_at, written_at};
    ghost use Rattle.dv_system.specs.Disks.{at_entry, changed, files_of, LeftBy, ListsEntries};
    ghost use Rattle.dv_disk.specs.States.{IsPlaceTrusted, IsTrusted};
    ghost use Rattle.dv_memory_system.specs.Starts.{IsFound};
    ghost use Rattle.dv_memory_system.specs.declared.system.MemFile.{MemFile};
    ghost use Rattle.dv_memory_system.specs.Steps.{new_disk, with_step, IsTried, IsWrittenPart};
    ghost use Rattle.dv_memory_system.specs.Listing.{entry_then};
    ghost use Rattle.dv_memory_system.specs.Systems.{after_call, disk_of, left_of, moment_of, place_of, stands_at, turn_of};

    /// No folder, and no file. The calls that `fails` lists fail, of which the first is number 1,
    /// and leave that trace; those behind the first `stop` fail and leave none. Want of memory is
    /// a failure too that leaves none.
    pub fn new(alloc: Global, fails: List<u32>, stop: Option<u32>, trace: Trace) -> MemSystem
        ensures disk { disk_of result ≡ new_disk }
        ensures trusted { IsTrusted false (Unit {0}) (disk_of result) }
        ensures place { IsPlaceTrusted false (Unit {0}) (disk_of result) }
    {
        MemSystem::untried(alloc, fails, stop, trace)
    }

    fn untried(alloc: Global, fails: List<u32>, stop: Option<u32>, trace: Trace) -> MemSystem
        ensures { result.steps ≡ [] }
    {
        let steps = List::new(alloc);
        MemSystem {
            alloc,
            steps,
            fails,
            stop,
            trace,
            calls: 0,
            is_locked: false,
        }
    }

    /// A durable folder with these files, of which the last counts where a name stands twice, and
    /// with a temporary file that was left over, or none. Its calls are those of `new`. Want of
    /// memory is the only reason of its error.
    pub fn of(
        alloc: Global,
        folder: &Folder,
        temporary: &Option<Bytes>,
        fails: List<u32>,
        stop: Option<u32>,
        trace: Trace,
    ) -> Result<MemSystem, NoMemory>
        ensures files { IfOk result (λ system. files_of (disk_of system) ≡ folder_of folder.now) }
        ensures trusted { IfOk result (λ system. IsTrusted false (Unit {0}) (disk_of system)) }
        ensures place { IfOk result (λ system. IsPlaceTrusted false (Unit {0}) (disk_of system)) }
    {
        let mut system = MemSystem::untried(alloc, fails, stop, trace);
        system.find_files(folder)?;
        system.find_temporary(temporary)?;
        Ok(system)
    }

    /// The folder with these files is there.
    fn find_files(&mut self, folder: &Folder) -> Result<(), NoMemory>
        requires { self.old.steps ≡ [] }
        ensures { OnOk result (IsFound (folder_of folder.now) (disk_of self.new)) }
    {
        self.find(Deed::FoundFolder, &[])?;
        for file in folder.as_slice() {
            let found = Deed::File {
                entry: Entry::File(file.0),
                change: Change::Found,
            };
            self.find(found, file.1.as_slice())?;
        }
        Ok(())
    }

    fn find_temporary(&mut self, file: &Option<Bytes>) -> Result<(), NoMemory>
        ensures { (files : Name → Option (List ℕ)) → IsFound files (disk_of self.old) →
            OnOk result (IsFound files (disk_of self.new)) }
    {
        match file {
            Some(bytes) => self.find_bytes(bytes.as_slice()),
            None => Ok(()),
        }
    }

    fn find_bytes(&mut self, bytes: &[u8]) -> Result<(), NoMemory>
        ensures { (files : Name → Option (List ℕ)) → IsFound files (disk_of self.old) →
            OnOk result (IsFound files (disk_of self.new)) }
    {
        let found = Deed::File {
            entry: Entry::Temporary,
            change: Change::Found,
        };
        self.find(found, bytes)
    }

    /// Adds what was there at the start.
    fn find(&mut self, deed: Deed, bytes: &[u8]) -> Result<(), NoMemory>
        ensures { OnOk result (self.new.steps ≡ with_step self.old.steps deed bytes.now) }
    {
        let bytes = List::from_slice(self.alloc, bytes)?;
        self.steps.push(Step { deed, bytes })?;
        Ok(())
    }

    /// What its calls did.
    pub(crate) fn steps(&self) -> &[Step]
        ensures { result.now ≡ self.now.steps }
    {
        self.steps.as_slice()
    }

    /// How many calls it has had, those that failed among them; it stops at the end of its type.
    pub fn call_count(&self) -> u64
        ensures { result ≡ self.now.calls }
    {
        self.calls
    }

    /// Counts a call, and says what becomes of it.
    fn next_turn(&mut self) -> Turn
        ensures turn { result ≡ turn_of self.old }
        ensures counted { self.new ≡ after_call self.old }
    {
        self.calls = self.calls.saturating_add(1);
        if is_behind(self.stop, self.calls) {
            Turn::Fails(Trace::Nothing)
        } else if is_listed(&self.fails, self.calls) {
            Turn::Fails(self.trace)
        } else {
            Turn::Passes
        }
    }

    /// Adds what a call did.
    fn add(&mut self, deed: Deed, bytes: &[u8]) -> Result<(), Failed>
        ensures ok { OnOk result (self.new.steps ≡ with_step self.old.steps deed bytes.now) }
        ensures err { OnErr result (self.new.steps ≡ self.old.steps) }
        ensures lock { self.new.is_locked ≡ self.old.is_locked }
    {
        let Ok(bytes) = List::from_slice(self.alloc, bytes) else {
            return Err(Failed);
        };
        match self.steps.push(Step { deed, bytes }) {
            Ok(()) => Ok(()),
            Err(_) => Err(Failed),
        }
    }

    /// A call that passes does the first of three deeds, and one that fails one of the others, or
    /// nothing.
    fn call(&mut self, done: Deed, hidden: Deed, shown: Deed, bytes: &[u8]) -> Result<(), Failed>
        ensures ok { OnOk result (self.new.steps ≡ with_step self.old.steps done bytes.now) }
        ensures err { OnErr result
            (IsTried hidden shown bytes.now self.old.steps self.new.steps) }
        ensures lock { self.new.is_locked ≡ self.old.is_locked }
    {
        match self.next_turn() {
            Turn::Passes => self.add(done, bytes),
            Turn::Fails(Trace::Nothing) => Err(Failed),
            Turn::Fails(Trace::Hidden) => {
                let _ = self.add(hidden, bytes);
                Err(Failed)
            }
            Turn::Fails(Trace::Shown) => {
                let _ = self.add(shown, bytes);
                Err(Failed)
            }
        }
    }

    /// A call that changes nothing.
    fn look(&mut self) -> Result<(), Failed>
        ensures steps { self.new.steps ≡ self.old.steps }
        ensures lock { self.new.is_locked ≡ self.old.is_locked }
    {
        if self.next_turn() == Turn::Passes {
            Ok(())
        } else {
            Err(Failed)
        }
    }

    /// A call that can't be done.
    fn refuse(&mut self) -> Result<(), Failed>
        ensures err { IsErr result }
        ensures steps { self.new.steps ≡ self.old.steps }
        ensures lock { self.new.is_locked ≡ self.old.is_locked }
    {
        let _ = self.next_turn();
        Err(Failed)
    }

    /// What reads give at an entry.
    pub fn file(&self, alloc: Global, entry: Entry) -> Result<Option<Bytes>, NoMemory>
        ensures { IfOk result (λ file. file ≡ read_at (at_entry (disk_of self.now) entry)) }
    {
        let steps = self.steps.as_slice();
        let name = match entry {
            Entry::File(name) => name,
            Entry::Temporary => Name::Index,
        };
        let States { here, temporary } = States::after(alloc, steps, name)?;
        let state = if entry == Entry::Temporary {
            temporary
        } else {
            here
        };
        Ok(state.into_read())
    }

    /// Whether a file stands at an entry.
    fn has(&self, alloc: Global, entry: Entry) -> Result<bool, NoMemory>
        ensures { IfOk result (λ has. has ≡ is_some (read_at (at_entry (disk_of self.now) entry))) }
    {
        Ok(self.file(alloc, entry)?.is_some())
    }

    /// Where an open file stands, if it does.
    fn place(&self, file: &MemFile) -> Option<Entry>
        ensures { result ≡ place_of self.now.steps file.now }
    {
        let mut place = Some(file.entry);
        if file.since <= self.steps.len() {
            let (_, later) = self.steps.as_slice().split_at(file.since);
            for step in later {
                place = moved(place, step.deed);
            }
        }
        place
    }

    /// The entries at which files stand.
    fn entries(&self, alloc: Global) -> Result<List<Entry>, NoMemory>
        ensures { IfOk result (λ entries. ListsEntries (disk_of self.now) entries) }
    {
        let mut entries = List::new(alloc);
        for step in self.steps.as_slice() {
            self.add_entry(alloc, &mut entries, Entry::File(name_of(step.deed)))?;
        }
        self.add_entry(alloc, &mut entries, Entry::Temporary)?;
        Ok(entries)
    }

    /// Adds an entry at which a file stands, unless the list has it.
    fn add_entry(
        &self,
        alloc: Global,
        entries: &mut List<Entry>,
        entry: Entry,
    ) -> Result<(), NoMemory>
        ensures { OnOk result (entries.new ≡ entry_then (disk_of self.now) entries.old entry) }
    {
        let has = self.has(alloc, entry)?;
        if has && !has_entry(entries.as_slice(), entry) {
            entries.push(entry)?;
        }
        Ok(())
    }

    /// Whether a file stands at an entry, as a call asks.
    fn found(&self, entry: Entry) -> Result<bool, Failed>
        ensures { IfOk result (λ has. has ≡ is_some (read_at (at_entry (disk_of self.now) entry))) }
    {
        match self.has(self.alloc, entry) {
            Ok(has) => Ok(has),
            Err(_) => Err(Failed),
        }
    }

    fn open_there(&mut self, entry: Entry) -> Result<Option<MemFile>, Failed>
        ensures none { IfOk result (λ file. MatchOption file
            (read_at (at_entry (disk_of self.old) entry) ≡ None)
            (λ f. place_of self.new.steps f ≡ Some entry)) }
        ensures steps { self.new.steps ≡ self.old.steps }
        ensures lock { self.new.is_locked ≡ self.old.is_locked }
    {
        let has = self.found(entry)?;
        self.look()?;
        if has {
            Ok(Some(self.opened(entry)))
        } else {
            Ok(None)
        }
    }

    fn read_open(&mut self, alloc: Global, file: MemFile) -> Result<Bytes, ShelfFault>
        ensures found { (e : Entry) → place_of self.old.steps file ≡ Some e →
            IfOk result (λ bytes. read_at (at_entry (disk_of self.old) e) ≡ Some bytes) }
        ensures steps { self.new.steps ≡ self.old.steps }
        ensures lock { self.new.is_locked ≡ self.old.is_locked }
    {
        let place = self.place(&file);
        if self.look().is_err() {
            return Err(ShelfFault::Failed);
        }
        match place {
            Some(entry) => self.read_there(alloc, entry),
            None => Err(ShelfFault::Failed),
        }
    }

    fn read_there(&self, alloc: Global, entry: Entry) -> Result<Bytes, ShelfFault>
        ensures { IfOk result (λ bytes.
            read_at (at_entry (disk_of self.now) entry) ≡ Some bytes) }
    {
        match self.file(alloc, entry) {
            Ok(Some(bytes)) => Ok(bytes),
            Ok(None) => Err(ShelfFault::Failed),
            Err(_) => Err(ShelfFault::NoMemory),
        }
    }

    fn write_there(&mut self, entry: Entry, at: u32, bytes: &[u8]) -> Result<(), Failed>
        ensures ok { OnOk result (disk_of self.new
            ≡ changed (written_at at (length bytes.now) bytes.now) (disk_of self.old) entry) }
        ensures err { OnErr result (IsWrittenPart at bytes.now entry
            (disk_of self.old) (disk_of self.new)) }
        ensures still { (f : MemFile) (e : Entry) →
            stands_at self.old f e ≡ true → stands_at self.new f e ≡ true }
        ensures time { Elapses (moment_of self.old) (moment_of self.new)
            (left_of self.old) (left_of self.new) (LeftBy (disk_of self.new)) }
        ensures lock { self.new.is_locked ≡ self.old.is_locked }
    {
        let len = bytes.len();
        let half = len / 2;
        let done = Deed::File {
            entry,
            change: Change::Write { at, stuck: len },
        };
        let hidden = Deed::File {
            entry,
            change: Change::Write { at, stuck: 0 },
        };
        let shown = Deed::File {
            entry,
            change: Change::Write { at, stuck: half },
        };
        self.call(done, hidden, shown, bytes)
    }

    fn sync_there(&mut self, entry: Entry) -> Result<(), Failed>
        ensures ok { OnOk result (self.new.steps
            ≡ with_step self.old.steps (synced_so entry true) []) }
        ensures err { OnErr result (IsTried (synced_so entry false) (synced_so entry false) []
            self.old.steps self.new.steps) }
        ensures lock { self.new.is_locked ≡ self.old.is_locked }
    {
        let done = Deed::File {
            entry,
            change: Change::Sync { is_done: true },
        };
        let failed = Deed::File {
            entry,
            change: Change::Sync { is_done: false },
        };
        self.call(done, failed, failed, &[])
    }

    fn rename_there(&mut self, name: Name) -> Result<(), Failed>
        ensures ok { OnOk result (self.new.steps
            ≡ with_step self.old.steps (Deed.Rename name true) []) }
        ensures err { OnErr result (IsTried (Deed.Rename name false) (Deed.Rename name true) []
            self.old.steps self.new.steps) }
        ensures lock { self.new.is_locked ≡ self.old.is_locked }
    {
        let done = Deed::Rename {
            name,
            is_seen: true,
        };
        self.call(
            done,
            Deed::Rename {
                name,
                is_seen: false,
            },
            done,
            &[],
        )
    }

    fn unlink_there(&mut self, entry: Entry) -> Result<bool, Failed>
        ensures ok { IfOk result (λ was. (was ≡ true) × (self.new.steps
            ≡ with_step self.old.steps (unlinked_so entry true) [])) }
        ensures err { OnErr result (IsTried (unlinked_so entry false) (unlinked_so entry true) []
            self.old.steps self.new.steps) }
        ensures lock { self.new.is_locked ≡ self.old.is_locked }
    {
        let done = Deed::File {
            entry,
            change: Change::Unlink { is_seen: true },
        };
        let hidden = Deed::File {
            entry,
            change: Change::Unlink { is_seen: false },
        };
        self.call(done, hidden, done, &[])?;
        Ok(true)
    }

    fn unlink_missing(&mut self) -> Result<bool, Failed>
        ensures ok { IfOk result (λ was. was ≡ false) }
        ensures steps { self.new.steps ≡ self.old.steps }
        ensures lock { self.new.is_locked ≡ self.old.is_locked }
    {
        self.look()?;
        Ok(false)
    }

    fn list_there(&mut self, alloc: Global) -> Result<List<Entry>, ShelfFault>
        ensures found { IfOk result (λ entries. ListsEntries (disk_of self.old) entries) }
        ensures steps { self.new.steps ≡ self.old.steps }
        ensures lock { self.new.is_locked ≡ self.old.is_locked }
    {
        let found = self.entries(alloc);
        if self.look().is_err() {
            return Err(ShelfFault::Failed);
        }
        match found {
            Ok(entries) => Ok(entries),
            Err(_) => Err(ShelfFault::NoMemory),
        }
    }

    /// The file that stands at an entry, open.
    fn opened(&self, entry: Entry) -> MemFile
        ensures { place_of self.now.steps result ≡ Some entry }
    {
        MemFile {
            entry,
            since: self.steps.len(),
        }
    }
}

impl System for MemSystem {
    ghost use Rattle.dv_memory_system.specs.Systems.{disk_of, stands_at, moment_of, left_of};
    ghost use Rattle.dv_memory_system.specs.Laws.{files_readable, left_now, left_last};

    type File = MemFile;

    ghost tells = { Unit {0} };

    ghost disk = { disk_of };

    ghost stands = { stands_at };

    ghost moment = { moment_of };

    ghost left_since = { left_of };

    ghost locked = { λ s. s.is_locked };

    /// No other system has the folder, so it fails where the list of failing calls says so.
    fn lock(&mut self) -> Result<(), Failed> {
        self.look()?;
        self.is_locked = true;
        Ok(())
    }

    fn open(&mut self, entry: Entry, _access: Access) -> Result<Option<MemFile>, Failed> {
        self.open_there(entry)
    }

    fn create(&mut self, entry: Entry) -> Result<MemFile, Failed> {
        let done = Deed::File {
            entry,
            change: Change::Create { is_seen: true },
        };
        let hidden = Deed::File {
            entry,
            change: Change::Create { is_seen: false },
        };
        self.call(done, hidden, done, &[])?;
        Ok(self.opened(entry))
    }

    fn read(&mut self, alloc: Global, file: MemFile) -> Result<Bytes, ShelfFault> {
        self.read_open(alloc, file)
    }

    /// A file that stands nowhere takes the bytes, and no one sees them.
    fn write(&mut self, file: &MemFile, at: u32, bytes: &[u8]) -> Result<(), Failed> {
        if bytes.is_empty() {
            return self.look();
        }
        match self.place(file) {
            Some(entry) => self.write_there(entry, at, bytes),
            None => self.look(),
        }
    }

    fn sync(&mut self, file: &MemFile) -> Result<(), Failed> {
        match self.place(file) {
            Some(entry) => self.sync_there(entry),
            None => self.look(),
        }
    }

    fn sync_data(&mut self, file: &MemFile) -> Result<(), Failed> {
        self.sync(file)
    }

    fn rename(&mut self, name: Name) -> Result<(), Failed> {
        if self.found(Entry::Temporary)? {
            self.rename_there(name)
        } else {
            self.refuse()
        }
    }

    fn unlink(&mut self, entry: Entry) -> Result<bool, Failed> {
        if self.found(entry)? {
            self.unlink_there(entry)
        } else {
            self.unlink_missing()
        }
    }

    fn list(&mut self, alloc: Global) -> Result<List<Entry>, ShelfFault> {
        self.list_there(alloc)
    }

    fn has_mailbox(&mut self, alloc: Global) -> Result<bool, ShelfFault> {
        match self.list_there(alloc) {
            Ok(entries) => Ok(are_of_mailbox(entries.as_slice())),
            Err(fault) => Err(fault),
        }
    }

    fn find_folder(&mut self) -> Result<(), Failed> {
        if has_folder(self.steps()) {
            self.look()
        } else {
            self.refuse()
        }
    }

    fn make_folder(&mut self) -> Result<(), Failed> {
        let made = Deed::MakeFolder;
        self.call(made, made, made, &[])
    }

    fn sync_parent(&mut self) -> Result<(), Failed> {
        let failed = Deed::SyncParent { is_done: false };
        self.call(Deed::SyncParent { is_done: true }, failed, failed, &[])
    }

    fn sync_folder(&mut self) -> Result<(), Failed> {
        let failed = Deed::SyncFolder { is_done: false };
        self.call(Deed::SyncFolder { is_done: true }, failed, failed, &[])
    }

    ghost readable = { λ s told. files_readable s };

    ghost counts_now = { λ s t c le left. left_now s t c le left };

    ghost only_now = { λ s c told left. left_last s c left };
}

/// The name of the file that a call is on, or some name.
pub(crate) fn name_of(deed: Deed) -> Name
    ensures { result ≡ name_of deed }
{
    match deed {
        Deed::Rename { name, .. } => name,
        Deed::File {
            entry: Entry::File(name),
            ..
        } => name,
        _ => Name::Index,
    }
}

/// Where a file stands behind a call.
fn moved(place: Option<Entry>, deed: Deed) -> Option<Entry>
    ensures { result ≡ place_then place (record { deed = deed; bytes = [] }) }
{
    let entry = place?;
    match deed {
        Deed::Rename {
            name,
            is_seen: true,
        } => match entry {
            Entry::File(_) => unless_at(Entry::File(name), entry),
            Entry::Temporary => Some(Entry::File(name)),
        },
        Deed::File {
            entry: other,
            change: Change::Unlink { is_seen: true },
        } => unless_at(other, entry),
        _ => Some(entry),
    }
}

/// An entry, unless it is the other one.
fn unless_at(gone: Entry, entry: Entry) -> Option<Entry>
    ensures { result ≡ unless_at gone entry }
{
    if same_entry(gone, entry) {
        None
    } else {
        Some(entry)
    }
}

/// Whether two entries are one.
fn same_entry(a: Entry, b: Entry) -> bool
    ensures { result ≡ same_entry a b }
{
    a == b
}

/// Whether an entry is among others.
fn has_entry(entries: &[Entry], entry: Entry) -> bool
    ensures { result ≡ has_entry entries.now entry }
{
    entries.iter().any(|e| same_entry(*e, entry))
}

/// Whether one of the entries is a file of a mailbox.
fn are_of_mailbox(entries: &[Entry]) -> bool
    ensures { result ≡ list_any is_mailbox_entry entries.now }
{
    entries.iter().any(|entry| is_mailbox_entry(*entry))
}

fn is_mailbox_entry(entry: Entry) -> bool
    ensures { result ≡ is_mailbox_entry entry }
{
    match entry {
        Entry::File(name) => is_of_mailbox(name),
        Entry::Temporary => false,
    }
}

/// Whether the folder is there behind some calls.
fn has_folder(steps: &[Step]) -> bool
    ensures { result ≡ list_any (λ s. makes_folder s.deed) steps.now }
{
    steps.iter().any(|step| makes_folder(step.deed))
}

fn makes_folder(deed: Deed) -> bool
    ensures { result ≡ makes_folder deed }
{
    matches!(deed, Deed::FoundFolder | Deed::MakeFolder)
}
