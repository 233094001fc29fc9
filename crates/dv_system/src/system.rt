ghost use Rattle.std.specs.Prelude.{◌≡◌, ◌⊎◌, ℕ, ◌+◌, ◌^◌, ◌<◌, ◌≤◌, length, take, Bool, true, false, Some, None, IsSome, IfOk, OnOk, OnErr, MatchOption, MatchBool};
ghost use Rattle.dv_shelf.specs.declared.shelf.Name.{Name};
ghost use Rattle.dv_shelf.specs.Folders.{Folder, IsNew};
ghost use Rattle.dv_shelf.specs.Crashes.{Elapses};
ghost use Rattle.dv_shelf.specs.Disks.{Gone};
ghost use Rattle.dv_system.specs.Entries.{empty_file, read_at, put_at, hidden_at, written_at, synced_at, doubted_at, swept_at, unsure_at};
ghost use Rattle.dv_system.specs.Disks.{Disk, at_entry, changed, changed_names, renamed, with_place, made_place, firm_place, doubted_place, files_of, is_missing, LeftBy, IsReadable, IsOneOf, IsUnchangedOr, ListsEntries, Unlinks};
ghost use Rattle.dv_system.specs.Opens.{StandStill, OthersStand};

use dv_model::{Bytes, List};
use dv_shelf::{Failed, Name, ShelfFault};
use std::alloc::Global;

/// What a file is opened for.
#[derive(Clone, Copy, PartialEq, Eq)]
pub enum Access {
    /// Reads alone, which a file that may not be written allows too.
    Read,
    /// Reads and writes.
    Write,
}

/// An entry of the folder.
#[derive(Clone, Copy, PartialEq, Eq)]
pub enum Entry {
    /// A file of the mailbox.
    File(Name),
    /// The file that is written before it takes a name.
    Temporary,
}

/// The system's calls on one folder and the files in it.
///
/// A file stands at an entry where the system has a regular one there of at most 4294967295 bytes.
/// What else has the name, as a link, a FIFO, a device, a socket, a directory or a longer file, is
/// no file, and is neither followed nor opened nor removed; a file that is made or renamed takes
/// its place, or the call fails.
///
/// An entry that was made, renamed or unlinked is durable only behind a sync of the folder, and
/// bytes only behind a sync of their file. What a sync that failed was to make durable may be lost,
/// though a later sync answers Ok. The pages named are those of POSIX.1-2017 and of the Linux
/// manual.
///
/// Without the folder's lock another process may change its files, so what a call does to them is
/// told of a system that has the lock. Before it is taken, the folder is the one that it finds.
pub trait System {
    ghost use Rattle.dv_system.specs.declared.system.Entry.{Entry};
    /// An open file, which closes when it is dropped.
    type File: Drop;

    /// A system of this type tells what it does. The members below speak of one that does.
    ghost tells: { Type 0 };

    /// The folder: what reads give, and what a crash may leave.
    ghost disk: { Self → Disk };

    /// The open file is the one that stands at this entry.
    ghost stands: { Self → Self.File → Entry → Bool };

    /// This moment: later ones aren't less.
    ghost moment: { Self → ℕ };

    /// What a crash at some moment since that one might have left.
    ghost left_since: { Self → ℕ → Folder → Type 0 };

    /// It has the lock, and keeps it until it is dropped. No call but `lock` says so first.
    ghost locked: { Self → Bool };

    /// Takes the folder's lock, or has it: an exclusive one, which a process keeps while its file
    /// descriptor of the folder is open, so one that was killed leaves none (Linux `flock(2)`:
    /// `LOCK_EX`, and `LOCK_NB`). It fails where another system has it.
    fn lock(&mut self) -> Result<(), Failed>
        ensures taken { OnOk result (locked self.new ≡ true) }
        ensures kept { locked self.old ≡ true → locked self.new ≡ true }
        // Nothing changes.
        ensures disk { tells → disk self.new ≡ disk self.old }
        ensures open { tells → StandStill (stands self.old) (stands self.new) }
        ensures time { tells → Elapses (moment self.old) (moment self.new)
            (left_since self.old) (left_since self.new) (LeftBy (disk self.new)) };

    /// Opens a file, behind a look at it; `None` where there is none (POSIX `lstat()`, and its
    /// error `ENOENT`, and then `open()`: `O_RDONLY` or `O_RDWR`).
    fn open(&mut self, entry: Entry, access: Access) -> Result<Option<Self::File>, Failed>
        // The file that stands there, or none, and nothing changes.
        ensures none { tells → locked self.old ≡ true → IfOk result (λ file. MatchOption file
            (read_at (at_entry (disk self.old) entry) ≡ None)
            (λ f. stands self.new f entry ≡ true)) }
        ensures disk { tells → locked self.old ≡ true → disk self.new ≡ disk self.old }
        ensures open { tells → locked self.old ≡ true →
            StandStill (stands self.old) (stands self.new) }
        ensures lock { locked self.old ≡ true → locked self.new ≡ true }
        ensures time { tells → locked self.old ≡ true →
            Elapses (moment self.old) (moment self.new)
            (left_since self.old) (left_since self.new) (LeftBy (disk self.new)) };

    /// Opens a new empty file; it may fail where one is there (POSIX `open()`: `O_CREAT` and
    /// `O_EXCL`, which follow no link). Its entry is durable only behind a sync of the folder
    /// (Linux `fsync(2)`).
    fn create(&mut self, entry: Entry) -> Result<Self::File, Failed>
        // An empty file stands there. After a failure it may, or not.
        ensures ok { tells → locked self.old ≡ true →
            OnOk result (disk self.new
            ≡ changed (put_at empty_file false) (disk self.old) entry) }
        ensures err { tells → locked self.old ≡ true → OnErr result (IsOneOf (disk self.old)
            (changed (put_at empty_file false) (disk self.old) entry)
            (changed (hidden_at empty_file) (disk self.old) entry) (disk self.new)) }
        ensures stands { tells → locked self.old ≡ true →
            IfOk result (λ f. stands self.new f entry ≡ true) }
        ensures open { tells → locked self.old ≡ true →
            StandStill (stands self.old) (stands self.new) }
        ensures lock { locked self.old ≡ true → locked self.new ≡ true }
        ensures time { tells → locked self.old ≡ true →
            Elapses (moment self.old) (moment self.new)
            (left_since self.old) (left_since self.new) (LeftBy (disk self.new)) };

    /// All bytes of a file, which is closed then (POSIX `read()`, again and again up to the end of
    /// the file).
    fn read(&mut self, alloc: Global, file: Self::File) -> Result<Bytes, ShelfFault>
        ensures found { tells → locked self.old ≡ true →
            (e : Entry) → stands self.old file e ≡ true →
            IfOk result (λ bytes. read_at (at_entry (disk self.old) e) ≡ Some bytes) }
        ensures disk { tells → locked self.old ≡ true → disk self.new ≡ disk self.old }
        ensures open { tells → locked self.old ≡ true →
            StandStill (stands self.old) (stands self.new) }
        ensures lock { locked self.old ≡ true → locked self.new ≡ true }
        ensures time { tells → locked self.old ≡ true →
            Elapses (moment self.old) (moment self.new)
            (left_since self.old) (left_since self.new) (LeftBy (disk self.new)) };

    /// Writes all of the bytes over a file from a place on (POSIX `pwrite()`, again and again). A
    /// gap is filled with zero bytes. After a failure reads see some of the bytes from the front
    /// (POSIX `write()`: what was written before), or nothing changed. A crash may leave any of
    /// the range and any bytes there until a sync of the file. A write of no bytes changes nothing,
    /// behind the end of the file either (POSIX `write()`: where `nbyte` is zero it has no other
    /// results).
    fn write(&mut self, file: &Self::File, at: u32, bytes: &[u8]) -> Result<(), Failed>
        ensures empty { tells → locked self.old ≡ true → length bytes.now ≡ 0 →
            disk self.new ≡ disk self.old }
        ensures ok { tells → locked self.old ≡ true → 1 ≤ length bytes.now →
            (e : Entry) → stands self.old file.now e ≡ true → OnOk result (disk self.new
            ≡ changed (written_at at (length bytes.now) bytes.now) (disk self.old) e) }
        ensures err { tells → locked self.old ≡ true →
            (e : Entry) → stands self.old file.now e ≡ true → OnErr result
            ((disk self.new ≡ disk self.old) ⊎ ((k : ℕ) × (k ≤ length bytes.now)
            × (disk self.new ≡ changed (written_at at (length bytes.now) (take k bytes.now))
            (disk self.old) e))) }
        ensures open { tells → locked self.old ≡ true →
            StandStill (stands self.old) (stands self.new) }
        ensures lock { locked self.old ≡ true → locked self.new ≡ true }
        ensures time { tells → locked self.old ≡ true →
            Elapses (moment self.old) (moment self.new)
            (left_since self.old) (left_since self.new) (LeftBy (disk self.new)) };

    /// Makes the bytes of a file durable, and not its entry (POSIX `fsync()`, Linux `fsync(2)`).
    /// After a failure nothing is guaranteed of what was written before, by later calls either.
    fn sync(&mut self, file: &Self::File) -> Result<(), Failed>
        ensures ok { tells → locked self.old ≡ true →
            (e : Entry) → stands self.old file.now e ≡ true →
            OnOk result (disk self.new ≡ changed synced_at (disk self.old) e) }
        ensures err { tells → locked self.old ≡ true →
            (e : Entry) → stands self.old file.now e ≡ true →
            OnErr result (IsUnchangedOr (disk self.old) (changed doubted_at (disk self.old) e)
            (disk self.new)) }
        ensures open { tells → locked self.old ≡ true →
            StandStill (stands self.old) (stands self.new) }
        ensures lock { locked self.old ≡ true → locked self.new ≡ true }
        ensures time { tells → locked self.old ≡ true →
            Elapses (moment self.old) (moment self.new)
            (left_since self.old) (left_since self.new) (LeftBy (disk self.new)) };

    /// Makes the bytes of a file durable, with its size where that changed, but not its times. Of
    /// bytes it says what `sync` says (POSIX `fdatasync()`; Linux `fdatasync(2)`: it does not flush
    /// modified metadata unless that is needed to allow a subsequent data retrieval to be correctly
    /// handled).
    fn sync_data(&mut self, file: &Self::File) -> Result<(), Failed>
        ensures ok { tells → locked self.old ≡ true →
            (e : Entry) → stands self.old file.now e ≡ true →
            OnOk result (disk self.new ≡ changed synced_at (disk self.old) e) }
        ensures err { tells → locked self.old ≡ true →
            (e : Entry) → stands self.old file.now e ≡ true →
            OnErr result (IsUnchangedOr (disk self.old) (changed doubted_at (disk self.old) e)
            (disk self.new)) }
        ensures open { tells → locked self.old ≡ true →
            StandStill (stands self.old) (stands self.new) }
        ensures lock { locked self.old ≡ true → locked self.new ≡ true }
        ensures time { tells → locked self.old ≡ true →
            Elapses (moment self.old) (moment self.new)
            (left_since self.old) (left_since self.new) (LeftBy (disk self.new)) };

    /// Gives the temporary file a name, in place of what stood there, at once (POSIX `rename()`).
    /// It is durable only behind a sync of the folder.
    fn rename(&mut self, name: Name) -> Result<(), Failed>
        ensures ok { tells → locked self.old ≡ true →
            OnOk result (disk self.new ≡ renamed (disk self.old) name) }
        ensures err { tells → locked self.old ≡ true →
            OnErr result (IsOneOf (disk self.old) (renamed (disk self.old) name)
            (changed (hidden_at (at_entry (disk self.old) Entry.Temporary).first)
            (disk self.old) (Entry.File name)) (disk self.new)) }
        // A file that was open at the name stands nowhere any more.
        ensures open { tells → locked self.old ≡ true →
            OthersStand (Entry.File name) Entry.Temporary (stands self.old) (stands self.new) }
        ensures lock { locked self.old ≡ true → locked self.new ≡ true }
        ensures time { tells → locked self.old ≡ true →
            Elapses (moment self.old) (moment self.new)
            (left_since self.old) (left_since self.new) (LeftBy (disk self.new)) };

    /// Removes a file, and says whether it was there (POSIX `unlink()`, and its error `ENOENT`).
    /// It is durable only behind a sync of the folder. At the temporary entry what is no file is
    /// removed too.
    fn unlink(&mut self, entry: Entry) -> Result<bool, Failed>
        ensures ok { tells → locked self.old ≡ true →
            IfOk result (λ was. Unlinks was entry (disk self.old) (disk self.new)) }
        ensures err { tells → locked self.old ≡ true → OnErr result (IsOneOf (disk self.old)
            (changed (put_at Gone false) (disk self.old) entry)
            (changed (hidden_at Gone) (disk self.old) entry) (disk self.new)) }
        // A file that was open there stands nowhere any more.
        ensures open { tells → locked self.old ≡ true →
            OthersStand entry Entry.Temporary (stands self.old) (stands self.new) }
        ensures lock { locked self.old ≡ true → locked self.new ≡ true }
        ensures time { tells → locked self.old ≡ true →
            Elapses (moment self.old) (moment self.new)
            (left_since self.old) (left_since self.new) (LeftBy (disk self.new)) };

    /// The entries at which files stand, once each, in any order; of a missing folder none (POSIX
    /// `readdir()`, and the error `ENOENT` of `opendir()`).
    fn list(&mut self, alloc: Global) -> Result<List<Entry>, ShelfFault>
        ensures found { tells → locked self.old ≡ true →
            IfOk result (λ entries. ListsEntries (disk self.old) entries) }
        ensures disk { tells → locked self.old ≡ true → disk self.new ≡ disk self.old }
        ensures open { tells → locked self.old ≡ true →
            StandStill (stands self.old) (stands self.new) }
        ensures lock { locked self.old ≡ true → locked self.new ≡ true }
        ensures time { tells → locked self.old ≡ true →
            Elapses (moment self.old) (moment self.new)
            (left_since self.old) (left_since self.new) (LeftBy (disk self.new)) };

    /// Whether a file of a mailbox is there, without a list of all: one look at each of three
    /// names, and where none is there `readdir()` up to the first message file (POSIX `lstat()`,
    /// `readdir()`).
    fn has_mailbox(&mut self, alloc: Global) -> Result<bool, ShelfFault>
        ensures found { tells → locked self.old ≡ true → IfOk result (λ has. MatchBool has
            (IsNew (files_of (disk self.old)) → ⊥) (IsNew (files_of (disk self.old)))) }
        ensures disk { tells → locked self.old ≡ true → disk self.new ≡ disk self.old }
        ensures open { tells → locked self.old ≡ true →
            StandStill (stands self.old) (stands self.new) }
        ensures lock { locked self.old ≡ true → locked self.new ≡ true }
        ensures time { tells → locked self.old ≡ true →
            Elapses (moment self.old) (moment self.new)
            (left_since self.old) (left_since self.new) (LeftBy (disk self.new)) };

    /// Finds the folder, and fails where it is missing (POSIX `lstat()`, and its error `ENOENT`).
    fn find_folder(&mut self) -> Result<(), Failed>
        ensures there { tells → OnOk result (is_missing (disk self.old).place ≡ false) }
        // Nothing is made.
        ensures disk { tells → disk self.new ≡ disk self.old }
        ensures open { tells → StandStill (stands self.old) (stands self.new) }
        ensures lock { locked self.old ≡ true → locked self.new ≡ true }
        ensures time { tells → Elapses (moment self.old) (moment self.new)
            (left_since self.old) (left_since self.new) (LeftBy (disk self.new)) };

    /// Makes the folder, unless it is there (POSIX `mkdir()`, and its error `EEXIST`).
    fn make_folder(&mut self) -> Result<(), Failed>
        ensures ok { tells → OnOk result (disk self.new ≡ with_place made_place (disk self.old)) }
        ensures err { tells → OnErr result (IsOneOf (disk self.old)
            (with_place made_place (disk self.old)) (with_place made_place (disk self.old))
            (disk self.new)) }
        ensures open { tells → StandStill (stands self.old) (stands self.new) }
        ensures lock { locked self.old ≡ true → locked self.new ≡ true }
        ensures time { tells → Elapses (moment self.old) (moment self.new)
            (left_since self.old) (left_since self.new) (LeftBy (disk self.new)) };

    /// Makes the folder itself durable, by a sync of its parent (Linux `fsync(2)`). A folder that
    /// this value found is taken to be durable where its parent may not be read.
    fn sync_parent(&mut self) -> Result<(), Failed>
        ensures ok { tells → OnOk result (disk self.new ≡ with_place firm_place (disk self.old)) }
        ensures err { tells → OnErr result (IsUnchangedOr (disk self.old)
            (with_place doubted_place (disk self.old)) (disk self.new)) }
        ensures open { tells → StandStill (stands self.old) (stands self.new) }
        ensures lock { locked self.old ≡ true → locked self.new ≡ true }
        ensures time { tells → Elapses (moment self.old) (moment self.new)
            (left_since self.old) (left_since self.new) (LeftBy (disk self.new)) };

    /// Makes the entries of the folder durable (Linux `fsync(2)`: for them an `fsync()` of the
    /// directory is needed).
    fn sync_folder(&mut self) -> Result<(), Failed>
        ensures ok { tells → locked self.old ≡ true →
            OnOk result (disk self.new ≡ changed_names swept_at (disk self.old)) }
        ensures err { tells → locked self.old ≡ true →
            OnErr result (IsUnchangedOr (disk self.old)
            (changed_names unsure_at (disk self.old)) (disk self.new)) }
        ensures open { tells → locked self.old ≡ true →
            StandStill (stands self.old) (stands self.new) }
        ensures lock { locked self.old ≡ true → locked self.new ≡ true }
        ensures time { tells → locked self.old ≡ true →
            Elapses (moment self.old) (moment self.new)
            (left_since self.old) (left_since self.new) (LeftBy (disk self.new)) };

    /// A crash may leave each file as reads give it.
    ghost readable: { (s : Self) → tells → IsReadable (disk s) };

    /// This moment is one of those since an earlier one.
    ghost counts_now: { (s : Self) (t : ℕ) (c : Folder) →
        t ≤ moment s → LeftBy (disk s) c → left_since s t c };

    /// Since this moment there is no other.
    ghost only_now: { (s : Self) (c : Folder) → tells →
        left_since s (moment s) c → LeftBy (disk s) c };
}
