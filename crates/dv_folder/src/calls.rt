ghost use Rattle.std.specs.Prelude.{◌≡◌, ◌++◌, OnOk, string_bytes};
ghost use Rattle.dv_folder.specs.Ways.{open_path, part_of, way_of};

use crate::kinds::{Kind, is_same, kind_of, named};
use crate::names::{Layout, name_of, push_name};
use dv_model::{Bytes, List};
use dv_shelf::{Failed, Name, ShelfFault, is_of_mailbox};
use dv_system::{Access, Entry, System};
use itoa::Buffer;
use std::alloc::{AllocError, Global};
use std::cell::Cell;
use std::fs::{self, DirBuilder, File, OpenOptions, TryLockError};
use std::io::{self, ErrorKind, Read};
use std::os::fd::AsRawFd;
use std::os::unix::fs::{DirBuilderExt, FileExt, OpenOptionsExt};

/// The most bytes that the name of a file has.
const LONGEST_NAME: usize = 23;

/// The most bytes of an open folder's path in the process file system.
const LONGEST_WAY: usize = 25;

/// The file that is written before it takes a name. No other call uses it.
const TEMPORARY: &str = "dovecot.tmp";

/// What is kept free behind a file's bytes, so that the read that meets its end has room.
const ROOM_BEHIND: usize = 64;

/// Reasons for which the system has no words.
const IN_USE: &str = "another process has the folder";

const NO_FILE: &str = "what stands there is no regular file of at most 4294967295 bytes";

const NO_FOLDER: &str = "what stands there is no folder";

const OTHER_LAYOUT: &str = "files of a folder of the other kind stand there";

const SWAPPED: &str = "another file took its place";

const NO_WORDS: &str = "memory ran out, or an earlier sync failed";

/// How many names that are no files are told.
const MOST_TOLD: usize = 100;

/// The folder that the folder stands in, and the one above, as paths from it.
const PARENT: &str = "..";

const GRANDPARENT: &str = "../..";

/// What a call was on.
#[derive(Clone, Copy)]
enum Place {
    Folder,
    /// A folder above it, by a path from it.
    Above(&'static str),
    Entry(Entry),
}

/// An open file, and where it stood.
#[derive(Drop)]
pub(crate) struct Opened {
    entry: Entry,
    file: File,
}

/// What a look at the whole folder found.
#[derive(Drop)]
struct Listing {
    entries: List<Entry>,
    /// A file of a mailbox is one of them.
    has_mailbox: bool,
    /// The names that are no files.
    others: List<Name>,
}

/// The system's calls on a real folder, one each. Nothing is told of what they do.
#[derive(Drop)]
pub(crate) struct Calls {
    rt: HostRuntime,
    layout: Layout,
    /// The path that was given, with a slash at its end.
    root: String,
    /// The path of the folder with the files, with a slash at its end.
    folder: String,
    /// The number by which the process file system has the open folder.
    entered: Option<u32>,
    /// Room for the path of a file, so that no call but a read or a look at the whole folder takes
    /// memory.
    path: String,
    temporary: String,
    /// The folder was missing, and was made by this value.
    is_made: bool,
    /// So was a storage's folder in it.
    is_part_made: bool,
    /// The folder, open and locked.
    lock: Option<File>,
    /// The names that are no files were told.
    has_told: bool,
    /// Why a call failed since the last line was told, and on what.
    reason: Cell<Option<io::Error>>,
    noted: String,
}

impl Calls {
    ghost use Rattle.std.specs.Prelude.{IfOk};
    ghost use Rattle.dv_folder.specs.Names.{file_name};
    ghost use Rattle.dv_folder.specs.Ways.{folder_path};

    /// The calls on the folder at a path. This call touches nothing of the disk.
    pub(crate) fn new(
        alloc: Global,
        rt: HostRuntime,
        path: &str,
        layout: Layout,
    ) -> Result<Calls, AllocError>
        ensures path { IfOk result (λ calls. string_bytes calls.folder
            ≡ folder_path layout path.now) }
        ensures layout { IfOk result (λ calls. calls.layout ≡ layout) }
    {
        let mut root = String::from_str(alloc, if path.is_empty() { "." } else { path })?;
        root.push_str("/")?;
        let mut folder = root.clone()?;
        folder.push_str(part(layout))?;
        let room = folder.len().max(LONGEST_WAY).saturating_add(LONGEST_NAME);
        let path = String::with_capacity(alloc, room)?;
        let mut temporary = String::with_capacity(alloc, room)?;
        temporary.push_str(folder.as_str())?;
        temporary.push_str(TEMPORARY)?;
        let noted = String::with_capacity(alloc, LONGEST_NAME)?;
        Ok(Calls {
            rt,
            layout,
            root,
            folder,
            entered: None,
            path,
            temporary,
            is_made: false,
            is_part_made: false,
            lock: None,
            has_told: false,
            reason: Cell::new(None),
            noted,
        })
    }

    /// Tells why the failure of this number came, on standard error.
    pub(crate) fn tell(&self, number: u64) {
        let noted = self.noted.as_str();
        let folder = self.folder.as_str();
        // Of the folder itself nothing is noted, and of one above it the way there.
        let is_folder = noted.is_empty() || noted.starts_with(PARENT);
        let front = if is_folder { folder } else { "" };
        let _ = match self.reason.take() {
            Some(error) => eprintln!(self.rt; "failure {number}: {front}{noted}: {error}"),
            None => eprintln!(self.rt; "failure {number}: {folder}: {NO_WORDS}"),
        };
    }

    /// Forgets why a call failed that counts as no failure.
    pub(crate) fn forget(&self) {
        self.reason.set(None);
    }

    /// Notes why a call failed. What fails behind it has no line of its own.
    fn note(&mut self, place: Place, error: io::Error)
        ensures lock { self.new.lock ≡ self.old.lock }
    {
        match self.reason.take() {
            Some(first) => self.reason.set(Some(first)),
            None => {
                // The room for it was taken before.
                let _ = self.set_noted(place);
                self.reason.set(Some(error));
            }
        }
    }

    fn set_noted(&mut self, place: Place) -> Result<(), AllocError>
        ensures lock { self.new.lock ≡ self.old.lock }
    {
        self.noted.clear();
        match place {
            Place::Folder => Ok(()),
            Place::Above(way) => self.noted.push_str(way),
            Place::Entry(Entry::Temporary) => self.noted.push_str(TEMPORARY),
            Place::Entry(Entry::File(name)) => push_name(&mut self.noted, self.layout, name),
        }
    }

    fn answer<T>(&mut self, place: Place, done: io::Result<T>) -> Result<T, Failed>
        ensures lock { self.new.lock ≡ self.old.lock }
    {
        match done {
            Ok(value) => Ok(value),
            Err(e) => {
                self.note(place, e);
                Err(Failed)
            }
        }
    }

    fn look<T>(&mut self, place: Place, done: io::Result<T>) -> Result<T, ShelfFault>
        ensures lock { self.new.lock ≡ self.old.lock }
    {
        match done {
            Ok(value) => Ok(value),
            Err(e) => {
                let is_memory = e.kind() == ErrorKind::OutOfMemory;
                self.note(place, e);
                Err(if is_memory {
                    ShelfFault::NoMemory
                } else {
                    ShelfFault::Failed
                })
            }
        }
    }

    /// A name of the folder is no file, and no other name is one.
    fn fail_at<T>(&mut self, name: Name) -> Result<T, ShelfFault>
        ensures lock { self.new.lock ≡ self.old.lock }
    {
        self.note(Place::Entry(Entry::File(name)), io::Error::other(NO_FILE));
        Err(ShelfFault::Failed)
    }

    /// Sets the path of the folder with the files, behind which a name comes.
    fn set_way(&mut self) -> Result<(), AllocError>
        ensures path { OnOk result (string_bytes self.new.path
            ≡ way_of (string_bytes self.old.folder) self.old.entered) }
        ensures layout { self.new.layout ≡ self.old.layout }
        ensures lock { self.new.lock ≡ self.old.lock }
    {
        self.path.clear();
        match self.entered {
            Some(number) => push_open_path(&mut self.path, number),
            None => self.path.push_str(self.folder.as_str()),
        }
    }

    /// Sets the path of the file of this name.
    fn set_path(&mut self, name: Name) -> Result<(), AllocError>
        ensures path { OnOk result (string_bytes self.new.path
            ≡ way_of (string_bytes self.old.folder) self.old.entered
            ++ file_name self.old.layout name) }
        ensures lock { self.new.lock ≡ self.old.lock }
    {
        self.set_way()?;
        push_name(&mut self.path, self.layout, name)
    }

    /// Sets the path of a file, or of the temporary one.
    fn set_entry(&mut self, entry: Entry) -> Result<(), AllocError>
        ensures lock { self.new.lock ≡ self.old.lock }
    {
        match entry {
            Entry::File(name) => self.set_path(name),
            Entry::Temporary => {
                self.path.clear();
                self.path.push_str(self.temporary.as_str())
            }
        }
    }

    /// Looks at a name. No link is followed.
    fn kind_at(&mut self, entry: Entry) -> io::Result<Kind>
        ensures lock { self.new.lock ≡ self.old.lock }
    {
        self.set_entry(entry)?;
        kind_of(fs::symlink_metadata(&self.rt, self.path.as_str()))
    }

    /// Opens what a look says to be a file, and sees that it is the same.
    fn open_file(&mut self, entry: Entry, access: Access) -> io::Result<Option<Opened>>
        ensures lock { self.new.lock ≡ self.old.lock }
    {
        let Kind::File(found) = self.kind_at(entry)? else {
            return Ok(None);
        };
        let mut options = OpenOptions::new();
        options.read(true).write(access == Access::Write);
        let file = options.open(&self.rt, self.path.as_str())?;
        if is_same(&found, &file.metadata()?) {
            Ok(Some(Opened { entry, file }))
        } else {
            Err(io::Error::other(SWAPPED))
        }
    }

    /// Makes a file where nothing stands.
    fn create_file(&mut self, entry: Entry) -> io::Result<Opened>
        ensures lock { self.new.lock ≡ self.old.lock }
    {
        self.set_entry(entry)?;
        let mut options = OpenOptions::new();
        options.read(true).write(true).create_new(true).mode(0o600);
        match options.open(&self.rt, self.path.as_str()) {
            Ok(file) => Ok(Opened { entry, file }),
            Err(e) if e.kind() == ErrorKind::AlreadyExists => Err(io::Error::other(NO_FILE)),
            Err(e) => Err(e),
        }
    }

    fn rename_to(&mut self, name: Name) -> io::Result<()>
        ensures lock { self.new.lock ≡ self.old.lock }
    {
        self.set_path(name)?;
        fs::rename(&self.rt, self.temporary.as_str(), self.path.as_str())
    }

    fn unlink_file(&mut self, entry: Entry) -> io::Result<bool>
        ensures lock { self.new.lock ≡ self.old.lock }
    {
        let is_there = match self.kind_at(entry)? {
            Kind::Missing => false,
            Kind::File(_) => true,
            Kind::Other => entry == Entry::Temporary,
        };
        if is_there {
            fs::remove_file(&self.rt, self.path.as_str())?;
        }
        Ok(is_there)
    }

    /// Whether a file has this name. One that is no file is kept in mind.
    fn has_file(&mut self, name: Name, other: &mut Option<Name>) -> Result<bool, ShelfFault>
        ensures lock { self.new.lock ≡ self.old.lock }
    {
        let entry = Entry::File(name);
        let kind = self.kind_at(entry);
        match self.look(Place::Entry(entry), kind)? {
            Kind::Missing => Ok(false),
            Kind::File(_) => Ok(true),
            Kind::Other => {
                *other = Some(name);
                Ok(false)
            }
        }
    }

    /// The entries, up to the first message file where no more is asked for.
    fn listing(&mut self, alloc: Global, is_whole: bool) -> io::Result<Listing>
        ensures lock { self.new.lock ≡ self.old.lock }
    {
        self.set_way()?;
        self.entries(alloc, is_whole)
    }

    /// The same of the folder whose path is set.
    fn entries(&self, alloc: Global, is_whole: bool) -> io::Result<Listing> {
        let mut listing = Listing {
            entries: List::new(alloc),
            has_mailbox: false,
            others: List::new(alloc),
        };
        for entry in fs::read_dir(&self.rt, self.path.as_str())? {
            if let Some(entry) = named(entry)? {
                if let Some(found) = entry_of(self.layout, entry.file_name()) {
                    listing.add(found, kind_of(entry.metadata())?)?;
                }
            }
            if !is_whole && listing.has_mailbox {
                return Ok(listing);
            }
        }
        Ok(listing)
    }

    /// A folder with names of the other layout isn't entered.
    fn refuse_other(&mut self) -> io::Result<()>
        ensures lock { self.new.lock ≡ self.old.lock }
    {
        let other = match self.layout {
            Layout::Mailbox => Layout::Storage,
            Layout::Storage => Layout::Mailbox,
        };
        self.set_part(other)?;
        if has_names(self.rt, self.path.as_str(), other)? {
            return Err(io::Error::other(OTHER_LAYOUT));
        }
        Ok(())
    }

    /// Sets the path of the folder with the files of a layout. That of a storage's has no slash at
    /// its end, so that a look at it follows no link.
    fn set_part(&mut self, layout: Layout) -> Result<(), AllocError>
        ensures lock { self.new.lock ≡ self.old.lock }
    {
        self.path.clear();
        self.path.push_str(self.root.as_str())?;
        self.path.push_str(part_name(layout))
    }

    fn make_folders(&mut self) -> io::Result<()>
        ensures lock { self.new.lock ≡ self.old.lock }
    {
        self.refuse_other()?;
        let is_made = make_directory(self.rt, self.root.as_str())?;
        self.is_made = self.is_made || is_made;
        if self.layout == Layout::Storage {
            let is_made = make_directory(self.rt, self.folder.as_str())?;
            self.is_part_made = self.is_part_made || is_made;
        }
        self.find_part()
    }

    fn look_for_folder(&mut self) -> io::Result<()>
        ensures lock { self.new.lock ≡ self.old.lock }
    {
        self.refuse_other()?;
        self.find_part()
    }

    /// The folder with the files is there: the folder itself may be a link, and a storage's in it
    /// is none.
    fn find_part(&mut self) -> io::Result<()>
        ensures lock { self.new.lock ≡ self.old.lock }
    {
        let layout = self.layout;
        self.set_part(layout)?;
        let found = fs::symlink_metadata(&self.rt, self.path.as_str())?;
        if found.is_dir() {
            Ok(())
        } else {
            Err(io::Error::other(NO_FOLDER))
        }
    }

    /// Syncs a folder above, by its path from this one. One that may not be opened is passed over
    /// where what stands in it was there before.
    fn sync_above(&mut self, above: &'static str, is_made: bool) -> Result<(), Failed>
        ensures lock { self.new.lock ≡ self.old.lock }
    {
        let done = match self.open_above(above) {
            Ok(folder) => folder.sync_all(),
            Err(e) if !is_made && e.kind() == ErrorKind::PermissionDenied => Ok(()),
            Err(e) => Err(e),
        };
        self.answer(Place::Above(above), done)
    }

    fn open_above(&mut self, above: &str) -> io::Result<File>
        ensures lock { self.new.lock ≡ self.old.lock }
    {
        self.set_way()?;
        self.path.push_str(above)?;
        File::open(&self.rt, self.path.as_str())
    }

    /// Tells the names that are no files, once.
    fn tell_others(&mut self, others: &[Name])
        ensures lock { self.new.lock ≡ self.old.lock }
    {
        if !self.has_told {
            self.has_told = true;
            // The room for a name was taken before.
            let _ = tell_names(self.rt, self.layout, &mut self.path, others);
        }
    }

    fn sync_here(&self) -> io::Result<()> {
        match &self.lock {
            Some(folder) => folder.sync_all(),
            None => sync_directory(self.rt, self.folder.as_str()),
        }
    }

    /// From now on files are reached by the open folder, where the process file system has it: a
    /// folder that comes in its place isn't entered.
    fn go_by(&mut self, folder: &File) -> io::Result<()>
        ensures lock { self.new.lock ≡ self.old.lock }
    {
        let Ok(number) = u32::try_from(folder.as_raw_fd()) else {
            return Ok(());
        };
        self.path.clear();
        push_open_path(&mut self.path, number)?;
        let found = fs::metadata(&self.rt, self.path.as_str())?;
        if is_same(&found, &folder.metadata()?) {
            self.entered = Some(number);
            self.set_temporary()?;
        }
        Ok(())
    }

    fn set_temporary(&mut self) -> Result<(), AllocError>
        ensures lock { self.new.lock ≡ self.old.lock }
    {
        self.set_way()?;
        self.temporary.clear();
        self.temporary.push_str(self.path.as_str())?;
        self.temporary.push_str(TEMPORARY)
    }
}

impl Listing {
    fn add(&mut self, entry: Entry, kind: Kind) -> Result<(), AllocError> {
        match (kind, entry) {
            (Kind::File(_), Entry::File(name)) => {
                self.has_mailbox = self.has_mailbox || is_of_mailbox(name);
                self.entries.push(entry)
            }
            (Kind::File(_), Entry::Temporary) => self.entries.push(entry),
            (Kind::Other, Entry::File(name)) => self.others.push(name),
            (_, _) => Ok(()),
        }
    }

    /// A name that is no file, where there is one.
    fn other(&self) -> Option<Name> {
        self.others.as_slice().first().copied()
    }
}

impl System for Calls {
    ghost use Rattle.std.specs.Prelude.{false, is_some};
    ghost use Rattle.dv_system.specs.Disks.{Firm};
    ghost use Rattle.dv_system.specs.Entries.{absent};

    type File = Opened;

    ghost tells = { ⊥ };

    ghost disk = { λ _. record { place = Firm; named = λ _. absent; temporary = absent } };

    ghost stands = { λ _ _ _. false };

    ghost moment = { λ _. 0 };

    ghost left_since = { λ _ _ _. Unit {0} };

    ghost locked = { λ s. is_some s.lock };

    fn lock(&mut self) -> Result<(), Failed> {
        if self.lock.is_some() {
            return Ok(());
        }
        let done = locked_folder(self.rt, self.folder.as_str());
        let folder = self.answer(Place::Folder, done)?;
        // Without it files are reached by the folder's path.
        let _ = self.go_by(&folder);
        self.lock = Some(folder);
        Ok(())
    }

    fn open(&mut self, entry: Entry, access: Access) -> Result<Option<Opened>, Failed> {
        let done = self.open_file(entry, access);
        self.answer(Place::Entry(entry), done)
    }

    fn create(&mut self, entry: Entry) -> Result<Opened, Failed> {
        let done = self.create_file(entry);
        self.answer(Place::Entry(entry), done)
    }

    fn read(&mut self, alloc: Global, file: Opened) -> Result<Bytes, ShelfFault> {
        let Opened { entry, file } = file;
        let done = read_whole(alloc, file);
        self.look(Place::Entry(entry), done)
    }

    fn write(&mut self, file: &Opened, at: u32, bytes: &[u8]) -> Result<(), Failed> {
        let done = file.file.write_all_at(bytes, u64::from(at));
        self.answer(Place::Entry(file.entry), done)
    }

    fn sync(&mut self, file: &Opened) -> Result<(), Failed> {
        let done = file.file.sync_all();
        self.answer(Place::Entry(file.entry), done)
    }

    fn sync_data(&mut self, file: &Opened) -> Result<(), Failed> {
        let done = file.file.sync_data();
        self.answer(Place::Entry(file.entry), done)
    }

    fn rename(&mut self, name: Name) -> Result<(), Failed> {
        let done = self.rename_to(name);
        self.answer(Place::Entry(Entry::File(name)), done)
    }

    fn unlink(&mut self, entry: Entry) -> Result<bool, Failed> {
        let done = self.unlink_file(entry);
        self.answer(Place::Entry(entry), done)
    }

    fn list(&mut self, alloc: Global) -> Result<List<Entry>, ShelfFault> {
        let done = self.listing(alloc, true);
        let listing = self.look(Place::Folder, done)?;
        match (listing.has_mailbox, listing.other()) {
            (false, Some(name)) => self.fail_at(name),
            (_, _) => {
                self.tell_others(listing.others.as_slice());
                Ok(listing.entries)
            }
        }
    }

    fn has_mailbox(&mut self, alloc: Global) -> Result<bool, ShelfFault> {
        let mut other = None;
        if self.has_file(Name::Index, &mut other)? {
            return Ok(true);
        }
        if self.has_file(Name::Log, &mut other)? {
            return Ok(true);
        }
        if self.has_file(Name::Log2, &mut other)? {
            return Ok(true);
        }
        let done = self.listing(alloc, false);
        let listing = self.look(Place::Folder, done)?;
        if listing.has_mailbox {
            return Ok(true);
        }
        match other.or(listing.other()) {
            Some(name) => self.fail_at(name),
            None => Ok(false),
        }
    }

    fn find_folder(&mut self) -> Result<(), Failed> {
        let done = self.look_for_folder();
        self.answer(Place::Folder, done)
    }

    fn make_folder(&mut self) -> Result<(), Failed> {
        let done = self.make_folders();
        self.answer(Place::Folder, done)
    }

    fn sync_parent(&mut self) -> Result<(), Failed> {
        match self.layout {
            Layout::Mailbox => self.sync_above(PARENT, self.is_made),
            Layout::Storage => {
                self.sync_above(PARENT, self.is_part_made)?;
                self.sync_above(GRANDPARENT, self.is_made)
            }
        }
    }

    fn sync_folder(&mut self) -> Result<(), Failed> {
        let done = self.sync_here();
        self.answer(Place::Folder, done)
    }

    ghost readable = { λ _ never. absurd never };

    ghost counts_now = { λ _ _ _ _ _. tt };

    ghost only_now = { λ _ _ never _. absurd never };
}

/// In which part of the folder the files stand.
fn part(layout: Layout) -> &'static str
    ensures { result.now ≡ part_of layout }
{
    match layout {
        Layout::Mailbox => "",
        Layout::Storage => "storage/",
    }
}

/// The name of that part in the folder; a mailbox's files stand in the folder itself.
fn part_name(layout: Layout) -> &'static str {
    match layout {
        Layout::Mailbox => "",
        Layout::Storage => "storage",
    }
}

/// Adds the path of an open folder in the process file system.
fn push_open_path(text: &mut String, number: u32) -> Result<(), AllocError>
    ensures { OnOk result (string_bytes text.new ≡ string_bytes text.old ++ open_path number) }
{
    text.push_str("/proc/self/fd/")?;
    text.push_str(Buffer::new().format(number))?;
    text.push_str("/")
}

/// The entry of this text, or `None` for another file.
fn entry_of(layout: Layout, text: &str) -> Option<Entry> {
    if text == TEMPORARY {
        return Some(Entry::Temporary);
    }
    Some(Entry::File(name_of(layout, text)?))
}

/// Whether names of this layout stand in a folder, if it is there and is no link.
fn has_names(rt: HostRuntime, path: &str, layout: Layout) -> io::Result<bool> {
    match fs::symlink_metadata(&rt, path) {
        Ok(found) if found.is_dir() => {}
        Ok(_) => return Ok(false),
        Err(e) if e.kind() == ErrorKind::NotFound => return Ok(false),
        Err(e) if e.kind() == ErrorKind::NotADirectory => return Ok(false),
        Err(e) => return Err(e),
    }
    for entry in fs::read_dir(&rt, path)? {
        if let Some(entry) = named(entry)? {
            if name_of(layout, entry.file_name()).is_some() {
                return Ok(true);
            }
        }
    }
    Ok(false)
}

/// Tells names that are no files: the first hundred, and how many more there are.
fn tell_names(
    rt: HostRuntime,
    layout: Layout,
    text: &mut String,
    names: &[Name],
) -> Result<(), AllocError> {
    let (told, more) = names.split_at(MOST_TOLD.min(names.len()));
    for name in told {
        text.clear();
        push_name(text, layout, *name)?;
        let name = text.as_str();
        let _ = eprintln!(rt; "{name}: {NO_FILE}, so it counts as not there");
    }
    let count = more.len();
    if count > 0 {
        let _ = eprintln!(rt; "more names of what is no such file: {count}");
    }
    Ok(())
}

/// Makes a folder where it is missing, and says so. Gives whether it did.
fn make_directory(rt: HostRuntime, path: &str) -> io::Result<bool> {
    match DirBuilder::new().mode(0o700).create(&rt, path) {
        Ok(()) => {
            let _ = eprintln!(rt; "sdbox: the folder {path} is made");
            Ok(true)
        }
        Err(e) if e.kind() == ErrorKind::AlreadyExists => Ok(false),
        Err(e) => Err(e),
    }
}

/// Opens and locks a folder.
fn locked_folder(rt: HostRuntime, path: &str) -> io::Result<File> {
    let folder = File::open(&rt, path)?;
    match folder.try_lock() {
        Ok(()) => Ok(folder),
        Err(TryLockError::WouldBlock) => Err(io::Error::other(IN_USE)),
        Err(TryLockError::Error(e)) => Err(e),
    }
}

/// All bytes of a file. The room for them is taken once, so that they aren't copied while it is
/// read.
fn read_whole(alloc: Global, file: File) -> io::Result<Bytes> {
    let room = (file.metadata()?.len() as usize).saturating_add(ROOM_BEHIND);
    let mut file = file;
    let mut bytes = Vec::new(alloc);
    bytes.reserve_exact(room)?;
    file.read_to_end(&mut bytes)?;
    Ok(List::from_vec(bytes))
}

fn sync_directory(rt: HostRuntime, path: &str) -> io::Result<()> {
    File::open(&rt, path)?.sync_all()
}
