ghost use Rattle.std.specs.Prelude.{◌≡◌, ◌↔◌, ◌+◌, ◌-◌, ◌*◌, ◌^◌, ◌<◌, ◌≤◌, [], ◌∷◌, ◌++◌, length, take, drop, map, sum_by, not, if◌then◌else◌, is_some, IfOk, IsTrue, min, OnOk, Contains, vec_len, vec_capacity};
ghost use Rattle.dv_shelf.specs.Folders.{same_name};
ghost use Rattle.dv_shelf.specs.Disks.{is_done, is_seen, there_then, settles_file};
ghost use Rattle.std.specs.List.{list_any};
ghost use Rattle.dv_shelf.specs.Rooms.{file_room};
ghost use Rattle.dv_shelf.specs.declared.record.Call.{Call};

use crate::Name;
use crate::files::{file_then, has_name, same_name};
use dv_model::{Bytes, List, NoMemory};
use std::alloc::Global;

/// What a writing call does to its file.
#[derive(Clone, Copy)]
pub enum Deed {
    Write { at: u32 },
    Sync,
    Replace,
    Remove,
}

/// What came of a writing call.
#[derive(Clone, Copy, PartialEq, Eq)]
pub enum Outcome {
    /// It answered Ok.
    Done,
    /// It failed. Reads see half the bytes of a write, and nothing of a replace or remove.
    Hidden,
    /// It failed. Reads see half the bytes of a write, and what a replace or remove made.
    Shown,
}

/// A writing call, as the record keeps it.
#[derive(Clone, Copy)]
pub struct Call {
    pub name: Name,
    pub deed: Deed,
    pub outcome: Outcome,
    /// Where its bytes begin among those of the record, and their number.
    pub from: usize,
    pub len: usize,
}

/// The writing calls in their order, kept in room that was taken at the start.
#[derive(Drop)]
pub struct Record {
    calls: Vec<Call>,
    bytes: Vec<u8>,
    left: usize,
    ghost room_for_calls: { 64 * vec_len calls + left ≤ 64 * vec_capacity calls },
    ghost room_for_bytes: { vec_len bytes + left ≤ vec_capacity bytes },
    ghost within: { (call : Call) → Contains calls.items call →
        call.from + call.len ≤ length bytes.items },
}

/// What a call takes of the room beside its bytes.
pub const CALL_ROOM: usize = 64;

impl Record {
    ghost use Rattle.dv_shelf.specs.Records.{made_call, made_calls, room_left};
    ghost use Rattle.dv_shelf.specs.Disks.{file_then, files_after, put_call};
    ghost use Rattle.dv_shelf.specs.Images.{settles};
    ghost use Rattle.dv_shelf.specs.Folders.{Lists, names_then};

    /// An empty record with this room.
    pub fn new(alloc: Global, room: usize) -> Result<Record, NoMemory>
        ensures calls { IfOk result (λ made. made_calls made ≡ []) }
        ensures room { IfOk result (λ made. room_left made ≡ room) }
    {
        Ok(Record {
            calls: Vec::with_capacity(alloc, room / CALL_ROOM + 1)?,
            bytes: Vec::with_capacity(alloc, room)?,
            left: room,
        })
    }

    /// The record that puts these files there, with this room for more.
    pub fn of(alloc: Global, files: &[(Name, Bytes)], room: usize) -> Result<Record, NoMemory>
        ensures calls { IfOk result (λ made. made_calls made ≡ map put_call files.now) }
        ensures room { IfOk result (λ made. room_left made ≡ room) }
    {
        let mut made = Record::new(alloc, files_room(files).saturating_add(room))?;
        for file in files {
            made.add(file.0, Deed::Replace, Outcome::Done, file.1.as_slice());
        }
        Ok(made)
    }

    /// Whether a call with so many bytes fits.
    pub fn fits(&self, len: usize) -> bool
        ensures { IsTrue result ↔ (64 + len ≤ room_left self.now) }
    {
        CALL_ROOM <= self.left && len <= self.left - CALL_ROOM
    }

    /// Adds a call that fits.
    pub fn add(&mut self, name: Name, deed: Deed, outcome: Outcome, bytes: &[u8])
        requires { 64 + length bytes.now ≤ room_left self.old }
        ensures calls { made_calls self.new ≡ made_calls self.old
            ++ record { name = name; deed = deed; outcome = outcome; bytes = bytes.now } ∷ [] }
        ensures room { room_left self.new + 64 + length bytes.now ≡ room_left self.old }
    {
        let from = self.bytes.len();
        let len = bytes.len();
        let call = Call {
            name,
            deed,
            outcome,
            from,
            len,
        };
        self.left -= CALL_ROOM + len;
        let Ok(()) = self.bytes.extend_from_slice(bytes) else {
            unreachable!()
        };
        let Ok(()) = self.calls.push(call) else {
            unreachable!()
        };
    }

    /// The bytes that a call of the record was handed.
    pub fn bytes_of(&self, call: &Call) -> &[u8]
        requires { call.now.from + call.now.len ≤ length self.now.bytes.items }
        ensures { result.now ≡ take call.now.len (drop call.now.from self.now.bytes.items) }
    {
        let (_, rest) = self.bytes.as_slice().split_at(call.from);
        let (bytes, _) = rest.split_at(call.len);
        bytes
    }

    /// The file of this name, as a read gives it after one call more.
    fn file_after(
        &self,
        alloc: Global,
        call: &Call,
        name: Name,
        file: Option<Bytes>,
    ) -> Result<Option<Bytes>, NoMemory>
        requires { call.now.from + call.now.len ≤ length self.now.bytes.items }
        ensures { IfOk result (λ made. made
            ≡ (if same_name call.now.name name then file_then call.now.deed call.now.outcome
            (made_call self.now.bytes.items call.now).bytes file else file)) }
    {
        if same_name(call.name, name) {
            file_then(alloc, call.deed, call.outcome, self.bytes_of(call), file)
        } else {
            Ok(file)
        }
    }

    /// The file of this name, as a read gives it after these calls.
    pub fn file(&self, alloc: Global, name: Name) -> Result<Option<Bytes>, NoMemory>
        ensures { IfOk result (λ file. file ≡ files_after (made_calls self.now) name) }
    {
        self.file_upto(alloc, name, self.calls.len())
    }

    /// The file of this name, as a read gives it after so many of these calls.
    pub fn file_upto(
        &self,
        alloc: Global,
        name: Name,
        count: usize,
    ) -> Result<Option<Bytes>, NoMemory>
        requires { count ≤ length self.now.calls.items }
        ensures { IfOk result (λ file. file ≡ files_after (take count (made_calls self.now)) name) }
    {
        let (calls, _) = self.calls.as_slice().split_at(count);
        let mut file = None;
        for call in calls {
            file = self.file_after(alloc, call, name, file)?;
        }
        Ok(file)
    }

    /// Whether no call from this place on settles the file of this name.
    pub fn is_unsynced(&self, from: usize, name: Name) -> bool
        requires { from ≤ length self.now.calls.items }
        ensures { result ≡ not (list_any (settles name) (drop from (made_calls self.now))) }
    {
        let (_, later) = self.calls.as_slice().split_at(from);
        !any_settles(later, name)
    }

    /// The calls.
    pub fn calls(&self) -> &[Call]
        ensures { result.now ≡ self.now.calls.items }
    {
        self.calls.as_slice()
    }

    /// Whether there is a file of this name after these calls.
    fn has(&self, name: Name) -> bool
        ensures { result ≡ is_some (files_after (made_calls self.now) name) }
    {
        let mut has = false;
        for call in &self.calls {
            has = has_after(*call, name, has);
        }
        has
    }

    /// The names of the files that are there after these calls.
    pub fn names(&self, alloc: Global) -> Result<List<Name>, NoMemory>
        ensures { IfOk result (λ names. Lists (files_after (made_calls self.now)) names) }
    {
        let mut names = List::new(alloc);
        for call in &self.calls {
            self.add_name(&mut names, call.name)?;
        }
        Ok(names)
    }

    /// Adds the name of a file that is there, unless the list has it.
    fn add_name(&self, names: &mut List<Name>, name: Name) -> Result<(), NoMemory>
        ensures { OnOk result (names.new
            ≡ names_then (files_after (made_calls self.now)) names.old name) }
    {
        if self.has(name) && !has_name(names.as_slice(), name) {
            names.push(name)?;
        }
        Ok(())
    }
}

/// The room that calls which put these files there take; it stops at the end of its type.
fn files_room(files: &[(Name, Bytes)]) -> usize
    ensures { result ≡ min (sum_by file_room files.now) usize.MAX }
{
    let mut room: usize = 0;
    for file in files {
        room = room.saturating_add(file.1.as_slice().len().saturating_add(CALL_ROOM));
    }
    room
}

fn has_after(call: Call, name: Name, has: bool) -> bool
    ensures { result
        ≡ (if same_name call.name name then there_then call.deed call.outcome has else has) }
{
    if !same_name(call.name, name) {
        return has;
    }
    match call.deed {
        Deed::Write { .. } => true,
        Deed::Sync => has,
        Deed::Replace => is_seen(call.outcome) || has,
        Deed::Remove => !is_seen(call.outcome) && has,
    }
}

/// Whether reads see what a replace or remove made.
pub fn is_seen(outcome: Outcome) -> bool
    ensures { result ≡ is_seen outcome }
{
    match outcome {
        Outcome::Done => true,
        Outcome::Hidden => false,
        Outcome::Shown => true,
    }
}

/// Whether a call answered Ok.
pub fn is_done(outcome: Outcome) -> bool
    ensures { result ≡ is_done outcome }
{
    match outcome {
        Outcome::Done => true,
        Outcome::Hidden => false,
        Outcome::Shown => false,
    }
}

/// Whether a call leaves the file of this name, as a read gives it, without loose ranges.
fn settles(call: Call, name: Name) -> bool
    ensures { result ≡ settles_file name call.name call.deed call.outcome }
{
    match call.deed {
        Deed::Write { .. } => false,
        Deed::Sync => is_done(call.outcome) && same_name(call.name, name),
        Deed::Replace => is_seen(call.outcome) && same_name(call.name, name),
        Deed::Remove => is_seen(call.outcome) && same_name(call.name, name),
    }
}

fn any_settles(calls: &[Call], name: Name) -> bool
    ensures { result ≡ list_any (λ c. settles_file name c.name c.deed c.outcome) calls.now }
{
    calls.iter().any(|call| settles(*call, name))
}
