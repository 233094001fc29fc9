//! One call on a storage.

ghost use Rattle.std.specs.Prelude.{◌≤◌, ℕ, List};
ghost use Rattle.dv_logfile.specs.Settling.{StaysSettled};
ghost use Rattle.dv_maps.specs.Storages as storages;
ghost use Rattle.dv_chain.specs.Rest.{Owed};
ghost use Rattle.dv_maps.specs.Texts.{Messages};
ghost use Rattle.dv_mdbox.specs.States.{IsAtRest};
ghost use Rattle.dv_mdbox_lines.specs.Playing.{Tried};
ghost use Rattle.dv_mdbox_lines.specs.Scripts as scripts;
ghost use Rattle.dv_mdbox_lines.specs.Views.{said};
ghost use Rattle.dv_mdbox_serving.specs.Calls.{IsCalled, told_of};
ghost use Rattle.dv_mdbox_serving.specs.Following.{Follows};
ghost use Rattle.dv_mdbox_serving.specs.Groups.{LogsCall};
ghost use Rattle.dv_mdbox_serving.specs.Purges.{PurgesSo};

use crate::answering::{counted_answer, purged_answer, read_answer, saved_answer};
use dv_mdbox::Storage;
use dv_mdbox_lines::{Answer, Call};
use dv_model::NoMemory;
use dv_shelf::{Clock, Shelf};

/// Saves a message.
fn save<S: Shelf, C: Clock>(storage: &mut Storage<S, C>, message: &[u8]) -> Result<Answer, NoMemory>
    ensures called { S.sees.tells → (start : storages.Storage) (base : ℕ) (calls : List Tried) →
        Follows S.sees start base calls storage.old →
        IsCalled S.sees start base calls (scripts.Save message.now) (told_of result)
        storage.old storage.new }
    ensures logs { LogsCall (scripts.Save message.now) (told_of result) storage.old storage.new }
    ensures settled { S.sees.tells → StaysSettled S.sees storage.old.shelf storage.new.shelf }
    ensures later { S.sees.fault_count storage.old.shelf ≤ S.sees.fault_count storage.new.shelf }
{
    storage.has_valid_map();
    saved_answer(storage.save(message))
}

/// Adds a reference to an id.
fn copy<S: Shelf, C: Clock>(storage: &mut Storage<S, C>, id: u32) -> Result<Answer, NoMemory>
    ensures called { S.sees.tells → (start : storages.Storage) (base : ℕ) (calls : List Tried) →
        Follows S.sees start base calls storage.old →
        IsCalled S.sees start base calls (scripts.Copy id) (told_of result)
        storage.old storage.new }
    ensures logs { LogsCall (scripts.Copy id) (told_of result) storage.old storage.new }
    ensures settled { S.sees.tells → StaysSettled S.sees storage.old.shelf storage.new.shelf }
    ensures later { S.sees.fault_count storage.old.shelf ≤ S.sees.fault_count storage.new.shelf }
{
    counted_answer(id, storage.copy(id))
}

/// Takes a reference of an id away.
fn drop_one<S: Shelf, C: Clock>(storage: &mut Storage<S, C>, id: u32) -> Result<Answer, NoMemory>
    ensures called { S.sees.tells → (start : storages.Storage) (base : ℕ) (calls : List Tried) →
        Follows S.sees start base calls storage.old →
        IsCalled S.sees start base calls (scripts.Drop id) (told_of result)
        storage.old storage.new }
    ensures logs { LogsCall (scripts.Drop id) (told_of result) storage.old storage.new }
    ensures settled { S.sees.tells → StaysSettled S.sees storage.old.shelf storage.new.shelf }
    ensures later { S.sees.fault_count storage.old.shelf ≤ S.sees.fault_count storage.new.shelf }
{
    counted_answer(id, storage.drop_one(id))
}

/// Reads the message of an id.
fn get<S: Shelf, C: Clock>(storage: &mut Storage<S, C>, id: u32) -> Result<Answer, NoMemory>
    ensures called { S.sees.tells → (start : storages.Storage) (base : ℕ) (calls : List Tried) →
        Follows S.sees start base calls storage.old →
        IsCalled S.sees start base calls (scripts.Get id) (told_of result) storage.old storage.new }
    ensures logs { LogsCall (scripts.Get id) (told_of result) storage.old storage.new }
    ensures settled { S.sees.tells → StaysSettled S.sees storage.old.shelf storage.new.shelf }
    ensures later { S.sees.fault_count storage.old.shelf ≤ S.sees.fault_count storage.new.shelf }
{
    read_answer(storage.get(id))
}

/// Removes the ids that have no reference.
fn purge<S: Shelf, C: Clock>(storage: &mut Storage<S, C>) -> Result<Answer, NoMemory>
    ensures called { S.sees.tells → (start : storages.Storage) (base : ℕ) (calls : List Tried) →
        Follows S.sees start base calls storage.old →
        IsCalled S.sees start base calls scripts.Purge (told_of result) storage.old storage.new }
    // Answered OK, which ids went, and what is left.
    ensures purges { S.sees.tells → (messages : Messages) (debt : Owed) →
        IsAtRest S.sees messages debt storage.old →
        PurgesSo scripts.Purge (told_of result) (S.sees.files storage.old.shelf)
        storage.old.chain.live.mailbox (S.sees.files storage.new.shelf)
        storage.new.chain.live.mailbox }
    ensures logs { LogsCall scripts.Purge (told_of result) storage.old storage.new }
    ensures settled { S.sees.tells → StaysSettled S.sees storage.old.shelf storage.new.shelf }
    ensures later { S.sees.fault_count storage.old.shelf ≤ S.sees.fault_count storage.new.shelf }
{
    storage.has_valid_map();
    purged_answer(storage.purge())
}

/// Makes the call of a line, and gives its answer. `NoMemory` is the only error.
pub fn answer_call<S: Shelf, C: Clock>(
    storage: &mut Storage<S, C>,
    call: Call<'_>,
) -> Result<Answer, NoMemory>
    // It comes behind others by the storage's rules, and what a crash leaves at any moment.
    ensures called { S.sees.tells → (start : storages.Storage) (base : ℕ) (calls : List Tried) →
        Follows S.sees start base calls storage.old →
        IsCalled S.sees start base calls (said call.entry) (told_of result)
        storage.old storage.new }
    // Of a purge that is done, which ids went; it leaves each message file named, and no id without
    // references, but in files that were passed over.
    ensures purges { S.sees.tells → (messages : Messages) (debt : Owed) →
        IsAtRest S.sees messages debt storage.old →
        PurgesSo (said call.entry) (told_of result) (S.sees.files storage.old.shelf)
        storage.old.chain.live.mailbox (S.sees.files storage.new.shelf)
        storage.new.chain.live.mailbox }
    // Its groups are the last entries, and the mark is behind them, over any shelf.
    ensures logs { LogsCall (said call.entry) (told_of result) storage.old storage.new }
    ensures settled { S.sees.tells → StaysSettled S.sees storage.old.shelf storage.new.shelf }
    ensures later { S.sees.fault_count storage.old.shelf ≤ S.sees.fault_count storage.new.shelf }
{
    match call {
        Call::Save(message) => save(storage, message),
        Call::Copy(id) => copy(storage, id),
        Call::Drop(id) => drop_one(storage, id),
        Call::Get(id) => get(storage, id),
        Call::Purge => purge(storage),
    }
}
