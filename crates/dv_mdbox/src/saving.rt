//! Messages are saved.

ghost use Rattle.std.specs.Prelude.{◌≡◌, ◌<◌, ◌≤◌, ◌+◌, ◌-◌, ◌^◌, IfErr, IfOk, List, MatchBool, MatchOption, Some, is_some, length, ℕ, ⊤};
ghost use Rattle.dv_model.specs.Journals.{Held, IsU32};
ghost use Rattle.dv_model.specs.Sessions.{end_of_uids, message_limit};
ghost use Rattle.dv_logfile.specs.Settling.{StaysSettled};
ghost use Rattle.dv_chain.specs.Rest.{Owed};
ghost use Rattle.dv_dbox.specs.Mails.{mail_in};
ghost use Rattle.dv_plans.specs.Begins.{turns};
ghost use Rattle.dv_maps.specs.Groups.{save_records as records_of};
ghost use Rattle.dv_maps.specs.Texts.{Messages};
ghost use Rattle.dv_mdbox.specs.Answers.{AnswersSave, HasNext, HasStorageCause, IsFailure, OnRefused};
ghost use Rattle.dv_chain.specs.Openings.{OnlyLooks};
ghost use Rattle.dv_mdbox.specs.States.{IsAtRest, IsLookedAt};
ghost use Rattle.dv_mdbox.specs.Tails.{IsFreeFrom, IsPlaceFor};
ghost use Rattle.dv_mdbox.specs.Writes.{GoesByMessage, SavesGroup, SavesGroupAt, SavesQuietly, WritesGroup};

use crate::tails::{Target, end_behind, find_target};
use crate::writing::{is_full, is_valid, turn_time};
use crate::{Storage, StorageFault};
use dv_apply::Live;
use dv_chain::Chain;
use dv_files::mail_text;
use dv_filing::Files;
use dv_map_groups::save_records;
use dv_maps::{Place, places_are, records_are_written, saves_are};
use dv_model::{Bytes, NoMemory};
use dv_plans::message_guid;
use dv_shelf::{Clock, Shelf};
use std::alloc::Global;

/// The most bytes that a message may have.
const MESSAGE_LIMIT: usize = 33_554_432;

/// The bytes of the group that saves a message.
const SAVE_SIZE: u32 = 120;

/// A number of 32 bits is one. Nothing is computed.
pub(crate) fn is_number(n: u32)
    ensures { IsU32 n }
{}

/// Whether no id is left.
fn is_used_up(live: &Live) -> bool
    ensures { MatchBool result (live.now.mailbox.next_uid ≡ end_of_uids)
        (live.now.mailbox.next_uid < end_of_uids) }
{
    live.next_uid() == u32::MAX
}

/// Whether a message has more than 32 MiB.
fn is_long(message: &[u8]) -> bool
    ensures { MatchBool result (message_limit < length message.now)
        (length message.now ≤ message_limit) }
{
    message.len() > MESSAGE_LIMIT
}

/// The text of a message that is saved under the next id, at a time in seconds since 1970.
fn text_of(alloc: Global, chain: &Chain, now: u32, message: &[u8]) -> Result<Bytes, NoMemory>
    ensures { IfOk result (λ text. mail_in (Some text) ≡ Held message.now) }
{
    let live = &chain.live;
    let guid = message_guid(chain.indexid, live.uid_validity(), live.next_uid(), now);
    mail_text(alloc, &guid, now, message)
}

/// The place of a text of so many bytes, where its numbers have 32 bits.
fn place_at(target: Target, size: usize) -> Option<Place>
    requires { target.offset < 2097152 }
    ensures { MatchOption result ⊤ (λ place.
        (place ≡ record { file = target.file; offset = target.offset; size = size })
        × (target.offset + size < 2 ^ 32)) }
{
    if size > 4_000_000_000 {
        return None;
    }
    Some(Place {
        file: target.file,
        offset: target.offset,
        size: size as u32,
    })
}

impl<S: Shelf, C: Clock> Storage<S, C> {
    /// Saves the message of a text, which goes to this place, under the next id.
    fn put_text(
        &mut self,
        text: Bytes,
        place: Place,
        time: Option<u32>,
    ) -> Result<u32, StorageFault>
        requires place { IsPlaceFor self.old.chain.live.mailbox (length text) place }
        requires next { HasNext self.old.chain }
        requires time { is_some time ≡ turns self.old.owed self.old.chain }
        ensures id { IfOk result (λ id. id ≡ self.old.chain.live.mailbox.next_uid) }
        ensures value { WritesGroup (records_of self.old.chain.live.mailbox.next_uid place)
            self.old self.new result }
        ensures gives { S.sees.tells → (messages : Messages) (debt : Owed) (message : List ℕ) →
            mail_in (Some text) ≡ Held message → IsAtRest S.sees messages debt self.old →
            SavesQuietly S.sees messages debt message self.old self.new result }
        ensures settled { S.sees.tells → StaysSettled S.sees self.old.shelf self.new.shelf }
        ensures goes { GoesByMessage S.sees self.old self.new result }
        ensures err { IfErr result IsFailure }
        ensures cause { HasStorageCause (S.sees.fault_count self.old.shelf)
            (S.sees.fault_count self.new.shelf) result }
    {
        is_valid(&self.chain.live);
        records_are_written();
        saves_are();
        places_are();
        is_number(place.file);
        let id = self.chain.live.next_uid();
        let records = save_records(self.alloc, id, place)?;
        let tail = end_behind(&self.chain.live, place);
        let files = Files::Text(place.file, place.offset, text);
        match self.write(records, files, time, tail) {
            Ok(()) => Ok(id),
            Err(e) => Err(e),
        }
    }

    /// Saves a message under the next id, whose text goes to this place.
    fn put_message(&mut self, message: &[u8], target: Target) -> Result<u32, StorageFault>
        requires free { IsFreeFrom self.old.chain.live.mailbox target }
        requires small { target.offset < 2097152 }
        requires next { HasNext self.old.chain }
        ensures id { IfOk result (λ id. id ≡ self.old.chain.live.mailbox.next_uid) }
        ensures value { SavesGroupAt target self.old self.new result }
        ensures gives { S.sees.tells → (messages : Messages) (debt : Owed) →
            IsAtRest S.sees messages debt self.old →
            SavesQuietly S.sees messages debt message.now self.old self.new result }
        ensures settled { S.sees.tells → StaysSettled S.sees self.old.shelf self.new.shelf }
        ensures goes { GoesByMessage S.sees self.old self.new result }
        ensures err { IfErr result IsFailure }
        ensures cause { HasStorageCause (S.sees.fault_count self.old.shelf)
            (S.sees.fault_count self.new.shelf) result }
    {
        let time = turn_time(&mut self.clock, &self.chain, &self.owed);
        let now = self.clock.now();
        let text = text_of(self.alloc, &self.chain, now, message)?;
        match place_at(target, text.len()) {
            Some(place) => self.put_text(text, place, time),
            None => Err(StorageFault::NoMemory),
        }
    }

    /// Saves a message under a new id, with one reference. Its text goes behind the last one of the
    /// file with the highest number that the map names, or to a new file where there is none, or
    /// where that has 2 MiB of texts. `Ids` comes exactly where no id is left, `TooLong` exactly
    /// where the message has more than 32 MiB, or where the log is full and no file can follow it,
    /// and `Files` exactly where a new file is needed and no number is left for it. `Disk` comes
    /// only where the shelf's count of faults rose: where it doesn't, the answer is one of the
    /// others, whatever was owed. After an error the ids are as before. The clock is read once
    /// where the log is rotated, and then once for the message. The end of the last file is known
    /// behind a save that is done: only those behind an opening, or behind a purge that removed the
    /// last file, up to the first that is done, take time by the number of ids to find it.
    pub fn save(&mut self, message: &[u8]) -> Result<u32, StorageFault>
        // Which answer it is, what becomes of the map, and where the text goes, over any shelf.
        ensures answers { AnswersSave S.sees.tells (S.sees.files self.old.shelf)
            self.old.chain.live.mailbox self.old.chain (length message.now) result }
        // Behind a limit the folder was looked at, and nothing is changed.
        ensures refused { OnRefused result (IsLookedAt self.old self.new
            × (S.sees.tells → OnlyLooks S.sees self.old.shelf self.new.shelf)) }
        ensures value { SavesGroup S.sees self.old self.new result }
        // The message has one reference, whole; from rest to rest.
        ensures gives { S.sees.tells → (messages : Messages) (debt : Owed) →
            IsAtRest S.sees messages debt self.old →
            SavesQuietly S.sees messages debt message.now self.old self.new result }
        ensures settled { S.sees.tells → StaysSettled S.sees self.old.shelf self.new.shelf }
        // No message file is read, and the end of the last one is known behind it; a fault of the
        // disk has its cause.
        ensures goes { GoesByMessage S.sees self.old self.new result }
        ensures cause { HasStorageCause (S.sees.fault_count self.old.shelf)
            (S.sees.fault_count self.new.shelf) result }
    {
        if is_used_up(&self.chain.live) {
            return Err(StorageFault::Ids);
        }
        if is_long(message) {
            return Err(StorageFault::TooLong {
                bytes: message.len() as u64,
            });
        }
        if is_full(&self.chain, SAVE_SIZE) {
            return Err(StorageFault::TooLong {
                bytes: u64::from(SAVE_SIZE),
            });
        }
        match find_target(self.alloc, &self.chain.live, self.tail, &mut self.shelf) {
            Ok(target) => self.put_message(message, target),
            Err(e) => Err(e),
        }
    }
}
