//! The line of a SEARCH that reads messages.

ghost use Rattle.std.specs.Prelude.{◌≡◌, ◌++◌, ◌∷◌, [], ◌^◌, ◌<◌, ◌≤◌, ℕ, IfOk, OnErr, OnOk, Option, cond, length, true};
ghost use Rattle.dv_model.specs.declared.types.Command.TheVariants as command;
ghost use Rattle.dv_model.specs.declared.types.Key.{Key as Searched};
ghost use Rattle.dv_model.specs.Journals.{Mail as Message};
ghost use Rattle.dv_model.specs.Sessions.{candidate, number_of, reads_mail};
ghost use Rattle.dv_model.specs.Sets.{numbered};
ghost use Rattle.dv_model.specs.Views.{View as Seen};
ghost use Rattle.dv_shelf.specs.Causes.{HasCauseOf};
ghost use Rattle.dv_search.specs.Facts.{is_found};
ghost use Rattle.dv_search.specs.Nesting.{levels_of, most_levels};
ghost use Rattle.dv_search.specs.Sought.{IsSought};
ghost use Rattle.dv_chain.specs.Openings.{OnlyLooks};
ghost use Rattle.dv_responses.specs.Asked.{SearchAsks};
ghost use Rattle.dv_responses.specs.Damaged.{IsRead};
ghost use Rattle.dv_responses.specs.declared.asking.Asked.{Asked as Wanted};
ghost use Rattle.dv_lookups.specs.Commands.{AskedStands, uids_read};
ghost use Rattle.dv_lookups.specs.Founds.{facts_found, mail_of};
ghost use Rattle.dv_lookups.specs.Kept.{Economy, IsFileOf, IsSpared, Spares, can_stand};
ghost use Rattle.dv_lookups.specs.Lookups.{KnowsCache, KnowsMessages, LooksUp};
ghost use Rattle.dv_lookups.specs.Reads.{damaged_in, damaged_of, held_in, numbers_found, uids_of};

use crate::cache_file::CacheFile;
use crate::found::FactsFound;
use crate::memory::in_memory;
use dv_chain::Chain;
use dv_model::{Key, List, NoMemory, Reply, Shown};
use dv_responses::{Asked, Responses};
use dv_search::Sought;
use dv_shelf::{Shelf, ShelfFault};
use dv_view::{Live, View};
use std::alloc::Global;

// What a search has of the rows so far.
#[derive(Drop)]
struct Picked {
    // The numbers of the rows that are found, or their UIDs.
    numbers: List<u32>,
    // The UIDs of those whose messages are damaged.
    damaged: List<u32>,
}

// Whether a row is found, by what was found of its message.
fn is_found(
    alloc: Global,
    live: &Live,
    sought: &Sought,
    s: &Shown,
    found: &FactsFound,
) -> Result<bool, NoMemory>
    ensures { (k : Searched) (view : Seen) → IsSought k view sought.now →
        (asked : Wanted) → SearchAsks k asked →
        (mail : Option Message) → found.now ≡ facts_found asked s.now.uid mail →
        IfOk result (λ found. found
        ≡ is_found k (candidate view live.now.mailbox s.now) (held_in mail)) }
{
    match found {
        FactsFound::Known(facts) => sought.finds(alloc, live, s, Some(facts)),
        FactsFound::Gone => sought.finds(alloc, live, s, None),
        FactsFound::Damaged => sought.finds(alloc, live, s, None),
    }
}

// Adds the UID of a message that is damaged.
fn add_damage(uid: u32, found: &FactsFound, damaged: &mut List<u32>) -> Result<(), NoMemory>
    ensures { (asked : Wanted) (mail : Option Message) →
        found.now ≡ facts_found asked uid mail →
        OnOk result (damaged.new ≡ damaged.old ++ damaged_in uid mail) }
{
    match found {
        FactsFound::Damaged => {
            damaged.push(uid)?;
            Ok(())
        }
        FactsFound::Known(_) | FactsFound::Gone => Ok(()),
    }
}

fn number_of(by_uid: bool, number: u32, s: &Shown) -> u32
    ensures { result ≡ number_of by_uid (number, s.now) }
{
    if by_uid { s.uid } else { number }
}

// Adds the number of a row that is found, or its UID.
fn add_number(
    is_found: bool,
    by_uid: bool,
    number: u32,
    s: &Shown,
    numbers: &mut List<u32>,
) -> Result<(), NoMemory>
    ensures { OnOk result (numbers.new ≡ numbers.old
        ++ cond is_found (number_of by_uid (number, s.now) ∷ []) []) }
{
    if is_found {
        numbers.push(number_of(by_uid, number, s))?;
    }
    Ok(())
}

// Picks a row, by what was found of its message.
fn pick(
    alloc: Global,
    live: &Live,
    sought: &Sought,
    by_uid: bool,
    number: u32,
    s: &Shown,
    found: &FactsFound,
    picked: &mut Picked,
) -> Result<(), NoMemory>
    ensures numbers { (k : Searched) (view : Seen) → IsSought k view sought.now →
        (asked : Wanted) → SearchAsks k asked →
        (mail : Option Message) → found.now ≡ facts_found asked s.now.uid mail →
        OnOk result (picked.new.numbers ≡ picked.old.numbers ++ cond
        (is_found k (candidate view live.now.mailbox s.now) (held_in mail))
        (number_of by_uid (number, s.now) ∷ []) []) }
    ensures damaged { (asked : Wanted) (mail : Option Message) →
        found.now ≡ facts_found asked s.now.uid mail →
        OnOk result (picked.new.damaged ≡ picked.old.damaged ++ damaged_in s.now.uid mail) }
{
    add_damage(s.uid, found, &mut picked.damaged)?;
    let is_found = is_found(alloc, live, sought, s, found)?;
    add_number(is_found, by_uid, number, s, &mut picked.numbers)
}

impl CacheFile {
    // Reads what is asked of the message of a row, and picks the row or its damage.
    fn search_row<S: Shelf>(
        &mut self,
        alloc: Global,
        shelf: &mut S,
        chain: &Chain,
        asked: &Asked,
        sought: &Sought,
        by_uid: bool,
        number: u32,
        s: &Shown,
        picked: &mut Picked,
    ) -> Result<(), ShelfFault>
        ensures numbers { S.sees.tells →
            KnowsCache (S.sees.files shelf.old) chain.now self.old →
            (k : Searched) (view : Seen) → IsSought k view sought.now → SearchAsks k asked.now →
            OnOk result (picked.new.numbers ≡ picked.old.numbers ++ cond
            (is_found k (candidate view chain.now.live.mailbox s.now)
            (held_in (mail_of (S.sees.files shelf.old) chain.now.live.mailbox s.now.uid)))
            (number_of by_uid (number, s.now) ∷ []) []) }
        ensures damaged { S.sees.tells →
            KnowsCache (S.sees.files shelf.old) chain.now self.old →
            OnOk result (picked.new.damaged ≡ picked.old.damaged ++ damaged_in s.now.uid
            (mail_of (S.sees.files shelf.old) chain.now.live.mailbox s.now.uid)) }
        ensures file { S.sees.tells → IsFileOf (S.sees.files shelf.old) self.old →
            IsFileOf (S.sees.files shelf.old) self.new }
        // Nothing is changed, and the shelf is called no more than is due.
        ensures looks { S.sees.tells →
            OnlyLooks S.sees shelf.old shelf.new }
        ensures economy { Economy S.sees chain.now.live.mailbox s.now.uid
            (can_stand asked.now) self.old self.new shelf.old shelf.new }
        ensures spares { S.sees.tells → IsFileOf (S.sees.files shelf.old) self.old →
            can_stand asked.now ≡ true →
            IsSpared (S.sees.files shelf.old) chain.now.indexid chain.now.live.mailbox s.now.uid →
            Spares S.sees self.old shelf.old shelf.new }
        ensures cause { HasCauseOf ShelfFault.Failed
            (S.sees.fault_count shelf.old) (S.sees.fault_count shelf.new) result }
    {
        let found = self.facts(alloc, shelf, chain, asked, s.uid)?;
        in_memory(pick(
            alloc,
            &chain.live,
            sought,
            by_uid,
            number,
            s,
            &found,
            picked,
        ))
    }

    // Tries a key on the rows of a view, one message after another.
    fn search_rows<S: Shelf>(
        &mut self,
        alloc: Global,
        shelf: &mut S,
        chain: &Chain,
        asked: &Asked,
        sought: &Sought,
        by_uid: bool,
        view: &View,
    ) -> Result<Picked, ShelfFault>
        ensures numbers { S.sees.tells →
            KnowsCache (S.sees.files shelf.old) chain.now self.old →
            (k : Searched) → IsSought k view.now sought.now → SearchAsks k asked.now →
            IfOk result (λ picked. picked.numbers ≡ numbers_found (S.sees.files shelf.old)
            chain.now.live.mailbox k view.now by_uid (numbered view.now)) }
        ensures damaged { S.sees.tells →
            KnowsCache (S.sees.files shelf.old) chain.now self.old →
            IfOk result (λ picked. picked.damaged ≡ damaged_of (S.sees.files shelf.old)
            chain.now.live.mailbox (uids_of (numbered view.now))) }
        // Nothing is changed, and message files are read no more than is due.
        ensures looks { LooksUp S.sees chain.now (AskedStands asked.now)
            (uids_of (numbered view.now))
            self.old self.new shelf.old shelf.new }
        ensures cause { HasCauseOf ShelfFault.Failed
            (S.sees.fault_count shelf.old) (S.sees.fault_count shelf.new) result }
    {
        let mut picked = Picked {
            numbers: List::new(alloc),
            damaged: List::new(alloc),
        };
        let mut number = 0;
        for s in view.rows().as_slice() {
            number += 1;
            self.search_row(
                alloc,
                shelf,
                chain,
                asked,
                sought,
                by_uid,
                number,
                s,
                &mut picked,
            )?;
        }
        Ok(picked)
    }

    /// `read_for` of a SEARCH.
    pub(crate) fn search_for<S: Shelf, R: Responses>(
        &mut self,
        alloc: Global,
        shelf: &mut S,
        chain: &Chain,
        asked: &Asked,
        by_uid: bool,
        key: &Key,
        view: &View,
        lines: &mut R,
    ) -> Result<List<u32>, ShelfFault>
        requires shallow { levels_of key.now ≤ most_levels }
        requires asks { SearchAsks key.now asked.now }
        requires reads { reads_mail (command.Search by_uid key.now) ≡ true }
        ensures found { S.sees.tells → (mail : ℕ → Message) →
            KnowsMessages (S.sees.files shelf.old) chain.now self.old mail →
            IfOk result (IsRead R.with lines.old lines.new mail
            (command.Search by_uid key.now) view.now chain.now.live.mailbox) }
        // What was taken before is all there is.
        ensures err { OnErr result (lines.new ≡ lines.old) }
        // Nothing is changed, and message files are read no more than is due.
        ensures looks { LooksUp S.sees chain.now (AskedStands asked.now)
            (uids_read (command.Search by_uid key.now) view.now)
            self.old self.new shelf.old shelf.new }
        ensures cause { HasCauseOf ShelfFault.Failed
            (S.sees.fault_count shelf.old) (S.sees.fault_count shelf.new) result }
    {
        let sought = in_memory(Sought::new(alloc, key, view))?;
        let picked = self.search_rows(alloc, shelf, chain, asked, &sought, by_uid, view)?;
        in_memory(lines.take(Reply::Search(picked.numbers)))?;
        Ok(picked.damaged)
    }
}
