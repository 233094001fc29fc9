//! The lines of a FETCH that reads messages.

ghost use Rattle.std.specs.Prelude.{◌≡◌, ◌++◌, ℕ, All, IfOk, OnErr, OnOk, Option, min, sum_by, true};
ghost use Rattle.dv_model.specs.declared.types.Command.TheVariants as command;
ghost use Rattle.dv_model.specs.Journals.{Mail as Message};
ghost use Rattle.dv_model.specs.Sessions.{reads_mail};
ghost use Rattle.dv_shelf.specs.Causes.{HasCauseOf};
ghost use Rattle.dv_chain.specs.Openings.{OnlyLooks};
ghost use Rattle.dv_view.specs.Taken.{HasTaken};
ghost use Rattle.dv_responses.specs.Asked.{fetch_asks};
ghost use Rattle.dv_responses.specs.Damaged.{IsRead};
ghost use Rattle.dv_responses.specs.Rows.{IsNumber, rows_at};
ghost use Rattle.dv_lookups.specs.Commands.{AskedStands, uids_read};
ghost use Rattle.dv_lookups.specs.Founds.{facts_found, mail_of};
ghost use Rattle.dv_lookups.specs.Kept.{Economy, IsFileOf, IsSpared, Spares, can_stand};
ghost use Rattle.dv_lookups.specs.Lookups.{KnowsCache, KnowsMessages, LooksUp};
ghost use Rattle.dv_lookups.specs.Reads.{IsFetched, damaged_in, item_room, line_of, uids_of};

use crate::cache_file::CacheFile;
use crate::found::FactsFound;
use crate::memory::in_memory;
use dv_chain::Chain;
use dv_model::{Item, List, NoMemory, Shown, Span};
use dv_responses::{Asked, Responses, named, row_at};
use dv_shelf::{Shelf, ShelfFault};
use dv_view::{Live, View};
use std::alloc::Global;

// About what stands around the value of an item.
const AROUND: usize = 24;

// About how many bytes a line with these items has, but for what messages have. Memory and time
// alone go by it.
fn line_room(items: &[Item]) -> usize
    ensures { result ≡ min (sum_by item_room items.now) usize.MAX }
{
    let mut room: usize = 0;
    for item in items {
        let name = match item {
            Item::Field(name) => name.len(),
            _ => 0,
        };
        room = room.saturating_add(AROUND.saturating_add(name));
    }
    room
}

// Makes room for so many lines with these items.
fn make_room<R: Responses>(items: &List<Item>, count: usize, lines: &mut R) -> Result<(), NoMemory>
    ensures { lines.new ≡ lines.old }
{
    lines.expect(count, count.saturating_mul(line_room(items.as_slice())))
}

// Adds the line of a row, where its message is there, and its UID, where that is damaged.
fn take_row<R: Responses>(
    alloc: Global,
    live: &Live,
    items: &[Item],
    number: u32,
    s: &Shown,
    found: FactsFound,
    damaged: &mut List<u32>,
    lines: &mut R,
) -> Result<(), NoMemory>
    ensures line { (mail : Option Message) →
        found ≡ facts_found (fetch_asks items.now) s.now.uid mail →
        OnOk result (lines.new ≡ R.with lines.old
        (line_of live.now.mailbox items.now (number, s.now) mail)) }
    ensures damaged { (mail : Option Message) →
        found ≡ facts_found (fetch_asks items.now) s.now.uid mail →
        OnOk result (damaged.new ≡ damaged.old ++ damaged_in s.now.uid mail) }
    ensures err { OnErr result (lines.new ≡ lines.old) }
{
    match found {
        FactsFound::Known(facts) => lines.take_fetch(alloc, live, number, s, items, &facts),
        FactsFound::Damaged => {
            damaged.push(s.uid)?;
            Ok(())
        }
        FactsFound::Gone => Ok(()),
    }
}

impl CacheFile {
    // Reads what is asked of the message of a row, and takes its line or its damage.
    fn fetch_row<S: Shelf, R: Responses>(
        &mut self,
        alloc: Global,
        shelf: &mut S,
        chain: &Chain,
        asked: &Asked,
        items: &[Item],
        number: u32,
        s: &Shown,
        damaged: &mut List<u32>,
        lines: &mut R,
    ) -> Result<(), ShelfFault>
        requires asks { asked.now ≡ fetch_asks items.now }
        ensures line { S.sees.tells →
            KnowsCache (S.sees.files shelf.old) chain.now self.old →
            OnOk result (lines.new ≡ R.with lines.old
            (line_of chain.now.live.mailbox items.now (number, s.now)
            (mail_of (S.sees.files shelf.old) chain.now.live.mailbox s.now.uid))) }
        ensures damaged { S.sees.tells →
            KnowsCache (S.sees.files shelf.old) chain.now self.old →
            OnOk result (damaged.new ≡ damaged.old ++ damaged_in s.now.uid
            (mail_of (S.sees.files shelf.old) chain.now.live.mailbox s.now.uid)) }
        ensures err { OnErr result (lines.new ≡ lines.old) }
        ensures file { S.sees.tells → IsFileOf (S.sees.files shelf.old) self.old →
            IsFileOf (S.sees.files shelf.old) self.new }
        // Nothing is changed, and the shelf is called no more than is due.
        ensures looks { S.sees.tells →
            OnlyLooks S.sees shelf.old shelf.new }
        ensures economy { Economy S.sees chain.now.live.mailbox s.now.uid
            (can_stand asked.now) self.old self.new shelf.old shelf.new }
        ensures spares { S.sees.tells → IsFileOf (S.sees.files shelf.old) self.old →
            can_stand asked.now ≡ true →
            IsSpared (S.sees.files shelf.old) chain.now.indexid chain.now.live.mailbox s.now.uid →
            Spares S.sees self.old shelf.old shelf.new }
        ensures cause { HasCauseOf ShelfFault.Failed
            (S.sees.fault_count shelf.old) (S.sees.fault_count shelf.new) result }
    {
        let found = self.facts(alloc, shelf, chain, asked, s.uid)?;
        in_memory(take_row(alloc, &chain.live, items, number, s, found, damaged, lines))
    }

    // Adds the FETCH lines of the rows with these numbers, one message after another. The answer
    // has the UIDs of those whose files are missing or damaged.
    fn fetch_rows<S: Shelf, R: Responses>(
        &mut self,
        alloc: Global,
        shelf: &mut S,
        chain: &Chain,
        asked: &Asked,
        items: &[Item],
        rows: &[Shown],
        numbers: &[u32],
        lines: &mut R,
    ) -> Result<List<u32>, ShelfFault>
        requires numbers { All (IsNumber rows.now) numbers.now }
        requires asks { asked.now ≡ fetch_asks items.now }
        ensures found { S.sees.tells →
            KnowsCache (S.sees.files shelf.old) chain.now self.old →
            IfOk result (IsFetched R.with lines.old lines.new (S.sees.files shelf.old)
            chain.now.live.mailbox items.now (rows_at rows.now numbers.now)) }
        // What was taken before is kept.
        ensures replies { S.sees.tells →
            KnowsCache (S.sees.files shelf.old) chain.now self.old →
            OnErr result (HasTaken R.with lines.old lines.new) }
        // Nothing is changed, and message files are read no more than is due.
        ensures looks { LooksUp S.sees chain.now (AskedStands asked.now)
            (uids_of (rows_at rows.now numbers.now))
            self.old self.new shelf.old shelf.new }
        ensures cause { HasCauseOf ShelfFault.Failed
            (S.sees.fault_count shelf.old) (S.sees.fault_count shelf.new) result }
    {
        let mut damaged = List::new(alloc);
        for number in numbers {
            let s = row_at(rows, *number);
            self.fetch_row(
                alloc,
                shelf,
                chain,
                asked,
                items,
                *number,
                s,
                &mut damaged,
                lines,
            )?;
        }
        Ok(damaged)
    }

    /// `read_for` of a FETCH.
    pub(crate) fn fetch_for<S: Shelf, R: Responses>(
        &mut self,
        alloc: Global,
        shelf: &mut S,
        chain: &Chain,
        asked: &Asked,
        by_uid: bool,
        set: &List<Span>,
        items: &List<Item>,
        view: &View,
        lines: &mut R,
    ) -> Result<List<u32>, ShelfFault>
        requires asks { asked.now ≡ fetch_asks items.now }
        requires reads { reads_mail (command.Fetch by_uid set.now items.now) ≡ true }
        ensures found { S.sees.tells → (mail : ℕ → Message) →
            KnowsMessages (S.sees.files shelf.old) chain.now self.old mail →
            IfOk result (IsRead R.with lines.old lines.new mail
            (command.Fetch by_uid set.now items.now) view.now chain.now.live.mailbox) }
        // What was taken before is kept.
        ensures replies { S.sees.tells →
            KnowsCache (S.sees.files shelf.old) chain.now self.old →
            OnErr result (HasTaken R.with lines.old lines.new) }
        // Nothing is changed, and message files are read no more than is due.
        ensures looks { LooksUp S.sees chain.now (AskedStands asked.now)
            (uids_read (command.Fetch by_uid set.now items.now) view.now)
            self.old self.new shelf.old shelf.new }
        ensures cause { HasCauseOf ShelfFault.Failed
            (S.sees.fault_count shelf.old) (S.sees.fault_count shelf.new) result }
    {
        let numbers = in_memory(named(alloc, by_uid, set, view))?;
        in_memory(make_room(items, numbers.len(), lines))?;
        let rows = view.rows().as_slice();
        self.fetch_rows(
            alloc,
            shelf,
            chain,
            asked,
            items.as_slice(),
            rows,
            numbers.as_slice(),
            lines,
        )
    }
}
