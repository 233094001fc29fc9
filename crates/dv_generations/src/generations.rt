ghost use Rattle.std.specs.Prelude.{◌≡◌, ◌+◌, ◌++◌, ◌∷◌, [], ◌/◌, ◌≤◌, ◌<◌, length, is_some, max, IsTrue, IfOk, IfSome, OnErr, OnOk, Some};
ghost use Rattle.dv_model.specs.Spelling.{group_text};
ghost use Rattle.dv_front.specs.Notes.{AreNotes};
ghost use Rattle.dv_generations.specs.Feeds.{Fits, Follows, IsBehind, journal, new_feed, published, turned, with_pass, with_room, with_spare};

use crate::ends::{Ends, Next};
use dv_feed::publish_group;
use dv_front::{NamesNote, Pass, Roll, enter, new_front, next_front, seal, split, words_left};
use dv_model::{Mailbox, Mark, NoMemory};
use dv_naming::Keeping;
use std::alloc::Global;
use std::marker::{Model, PhantomData};
use std::mem;

/// The largest number of words of a group that a table can hold.
const MOST_WORDS: u64 = 4_294_967_293;

/// The pens of all generations, the newest apart, and the roll that names their tables. Contracts
/// see the notes of each generation, how many words are left in the newest table, for how many
/// generations more there is room in the list, how many words a next table has, and whether a pass
/// of the newest is kept.
#[derive(Drop)]
pub struct Generations<K: Keeping> {
    pub(crate) older: Vec<Ends>,
    pub(crate) newest: Ends,
    pub(crate) roll: Roll,
    // A pass of the newest for who publishes, so that it can be had without memory.
    pub(crate) pass: Option<Pass>,
    // How many generations more the list of older ones takes without memory.
    spare: u64,
    // The number of words of a table, where no group needs more.
    words: u32,
    of: PhantomData<K>,
}

impl<K: Keeping> Model for Generations<K> {
    ghost use Rattle.std.specs.Prelude.{◌≡◌, ◌+◌, ◌-◌, ◌≤◌, ◌++◌, ◌∷◌, [], length, is_some, vec_len, vec_capacity, IfSome};
    ghost use Rattle.dv_generations.specs.Feeds.{Feed, origin_of};

    ghost Value = { Feed };

    ghost use Rattle.dv_generations.specs.Linked.{AreGenerations, parts_in};

    ghost view = { λ g. record {
      parts = parts_in (g.older.items ++ g.newest ∷ []);
      left = g.newest.pen.generation.room - length g.newest.pen.put;
      spare = g.spare;
      words = g.words;
      pass = is_some g.pass;
    } };

    ghost invariant = { λ g.
        AreGenerations (origin_of K.start) K.count g.older.items g.newest g.roll.items
        × (g.roll.table ≡ K.roll)
        × (vec_len g.older + g.spare ≤ vec_capacity g.older)
        × (1 ≤ g.words)
        × IfSome g.pass (λ p. p.table ≡ g.newest.pen.table) };
}

impl<K: Keeping> Generations<K> {
    /// The first generation, of a roll without tables, with so many words a table. Where the log
    /// starts and the count of failures serve contracts alone.
    pub fn new(
        alloc: Global,
        mut roll: Roll,
        words: u32,
        mailbox: &Mailbox,
        mark: Mark,
        start_count: u64,
    ) -> Result<Generations<K>, NoMemory>
        requires words { 1 ≤ words }
        requires roll { (roll.table ≡ K.roll) × (roll.items ≡ []) }
        requires start { (mailbox.now ≡ K.start.start) × (mark ≡ K.start.start_mark) }
        requires count { start_count ≡ K.count }
        ensures { IfOk result (λ g. g ≡ new_feed words) }
    {
        let (pen, pass) = new_front(alloc, words, mailbox, mark, start_count)?;
        enter(&mut roll, &pass);
        Ok(Generations {
            older: Vec::new(alloc),
            newest: Ends { pen, pass },
            roll,
            pass: None,
            spare: 0,
            words,
            of: PhantomData,
        })
    }

    /// How many generations there are.
    pub fn count(&self) -> u64
        ensures { result ≡ length self.now.parts }
    {
        self.older.len() as u64 + 1
    }

    /// Takes all memory that publishing a group of so many words asks for: a next table, where the
    /// group doesn't fit into the newest, and a pass for who publishes. Nothing is published,
    /// sealed or named by that.
    pub fn ready(&mut self, alloc: Global, words: u64) -> Result<Option<Next<K>>, NoMemory>
        ensures stays { IfOk result (λ next. self.new ≡ with_room self.old next) }
        ensures fits { IfOk result (λ next. Fits words self.new next) }
        // There is a next table only where it is needed, of no more words than are asked for.
        ensures needed { IfOk result (λ next. IsTrue (is_some next) → self.old.left < words + 2) }
        ensures size { IfOk result (λ next. IfSome next (λ n. n.room ≡ max (words + 2) self.old.words)) }
        ensures err { OnErr result (self.new ≡ self.old) }
    {
        if words > MOST_WORDS {
            return Err(NoMemory);
        }
        let needed = words as u32 + 2;
        if needed <= words_left(&self.newest.pen) {
            return match self.keep_pass() {
                Ok(()) => Ok(None),
                Err(_) => Err(NoMemory),
            };
        }
        let Ok(next) = self.table_behind(alloc, needed.max(self.words)) else {
            return Err(NoMemory);
        };
        match self.make_room() {
            Ok(()) => Ok(Some(next)),
            Err(_) => Err(NoMemory),
        }
    }

    // A table of so many words for the generation behind all that was published.
    fn table_behind(&self, alloc: Global, words: u32) -> Result<Next<K>, NoMemory>
        requires words { 1 ≤ words }
        ensures { IfOk result (λ next. IsBehind self.now next × (next.room ≡ words)) }
    {
        let (pen, mut pass) = next_front(alloc, &self.newest.pen, words)?;
        let spare = split(&mut pass)?;
        Ok(Next {
            ends: Ends { pen, pass },
            spare,
            of: PhantomData,
        })
    }

    // A pass of the newest table is kept.
    fn keep_pass(&mut self) -> Result<(), NoMemory>
        ensures ok { OnOk result (self.new ≡ with_pass self.old) }
        ensures err { OnErr result (self.new ≡ self.old) }
    {
        if self.pass.is_none() {
            self.pass = Some(split(&mut self.newest.pass)?);
        }
        Ok(())
    }

    // Room for a generation more in the list.
    fn make_room(&mut self) -> Result<(), NoMemory>
        ensures ok { OnOk result (self.new ≡ with_spare self.old) }
        ensures err { OnErr result (self.new ≡ self.old) }
    {
        let spare = self.spare.max(1);
        self.older.reserve(spare as usize)?;
        self.spare = spare;
        Ok(())
    }

    /// Publishes a group as one note more, which the caller names: by one store, and without
    /// memory. Where a next table is given, the newest is sealed first, and the note is the next
    /// one's first.
    pub fn publish<J: NamesNote>(&mut self, next: Option<Next<K>>, author: u32, text: &[u8])
        requires author { J.note.entry.author ≡ author }
        requires text { group_text J.note.entry.group ≡ text.now }
        requires good { AreNotes K.start.start K.start.start_mark
            (journal self.old ++ J.note ∷ []) }
        requires fits { Fits (length text.now / 4) self.old next }
        ensures feed { self.new ≡ published (length text.now / 4) J.note (turned self.old next) }
        ensures journal { journal self.new ≡ journal self.old ++ J.note ∷ [] }
    {
        match next {
            Some(next) => self.turn(next),
            None => {}
        }
        publish_group::<J>(&mut self.newest.pen, author, text);
    }

    // Seals the newest table, and begins the next.
    fn turn(&mut self, next: Next<K>)
        requires { Follows self.old next }
        ensures { self.new ≡ turned self.old (Some next) }
    {
        seal(&mut self.newest.pen);
        enter(&mut self.roll, &next.ends.pass);
        let Next { ends, spare, of: _ } = next;
        let older = mem::replace(&mut self.newest, ends);
        self.older.push(older).unwrap();
        self.spare -= 1;
        self.pass = Some(spare);
    }
}
