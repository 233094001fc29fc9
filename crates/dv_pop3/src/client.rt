ghost use Rattle.std.specs.Prelude.{◌≡◌, ◌⊎◌, Contains, IfOk, OnErr, OnOk, false};
ghost use mathlib.Core.List.{IsPrefix};
ghost use Rattle.dv_maildrop.specs.declared.types.Asked.TheVariants.{Nothing, Removal};
ghost use Rattle.dv_maildrop.specs.declared.types.Found.{Found as Said};
ghost use Rattle.dv_maildrop.specs.declared.types.PopLine.TheVariants.{Quit};
ghost use Rattle.dv_maildrop.specs.declared.types.Removal.{Removal as Came};
ghost use Rattle.dv_maildrop.specs.Answers.{Store, answer, found_answer, removal_answer};
ghost use Rattle.dv_maildrop.specs.Maildrops.{asked, behind};
ghost use Rattle.dv_member.specs.Members.{notes_of};
ghost use Rattle.dv_pop3.specs.Clients.{IsListing};
ghost use Rattle.dv_pop3.specs.Findings.{IsFound, IsHeld, Leaves, Removes, Says};

use crate::messages::retrieve;
use crate::removing::remove;
use dv_keeper::Keeper;
use dv_maildrop::{Asked, Listed, Maildrop, PopLine};
use dv_member::Session;
use dv_model::{Bytes, NoMemory};
use dv_naming::{Keeping, Tally};
use dv_shelf::{Clock, Shelf};
use std::alloc::Global;
use std::marker::Model;
use std::sync::Wait;

/// A POP3 session over the store of a keeper: the messages that it listed when it began, the marks,
/// and its session of the store, which may have seen more since.
#[derive(Drop)]
pub struct Pop<K: Keeping, L: Tally, M: Tally> {
    alloc: Global,
    maildrop: Maildrop,
    session: Session<K, L, M>,
}

impl<K: Keeping, L: Tally, M: Tally> Model for Pop<K, L, M> {
    ghost use Rattle.dv_pop3.specs.Clients.{Client, IsListing};

    ghost Value = { Client };

    ghost view = { λ p. record { maildrop = p.maildrop; session = p.session } };

    ghost invariant = { λ p. K.honest → IsListing p.maildrop.rows p.session.follower.state };
}

impl<K: Keeping, L: Tally, M: Tally> Pop<K, L, M> {
    /// Of a maildrop, and a session that has selected the mailbox, to which each of these messages
    /// had been added when it was last told. It takes no memory.
    pub fn of(alloc: Global, maildrop: Maildrop, session: Session<K, L, M>) -> Pop<K, L, M>
        requires { K.honest → IsListing maildrop.rows session.follower.state }
        ensures { result ≡ record { maildrop = maildrop; session = session } }
    {
        Pop {
            alloc,
            maildrop,
            session,
        }
    }

    /// What it listed, and the marks.
    pub fn maildrop(&self) -> &Maildrop
        ensures { result.now ≡ self.now.maildrop }
    {
        &self.maildrop
    }

    /// Its session of the store. It takes no memory.
    pub fn session(self) -> Session<K, L, M>
        ensures { result ≡ self.session }
    {
        let Pop { session, .. } = self;
        session
    }

    // Answers a line of which the store isn't asked.
    fn answer_own(&mut self, line: &PopLine) -> Result<Bytes, NoMemory>
        requires { asked self.old.maildrop line.now ≡ Nothing }
        ensures text { IfOk result (λ text. (store : Store)
            → text ≡ answer store self.old.maildrop line.now) }
        ensures behind { OnOk result (self.new.maildrop ≡ behind self.old.maildrop line.now) }
        ensures same { OnErr result (self.new.maildrop ≡ self.old.maildrop) }
        ensures session { self.new.session ≡ self.old.session }
    {
        let mut text = Bytes::new(self.alloc);
        self.maildrop.answer(line, &mut text)?;
        Ok(text)
    }

    // Answers a RETR of a message that isn't marked.
    fn answer_message<S: Shelf, C: Clock, R: Wait>(
        &mut self,
        rt: &R,
        keeper: &Keeper<S, C, K, L, M>,
        row: Listed,
    ) -> Result<Bytes, NoMemory>
        requires fresh { self.old.session.spent ≡ false }
        requires listed { Contains self.old.maildrop.rows row }
        ensures found { K.honest → IfOk result (λ text. (f : Said)
            × (text ≡ found_answer row f)
            × IsFound K.start K.count row.uid f self.old.session self.new.session) }
        ensures left { K.honest → OnErr result (IsHeld self.old.session self.new.session
            ⊎ ((f : Said)
            × IsFound K.start K.count row.uid f self.old.session self.new.session)) }
        ensures same { self.new.maildrop ≡ self.old.maildrop }
        ensures begins { IsPrefix (notes_of self.old.session) (notes_of self.new.session) }
        ensures number { self.new.session.number ≡ self.old.session.number }
        ensures fresh { self.new.session.spent ≡ false }
    {
        retrieve(self.alloc, rt, keeper, &mut self.session, row)
    }

    // Answers a QUIT with marks.
    fn answer_quit<S: Shelf, C: Clock, R: Wait>(
        &mut self,
        rt: &R,
        keeper: &Keeper<S, C, K, L, M>,
    ) -> Result<Bytes, NoMemory>
        requires fresh { self.old.session.spent ≡ false }
        ensures removed { K.honest → IfOk result (λ text. (r : Came) × (text ≡ removal_answer r)
            × Removes K.start K.count self.old.maildrop r self.old.session self.new.session) }
        ensures behind { OnOk result (self.new.maildrop ≡ behind self.old.maildrop Quit) }
        ensures same { OnErr result (self.new.maildrop ≡ self.old.maildrop) }
        ensures left { K.honest → OnErr result
            (Leaves K.start K.count self.old.maildrop Removal self.old.session self.new.session) }
        ensures begins { IsPrefix (notes_of self.old.session) (notes_of self.new.session) }
        ensures number { self.new.session.number ≡ self.old.session.number }
        ensures fresh { OnOk result (self.new.session.spent ≡ false) }
    {
        let set = self.maildrop.marked_set(self.alloc)?;
        let removal = remove(self.alloc, rt, keeper, &mut self.session, set)?;
        let mut text = Bytes::new(self.alloc);
        self.maildrop.quit(removal, &mut text)?;
        Ok(text)
    }

    /// The answer to a line (RFC 1939, sections 5 to 7), each of its lines ended by CRLF. Numbers
    /// and sizes are those from when the session began, whatever others write. RETR takes a lock,
    /// and so does QUIT with a marked message: it removes exactly the marked messages that still
    /// live, by one entry, or none where none of them lives. Nothing else reads or writes anything.
    /// After `NoMemory`, which is the only error, the marks are as before, and the session is as
    /// before, or as behind the answer; or it is spent behind the entry of its removal. It then
    /// serves `session` alone.
    pub fn answer<S: Shelf, C: Clock, R: Wait>(
        &mut self,
        rt: &R,
        keeper: &Keeper<S, C, K, L, M>,
        line: &PopLine,
    ) -> Result<Bytes, NoMemory>
        requires open { self.old.maildrop.ended ≡ false }
        requires fresh { self.old.session.spent ≡ false }
        // The text, where the store says what is so of the log that the session has seen then.
        ensures answer { K.honest → IfOk result (λ text. (store : Store)
            × (text ≡ answer store self.old.maildrop line.now)
            × Says K.start K.count self.old.maildrop store (asked self.old.maildrop line.now)
            self.old.session self.new.session) }
        ensures behind { OnOk result (self.new.maildrop ≡ behind self.old.maildrop line.now) }
        // Where memory ran out.
        ensures same { OnErr result (self.new.maildrop ≡ self.old.maildrop) }
        ensures left { K.honest → OnErr result
            (Leaves K.start K.count self.old.maildrop (asked self.old.maildrop line.now)
            self.old.session self.new.session) }
        ensures begins { IsPrefix (notes_of self.old.session) (notes_of self.new.session) }
        ensures number { self.new.session.number ≡ self.old.session.number }
        ensures fresh { OnOk result (self.new.session.spent ≡ false) }
    {
        match self.maildrop.asked(line) {
            Asked::Nothing => self.answer_own(line),
            Asked::Message(row) => self.answer_message(rt, keeper, row),
            Asked::Removal => self.answer_quit(rt, keeper),
        }
    }
}
