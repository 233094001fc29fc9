ghost use Rattle.std.specs.Prelude.{◌≡◌, ◌↔◌, ◌⊎◌, ℕ, ◌<◌, ◌≤◌, [], All, Contains, IsSomeAnd, Err, IfOk, Ok, OnErr, OnOk, Some, length, max, nat_eq, position, slice_get, ◌-◌, if◌then◌else◌};
ghost use Rattle.dv_model.specs.Effects.{after_record, applied};
ghost use Rattle.dv_model.specs.declared.types.Mailbox.{Mailbox};
ghost use Rattle.dv_model.specs.Fresh.{IsTouched};
ghost use Rattle.dv_model.specs.Mailboxes.{IsValid, empty_mailbox, last_modseq};
ghost use Rattle.dv_model.specs.Spelling.{IsRecord};
ghost use Rattle.dv_ext.specs.Sizes.{have_sizes};
ghost use Rattle.dv_rows.specs.Kept.{flag_count};
ghost use Rattle.dv_apply.specs.Answers.{OnBadAppend};
ghost use Rattle.dv_apply.specs.Bodies.{Refused, TakesNone, refused_row, spare_after};
ghost use Rattle.dv_apply.specs.Preparing.{IsPrepared, IsRefused, Makes, appended_by};
ghost use Rattle.dv_apply.specs.States.{Held, shown_in};
ghost use Rattle.dv_apply.specs.declared.fault.ApplyFault.TheVariants as fault;

use crate::appends;
use crate::bodies::{apply_body, is_request, pass};
use crate::completing::complete;
use crate::fault::ApplyFault;
use crate::prepare::prepare;
use crate::raising::raise;
use crate::share::Way;
use crate::state::{State, empty_state, mailbox, state_of};
use crate::touching::apply_touched;
use dv_ext::Extensions;
use dv_keywords::Table;
use dv_model::{Mailbox, NoMemory, Record, Row};
use dv_touched::Touched;
use std::alloc::Global;
use std::marker::Model;

/// A mailbox while the records of its log are applied, one after another. Contracts see the
/// mailbox, the number of spare rows: of those that can be appended without memory, and keyword
/// names whose memory is kept but that aren't shown.
#[derive(Drop)]
pub struct Live {
    state: State,
}

impl Model for Live {
    ghost use Rattle.dv_apply.specs.States.{Held, IsKept, held_of};

    ghost Value = { Held };

    ghost view = { λ l. held_of l.state };

    ghost invariant = { λ l. IsKept l.state };
}

/// What records make of a live mailbox: it takes no memory to show it. Contracts see which rows it
/// puts in the place of which and how many of them are new, or the records that it applies to the
/// rows where they stand; and the UIDs that are touched.
#[derive(Drop)]
pub struct Prepared {
    way: Way,
}

impl Model for Prepared {
    ghost use Rattle.dv_apply.specs.Preparing.{Ready};

    ghost Value = { Ready };

    ghost view = { λ p. p.way };
}

impl Prepared {
    /// The UIDs of which a session is to be told once it is shown. Takes no memory.
    pub fn touched(&self) -> &Touched
        ensures { (live : Held) (after : Mailbox) → Makes live self.now after → (uid : ℕ) →
            Contains result.now uid ↔ IsTouched live.mailbox after uid }
    {
        self.way.touched()
    }
}

impl Live {
    /// A mailbox that never had a message. Takes no memory.
    pub fn empty(alloc: Global, uid_validity: u32) -> Live
        ensures { result
            ≡ record { mailbox = empty_mailbox uid_validity; spare = 0; hidden = [] } }
    {
        Live {
            state: empty_state(alloc, uid_validity),
        }
    }

    /// This mailbox, with no spare row. `NoMemory` is also the answer where its keywords are too
    /// many to be counted.
    pub fn of(alloc: Global, m: Mailbox) -> Result<Live, NoMemory>
        requires { IsValid m }
        ensures { IfOk result (λ made. made ≡ record { mailbox = m; spare = 0; hidden = [] }) }
    {
        let state = state_of(alloc, m)?;
        Ok(Live { state })
    }

    /// A copy of the mailbox. `NoMemory` is the only error.
    pub fn mailbox(&self, alloc: Global) -> Result<Mailbox, NoMemory>
        ensures made { IfOk result (λ made. made ≡ self.now.mailbox) }
        ensures valid { IsValid self.now.mailbox }
    {
        mailbox(&self.state, alloc)
    }

    /// An equal mailbox, with no spare row. `NoMemory` is the only error.
    pub fn copy(&self, alloc: Global) -> Result<Live, NoMemory>
        ensures { IfOk result (λ made. made
            ≡ record { mailbox = self.now.mailbox; spare = 0; hidden = [] }) }
    {
        let mailbox = self.mailbox(alloc)?;
        Live::of(alloc, mailbox)
    }

    /// Applies a record of the log (Dovecot's `mail-transaction-log.h`). `BadAppend` is the answer
    /// exactly where a row of an append has a UID below the UIDNEXT that the rows before it leave;
    /// it names the first such row. After an error all is as before. An append of at most the spare
    /// rows, an expunge, a flag update, a header update, a keyword reset, an introduction that
    /// leaves the extensions as they are, and a reset or an update of an extension's header or rows
    /// need no memory: several ranges are joined where there is some, else taken one by one.
    pub fn apply(&mut self, r: &Record) -> Result<(), ApplyFault>
        requires { IsRecord r.now }
        // What is applied has the record's effect.
        ensures ok { OnOk result (after_record self.old.mailbox r.now ≡ Some self.new.mailbox) }
        // A named row is the first that is refused.
        ensures bad { OnBadAppend result (λ refused. refused_row self.old.mailbox r.now.body
            ≡ Some refused) }
        // A refused row is named.
        ensures refused { (refused : Refused) →
            refused_row self.old.mailbox r.now.body ≡ Some refused →
            result ≡ Err (fault.BadAppend refused.uid refused.next_uid) }
        // Nothing that is shown changes by an error.
        ensures err { OnErr result (shown_in self.new ≡ shown_in self.old) }
        // Only appends use up spare rows, and introductions that change the parts of rows.
        ensures spare { OnOk result (self.new.spare
            ≡ spare_after self.old.mailbox.extensions self.old.spare r.now.body) }
        // Some records need no memory.
        ensures memory { TakesNone self.old.mailbox.extensions self.old.spare r.now.body →
            result ≡ Err fault.NoMemory → ⊥ }
    {
        if is_request(r) {
            pass(&mut self.state);
            return Ok(());
        }
        apply_body(&mut self.state, &r.body)
    }

    /// Takes all the memory that these records need, in time by the rows that they name, and leaves
    /// the mailbox as it is. `BadAppend` names the first refused row of the first refused record,
    /// before any memory is taken. Where new rows come, as many are spare.
    pub fn prepare(&mut self, records: &[Record]) -> Result<Prepared, ApplyFault>
        requires { All IsRecord records.now }
        ensures mailbox { self.new.mailbox ≡ self.old.mailbox }
        // What is prepared makes of the mailbox what the records make of it.
        ensures ok { IfOk result (λ prepared.
            IsSomeAnd (applied self.old.mailbox records.now) (Makes self.new prepared)) }
        ensures bad { OnBadAppend result (IsRefused self.old.mailbox records.now) }
        // A refused row is named before any memory is taken.
        ensures refused { (refused : Refused) → IsRefused self.old.mailbox records.now refused →
            result ≡ Err (fault.BadAppend refused.uid refused.next_uid) }
        ensures spare { IfOk result (λ prepared. self.new.spare
            ≡ max (appended_by prepared) self.old.spare) }
        ensures err { OnErr result (self.new.spare ≡ self.old.spare) }
    {
        let way = match prepare(&mut self.state, records) {
            Ok(way) => way,
            Err(e) => return Err(e),
        };
        Ok(Prepared { way })
    }

    /// Shows what was prepared from this mailbox, which hasn't changed since, and hands out the
    /// UIDs of which a session is to be told. Takes no memory.
    pub fn complete(&mut self, prepared: Prepared) -> Touched
        requires { IsPrepared self.old prepared }
        ensures is { (after : Mailbox) → Makes self.old prepared after →
            self.new.mailbox ≡ after }
        ensures touched { (uid : ℕ) →
            Contains result uid ↔ IsTouched self.old.mailbox self.new.mailbox uid }
        // New rows use up spare ones, and other sizes of rows' parts leave none.
        ensures spare { self.new.spare
            ≡ (if have_sizes self.old.mailbox.extensions self.new.mailbox.extensions
            then self.old.spare - appended_by prepared else 0) }
    {
        let Prepared { way } = prepared;
        complete(&mut self.state, way)
    }

    /// Applies a record as `apply` does, and adds the UIDs that it touches to others. It takes
    /// memory, but names a refused row without. After a fault the mailbox, the spare rows and the
    /// UIDs are as before.
    pub fn apply_touched(&mut self, r: &Record, touched: &mut Touched) -> Result<(), ApplyFault>
        requires { IsRecord r.now }
        ensures ok { OnOk result (after_record self.old.mailbox r.now ≡ Some self.new.mailbox) }
        ensures bad { OnBadAppend result (λ refused. refused_row self.old.mailbox r.now.body
            ≡ Some refused) }
        ensures refused { (refused : Refused) →
            refused_row self.old.mailbox r.now.body ≡ Some refused →
            result ≡ Err (fault.BadAppend refused.uid refused.next_uid) }
        ensures err { OnErr result (shown_in self.new ≡ shown_in self.old) }
        ensures touched { OnOk result ((uid : ℕ) →
            Contains touched.new uid ↔ (Contains touched.old uid
            ⊎ IsTouched self.old.mailbox self.new.mailbox uid)) }
        ensures untouched { OnErr result (touched.new ≡ touched.old) }
    {
        apply_touched(&mut self.state, r, touched)
    }

    /// Makes the number of spare rows at least this. After `NoMemory` all is as before.
    pub fn reserve(&mut self, n: u32) -> Result<(), NoMemory>
        ensures mailbox { self.new.mailbox ≡ self.old.mailbox }
        ensures ok { OnOk result (self.new.spare ≡ max n self.old.spare) }
        ensures err { OnErr result (self.new ≡ self.old) }
        ensures succeeds { n ≤ self.old.spare → result ≡ Ok tt }
    {
        appends::reserve(&mut self.state, n)
    }

    /// Raises the highest modification sequence to a number, where it is lower.
    pub fn raise(&mut self, n: u64)
        requires { n ≤ last_modseq }
        ensures mailbox { self.new.mailbox
            ≡ record self.old.mailbox { highest = max self.old.mailbox.highest n } }
        ensures spare { self.new.spare ≡ self.old.spare }
    {
        raise(&mut self.state, n);
    }

    /// The number of rows.
    pub fn count(&self) -> u32
        ensures { result ≡ length self.now.mailbox.rows }
    {
        self.state.rows.count()
    }

    /// The row at a place, counted from 0.
    pub fn row(&self, k: u32) -> &Row
        requires { k < length self.now.mailbox.rows }
        ensures { slice_get self.now.mailbox.rows k ≡ Some result.now }
    {
        self.state.rows.row(k)
    }

    /// The place of the row with this UID.
    pub fn position(&self, uid: u32) -> Option<u32>
        ensures { result ≡ position (λ row. nat_eq row.uid uid) self.now.mailbox.rows }
    {
        self.state.rows.position(uid)
    }

    /// The UIDNEXT.
    pub fn next_uid(&self) -> u32
        ensures is { result ≡ self.now.mailbox.next_uid }
        ensures valid { IsValid self.now.mailbox }
    {
        self.state.next_uid
    }

    /// The UIDVALIDITY.
    pub fn uid_validity(&self) -> u32
        ensures { result ≡ self.now.mailbox.uid_validity }
    {
        self.state.uid_validity
    }

    /// The highest modification sequence (RFC 7162, section 3.1.2.1).
    pub fn highest(&self) -> u64
        ensures { result ≡ self.now.mailbox.highest }
    {
        self.state.highest
    }

    /// How many rows have the flag Seen.
    pub fn seen(&self) -> u32
        ensures { result ≡ flag_count 8 self.now.mailbox.rows }
    {
        self.state.rows.seen()
    }

    /// How many rows have the flag Deleted.
    pub fn deleted(&self) -> u32
        ensures { result ≡ flag_count 4 self.now.mailbox.rows }
    {
        self.state.rows.deleted()
    }

    /// The keyword names.
    pub fn names(&self) -> &Table
        ensures { result.now.names ≡ self.now.mailbox.keywords }
    {
        &self.state.names
    }

    /// The extensions, and the current one.
    pub fn extensions(&self) -> &Extensions
        ensures { result.now ≡ record {
          extensions = self.now.mailbox.extensions;
          current = self.now.mailbox.current;
        } }
    {
        &self.state.extensions
    }
}
