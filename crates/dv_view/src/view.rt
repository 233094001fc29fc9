ghost use Rattle.std.specs.Prelude.{◌≡◌, ◌≤◌, ℕ, List as Listed, length, nat_eq, position, IfOk, OnErr, OnOk};
ghost use Rattle.dv_model.specs.Fresh.{AreFresh};
ghost use Rattle.dv_model.specs.Mailboxes.{IsValid};
ghost use Rattle.dv_model.specs.Views.{empty_view, moved, said};
ghost use Rattle.dv_model.specs.declared.types.Step.TheVariants.{Full};
ghost use Rattle.dv_model.specs.declared.types.Mailbox.{Mailbox};
ghost use Rattle.dv_view.specs.Following.{IsPatched, rows_after};
ghost use Rattle.dv_view.specs.Orders.{IsOrdered};
ghost use Rattle.dv_view.specs.Taken.{HasTaken};

use crate::Replies;
use crate::following::follow;
use crate::moves::moved_rows;
use crate::places::place_of;
use crate::replies::add_said;
use crate::telling::add_said_by;
use dv_apply::Live;
use dv_keywords::Table;
use dv_model::{Fresh, List, NoMemory, Shown, Step};
use std::alloc::Global;
use std::marker::Model;
use std::mem;

/// The rows that a session was shown, by message number, and the UIDNEXT up to which it was told.
#[derive(Drop)]
pub struct View {
    alloc: Global,
    rows: List<Shown>,
    next_uid: u32,
}

impl Model for View {
    ghost use Rattle.dv_model.specs.Views.{View as ShownRows};
    ghost use Rattle.dv_view.specs.Orders.{IsOrdered};

    ghost Value = { ShownRows };

    ghost view = { λ v. record { rows = v.rows; next_uid = v.next_uid } };

    ghost invariant = { λ v. IsOrdered (record { rows = v.rows; next_uid = v.next_uid }) };
}

impl View {
    /// Nothing was shown yet. Takes no memory.
    pub fn empty(alloc: Global) -> View
        ensures { result ≡ empty_view }
    {
        View {
            alloc,
            rows: List::new(alloc),
            next_uid: 1,
        }
    }

    /// What a session is shown of a whole mailbox. `NoMemory` is the only error. The time is in
    /// proportion to the rows.
    pub fn of(alloc: Global, live: &Live) -> Result<View, NoMemory>
        ensures made { IfOk result (λ made. made ≡ moved Full empty_view live.now.mailbox) }
        ensures valid { IsValid live.now.mailbox }
    {
        let next_uid = live.next_uid();
        let rows = moved_rows(alloc, live, &[], 1, Step::Full)?;
        Ok(View {
            alloc,
            rows,
            next_uid,
        })
    }

    /// The rows: the k-th has message number k, counted from 1.
    pub fn rows(&self) -> &List<Shown>
        ensures is { result.now ≡ self.now.rows }
        ensures ordered { IsOrdered self.now }
    {
        &self.rows
    }

    /// The UIDNEXT up to which the session was told.
    pub fn next_uid(&self) -> u32
        ensures { result ≡ self.now.next_uid }
    {
        self.next_uid
    }

    /// The place of the row with this UID, counted from 0, found by halves.
    pub fn position(&self, uid: u32) -> Option<usize>
        ensures { result ≡ position (λ s. nat_eq s.uid uid) self.now.rows }
    {
        place_of(self.rows.as_slice(), uid)
    }

    /// Moves on to a mailbox, and adds what the session is told of it. After `NoMemory`, which is
    /// the only error, the view is as before, and some of it may have been added. The time is in
    /// proportion to the rows of both.
    pub fn advance<R: Replies>(
        &mut self,
        live: &Live,
        step: Step,
        replies: &mut R,
    ) -> Result<(), NoMemory>
        // The mailbox isn't older than the view.
        requires later { self.old.next_uid ≤ live.now.mailbox.next_uid }
        // The view moves by the step, and exactly that is said.
        ensures view { OnOk result (self.new ≡ moved step self.old live.now.mailbox) }
        ensures said { OnOk result (replies.new ≡ R.with replies.old
            (said live.now.mailbox self.old (moved step self.old live.now.mailbox))) }
        ensures err { OnErr result (self.new ≡ self.old) }
        // What was said before is kept.
        ensures replies { OnErr result (HasTaken R.with replies.old replies.new) }
    {
        let next_uid = live.next_uid();
        let rows = moved_rows(self.alloc, live, self.rows.as_slice(), self.next_uid, step)?;
        add_said(
            self.alloc,
            live.names(),
            self.rows.as_slice(),
            rows.as_slice(),
            replies,
        )?;
        self.rows = rows;
        self.next_uid = next_uid;
        Ok(())
    }

    /// Adds what the session is told of changes that are given by UID. The view stays. After
    /// `NoMemory`, which is the only error, some of it may have been added. The time is in
    /// proportion to the changes.
    pub fn add_said_by<R: Replies>(
        &self,
        next_uid: u32,
        fresh: &List<Fresh>,
        names: &Table,
        step: Step,
        replies: &mut R,
    ) -> Result<(), NoMemory>
        requires { AreFresh self.now next_uid (length names.now.names) fresh.now }
        // To whatever mailbox the changes lead, just the view's move to it is said.
        ensures said { OnOk result ((m : Mailbox)
            → IsPatched self.now next_uid names.now.names fresh.now m
            → replies.new ≡ R.with replies.old (said m self.now (moved step self.now m))) }
        // What was said before is kept.
        ensures replies { HasTaken R.with replies.old replies.new }
    {
        add_said_by(
            self.alloc,
            names,
            self.rows.as_slice(),
            fresh.as_slice(),
            step,
            replies,
        )
    }

    /// Moves on by changes that are given by UID. After `NoMemory`, which is the only error, the
    /// view is as before. The rows that are given are moved, not copied. The time is in proportion
    /// to the changes; only where a row leaves are all rows gone through.
    pub fn follow(&mut self, next_uid: u32, fresh: List<Fresh>, step: Step) -> Result<(), NoMemory>
        requires { (names : ℕ) × AreFresh self.old next_uid names fresh }
        // The rows are the old ones with the changes of which the step tells.
        ensures rows { OnOk result (self.new ≡ record {
          rows = rows_after step self.old.rows fresh;
          next_uid = next_uid;
        }) }
        // To whatever mailbox the changes lead, the view moves by the step.
        ensures view { OnOk result ((names : Listed (Listed ℕ)) (m : Mailbox)
            → IsPatched self.old next_uid names fresh m
            → self.new ≡ moved step self.old m) }
        ensures err { OnErr result (self.new ≡ self.old) }
    {
        let mut rows = mem::replace(&mut self.rows, List::new(self.alloc)).into_vec();
        let followed = follow(&mut rows, self.next_uid, fresh.into_vec(), step);
        self.rows = List::from_vec(rows);
        followed?;
        self.next_uid = next_uid;
        Ok(())
    }

    /// Moves on by changes that are given by UID, without a look at the mailbox, and adds what the
    /// session is told of it, as `add_said_by` and `follow` do. After `NoMemory`, which is the only
    /// error, the view is as before, and some of it may have been added.
    pub fn advance_by<R: Replies>(
        &mut self,
        next_uid: u32,
        fresh: List<Fresh>,
        names: &Table,
        step: Step,
        replies: &mut R,
    ) -> Result<(), NoMemory>
        requires { AreFresh self.old next_uid (length names.now.names) fresh }
        // The rows are the old ones with the changes of which the step tells.
        ensures rows { OnOk result (self.new ≡ record {
          rows = rows_after step self.old.rows fresh;
          next_uid = next_uid;
        }) }
        // To whatever mailbox the changes lead, the view moves by the step, and just that is said.
        ensures view { OnOk result ((m : Mailbox)
            → IsPatched self.old next_uid names.now.names fresh m
            → self.new ≡ moved step self.old m) }
        ensures said { OnOk result ((m : Mailbox)
            → IsPatched self.old next_uid names.now.names fresh m
            → replies.new ≡ R.with replies.old (said m self.old (moved step self.old m))) }
        ensures err { OnErr result (self.new ≡ self.old) }
        // What was said before is kept.
        ensures replies { OnErr result (HasTaken R.with replies.old replies.new) }
    {
        self.add_said_by(next_uid, &fresh, names, step, replies)?;
        self.follow(next_uid, fresh, step)
    }
}
