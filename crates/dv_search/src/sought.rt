ghost use Rattle.std.specs.Prelude.{◌≡◌, ◌≤◌, ℕ, List, Option, IfOk, false};
ghost use Rattle.std.specs.Option.{option_copied};
ghost use Rattle.dv_model.specs.declared.types.Key.{Key as Searched};
ghost use Rattle.dv_model.specs.Searches.{meets, needs_mail};
ghost use Rattle.dv_model.specs.Sessions.{candidate};
ghost use Rattle.dv_model.specs.Views.{View as Seen};
ghost use Rattle.dv_search.specs.Facts.{AreKnown, is_found};
ghost use Rattle.dv_search.specs.Nesting.{levels_of, most_levels};
ghost use Rattle.dv_search.specs.Sought.{IsReady, IsSought};
ghost use Rattle.dv_search.specs.Stars.{names_star, row_in};

use crate::facts::MailFacts;
use crate::keys::{Candidate, is_found, meets};
use crate::mail::needs_mail;
use crate::prepared::prepared;
use dv_model::{Bytes, Key, NoMemory, Shown};
use dv_sets::largest_uid;
use dv_view::{Live, View};
use std::alloc::Global;

/// A key made ready to be tried on the rows of a view, message by message.
#[derive(Drop)]
pub struct Sought {
    // The key, its sets by ranges that rise and are apart.
    key: Key,
    // Whether it reads messages.
    reads: bool,
}

impl Sought {
    /// Makes a key ready. `NoMemory` is the only error. The time is that of the key and of sorting
    /// its ranges.
    pub fn new(alloc: Global, k: &Key, v: &View) -> Result<Sought, NoMemory>
        // Keys nest as deep as the grammar of a SEARCH lets them, so that the stack is short.
        requires { levels_of k.now ≤ most_levels }
        ensures { IfOk result (IsSought k.now v.now) }
    {
        let reads = needs_mail(k);
        let key = prepared(alloc, k, largest_uid(v.rows().as_slice()))?;
        Ok(Sought { key, reads })
    }

    /// Whether a row of the view is found, by what is known of its message. Flags and keywords are
    /// as the view shows them, and names are those of the mailbox's table. Where the key needs
    /// mail, a row without facts isn't found. `NoMemory` is the only error. The time is in
    /// proportion to the key, with the values of its fields; each range of UIDs is found by halves.
    pub fn finds(
        &self,
        alloc: Global,
        live: &Live,
        shown: &Shown,
        facts: Option<&MailFacts>,
    ) -> Result<bool, NoMemory>
        // So it is for each key and view that it was made of, and for each message that has these
        // facts.
        ensures { (k : Searched) (view : Seen) → IsSought k view self.now
            → (message : Option (List ℕ)) → AreKnown k message (option_copied facts.entry)
            → IfOk result (λ found. found
            ≡ is_found k (candidate view live.now.mailbox shown.now) message) }
    {
        let c = Candidate {
            shown,
            names: live.names().names(),
            facts,
        };
        is_found(alloc, &self.key, &c, self.reads)
    }

    /// Makes a key ready for rows of any view, where no `*` stands in it. `NoMemory` is the only
    /// error. The time is that of the key and of sorting its ranges.
    pub fn of(alloc: Global, k: &Key) -> Result<Sought, NoMemory>
        // Keys nest as deep as the grammar of a SEARCH lets them, so that the stack is short.
        requires { levels_of k.now ≤ most_levels }
        ensures { IfOk result (IsReady k.now) }
    {
        let reads = needs_mail(k);
        let key = prepared(alloc, k, 0)?;
        Ok(Sought { key, reads })
    }

    /// Whether a row meets the key, by what is shown of it alone; the places of its keywords are
    /// read in these names. `NoMemory` is the only error. The time is in proportion to the key;
    /// each range of UIDs is found by halves.
    pub fn is_met_by<'a>(
        &self,
        alloc: Global,
        names: &'a [Bytes],
        shown: &'a Shown,
    ) -> Result<bool, NoMemory>
        // So it is for each key that it was made of in which no `*` stands and that reads no
        // messages, whatever the largest UID is.
        ensures { (k : Searched) → IsReady k self.now → needs_mail k ≡ false
            → names_star k ≡ false → (largest : ℕ) → IfOk result (λ met. met
            ≡ meets k (row_in names.now largest shown.now)) }
    {
        let c = Candidate {
            shown,
            names,
            facts: None,
        };
        meets(alloc, &self.key, &c)
    }
}
