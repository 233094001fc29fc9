ghost use Rattle.std.specs.Prelude.{◌≡◌, ◌≤◌, IfErr, IfOk, OnErr, OnOk, drop, length, map, option_map, true, unwrap_or};
ghost use Rattle.dv_model.specs.declared.types.Key.{Key as Searched};
ghost use Rattle.dv_model.specs.Mailboxes.{IsValid};
ghost use Rattle.dv_model.specs.Views.{shown};
ghost use Rattle.dv_search.specs.Nesting.{levels_of, most_levels};
ghost use Rattle.dv_search.specs.Sought.{IsReady};
ghost use Rattle.dv_view.specs.Following.{AreGiven};
ghost use Rattle.dv_live.specs.Groups.{Followed};
ghost use Rattle.dv_live.specs.Keeping.{MayFollow, found_uids};
ghost use Rattle.dv_live.specs.Laws.{IsOf};
ghost use Rattle.dv_live.specs.Steadiness.{steady};
ghost use Rattle.dv_live.specs.Turning.{RiseFrom, turned, verdict_of};

use crate::merging::{add_met, turned};
use crate::verdicts::{Verdict, is_met, verdicts_of};
use dv_keywords::Table;
use dv_model::{Bytes, Duplicate, Fresh, Key, List, NoMemory};
use dv_search::Sought;
use dv_view::{Live, shown};
use std::alloc::Global;
use std::marker::Model;

/// A search whose result is kept, and follows the mailbox by the rows that are told of. Contracts
/// see its key, the UIDs that are found, and the mailbox's keyword names.
#[derive(Drop)]
pub struct Saved {
    alloc: Global,
    key: Key,
    // The key made ready.
    sought: Sought,
    uids: List<u32>,
    names: Vec<Bytes>,
}

impl Model for Saved {
    ghost use Rattle.std.specs.Coded.{codes};
    ghost use Rattle.dv_model.specs.contracts.types.Key as key_type;
    ghost use Rattle.dv_live.specs.Keeping.{KeptSearch};
    ghost use Rattle.dv_live.specs.Turning.{IsKept};

    ghost Value = { KeptSearch };

    ghost coded = { Prim.hlevel (codes, key_type.the_row.coded) };

    ghost view = { λ s. record { key = s.key; uids = s.uids; names = s.names.items } };

    ghost invariant = { λ s. IsKept s.key s.sought s.uids };
}

// The UIDs of the mailbox's rows that meet a key that was made ready.
fn found_in(alloc: Global, sought: &Sought, live: &Live) -> Result<List<u32>, NoMemory>
    ensures { (key : Searched) → IsReady key sought.now → steady key ≡ true →
        IfOk result (λ uids. uids ≡ found_uids key live.now.mailbox.keywords
        (map shown live.now.mailbox.rows)) }
{
    let names = live.names().names();
    let mut uids = Vec::new(alloc);
    for k in 0..live.count() {
        let row = shown(alloc, live.row(k))?;
        let met = is_met(alloc, sought, names, &row)?;
        add_met(&mut uids, Verdict { uid: row.uid, met })?;
    }
    Ok(List::from_vec(uids))
}

// Copies of the names of a table behind the first so many.
fn names_from(alloc: Global, names: &[Bytes], from: usize) -> Result<Vec<Bytes>, NoMemory>
    requires { from ≤ length names.now }
    ensures { IfOk result (λ made. made.items ≡ drop from names.now) }
{
    let (_, more) = names.split_at(from);
    let mut made = Vec::with_capacity(alloc, more.len())?;
    for name in more {
        made.push(name.duplicate(alloc)?)?;
    }
    Ok(made)
}

// What following leaves of the UIDs that are found, or nothing where they stay, and the names that
// are new.
fn followed(
    alloc: Global,
    sought: &Sought,
    uids: &[u32],
    known: usize,
    fresh: &[Fresh],
    names: &[Bytes],
) -> Result<(Option<Vec<u32>>, Vec<Bytes>), NoMemory>
    requires uids { RiseFrom 0 uids.now }
    requires given { AreGiven fresh.now }
    requires known { known ≤ length names.now }
    ensures uids { (key : Searched) → IsReady key sought.now → steady key ≡ true →
        IfOk result (λ x. unwrap_or (option_map (λ new. new.items) x.0) uids.now
        ≡ turned uids.now (map (verdict_of key names.now) fresh.now)) }
    ensures names { IfOk result (λ x. x.1.items ≡ drop known names.now) }
{
    let verdicts = verdicts_of(alloc, sought, names, fresh)?;
    let uids = turned(alloc, uids, &verdicts)?;
    let more = names_from(alloc, names, known)?;
    Ok((uids, more))
}

// Puts the UIDs in place of the old ones, where there are some.
fn put(uids: &mut List<u32>, made: Option<Vec<u32>>)
    ensures { uids.new ≡ unwrap_or (option_map (λ new. new.items) made) uids.old }
{
    if let Some(made) = made {
        *uids = List::from_vec(made);
    }
}

impl Saved {
    // The search, of a key that may be kept.
    fn start(
        alloc: Global,
        key: &Key,
        live: &Live,
    ) -> Result<(Sought, List<u32>, Vec<Bytes>), NoMemory>
        requires { levels_of key.now ≤ most_levels }
        ensures ready { IfOk result (λ x. IsReady key.now x.0) }
        ensures uids { steady key.now ≡ true → IfOk result (λ x. x.1
            ≡ found_uids key.now live.now.mailbox.keywords (map shown live.now.mailbox.rows)) }
        ensures names { IfOk result (λ x. x.2.items ≡ live.now.mailbox.keywords) }
        ensures valid { IsValid live.now.mailbox }
    {
        // A UIDNEXT is known of a valid mailbox alone.
        let _next = live.next_uid();
        let sought = Sought::of(alloc, key)?;
        let uids = found_in(alloc, &sought, live)?;
        let names = names_from(alloc, live.names().names(), 0)?;
        Ok((sought, uids, names))
    }

    /// What a key finds in the mailbox, to be kept. With `NoMemory`, which is the only error, the
    /// key is given back. The time is in proportion to the rows times the key.
    pub fn new(alloc: Global, key: Key, live: &Live) -> Result<Saved, (Key, NoMemory)>
        requires steady { steady key ≡ true }
        // Keys nest as deep as the grammar of a SEARCH lets them, so that the stack is short.
        requires shallow { levels_of key ≤ most_levels }
        ensures key { IfOk result (λ saved. saved.key ≡ key) }
        // It is kept of this mailbox.
        ensures kept { IfOk result (λ saved. IsOf saved live.now.mailbox) }
        ensures err { IfErr result (λ e. e.0 ≡ key) }
    {
        match Saved::start(alloc, &key, live) {
            Ok((sought, uids, names)) => Ok(Saved {
                alloc,
                key,
                sought,
                uids,
                names,
            }),
            Err(e) => Err((key, e)),
        }
    }

    /// Follows the mailbox by what it has now of some UIDs, with its keyword table. After
    /// `NoMemory`, which is the only error, all is as before. The time is that of the rows that are
    /// told of times the key, each UID found by halves; names that are known aren't copied, and the
    /// UIDs that are found are moved once where some come or leave.
    pub fn follow(&mut self, fresh: &List<Fresh>, names: &Table) -> Result<(), NoMemory>
        requires { MayFollow self.old fresh.now names.now.names }
        // It agrees with each list of rows with which it agreed, as they are told of now.
        ensures ok { OnOk result (Followed self.old self.new fresh.now names.now.names) }
        ensures err { OnErr result (self.new ≡ self.old) }
    {
        let (uids, mut more) = followed(
            self.alloc,
            &self.sought,
            self.uids.as_slice(),
            self.names.len(),
            fresh.as_slice(),
            names.names(),
        )?;
        self.names.append(&mut more)?;
        put(&mut self.uids, uids);
        Ok(())
    }

    /// The UIDs of the rows that the key finds, rising.
    pub fn uids(&self) -> &List<u32>
        ensures { result.now ≡ self.now.uids }
    {
        &self.uids
    }
}
