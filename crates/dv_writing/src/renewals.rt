//! The index and the cache file of a check.

ghost use Rattle.std.specs.Prelude.{◌≡◌};
ghost use Rattle.dv_model.specs.Journals.{Log};
ghost use Rattle.dv_shelf.specs.Causes.{HasCause};
ghost use Rattle.dv_shelf.specs.declared.shelf.Name.TheVariants as name;
ghost use Rattle.dv_files.specs.Leavings.{IsPut, Leaves, Puts};
ghost use Rattle.dv_files.specs.Texts.{IsSnapshotOf};
ghost use Rattle.dv_writing.specs.Debts.{Nothing, Stands};
ghost use Rattle.dv_writing.specs.Quiet.{IsQuiet};
ghost use Rattle.dv_writing.specs.Renewals.{IsCacheOf, IsRenewing, Renews};

use dv_chain::Chain;
use dv_files::checkpoint;
use dv_model::Bytes;
use dv_shelf::{Failed, Name, Shelf};

/// Replaces the cache file.
fn put_cache<S: Shelf>(shelf: &mut S, text: &Bytes) -> Result<(), Failed>
    ensures leaves { S.sees.tells → Leaves S.sees
        (Puts name.Cache text.now result) (IsPut name.Cache text.now) shelf.old shelf.new }
    ensures mail_reads { S.sees.mail_reads shelf.new ≡ S.sees.mail_reads shelf.old }
    ensures cause { HasCause (S.sees.fault_count shelf.old) (S.sees.fault_count shelf.new) result }
{
    shelf.replace(Name::Cache, text.as_slice())
}

/// Replaces the index by the snapshot of the chain as it is, and then the cache file by that of the
/// mailbox's messages. Takes no memory. After `Failed` none of them was replaced, the index alone,
/// or both.
pub fn renew<S: Shelf>(
    chain: &Chain,
    shelf: &mut S,
    index: &Bytes,
    cache: &Bytes,
) -> Result<(), Failed>
    requires index { IsSnapshotOf chain.now index.now }
    // Both files, in this order; every other file stays.
    ensures leaves { S.sees.tells → Leaves S.sees
        (Renews index.now cache.now result) (IsRenewing index.now cache.now)
        shelf.old shelf.new }
    // What the folder gives stays, at any moment.
    ensures quiet { S.sees.tells → (log : Log) →
        Stands S.sees log Nothing chain.now shelf.old →
        IsCacheOf log chain.now.live.mailbox cache.now →
        IsQuiet S.sees log chain.now shelf.old shelf.new }
    // No message file is read; an error has its cause.
    ensures mail_reads { S.sees.mail_reads shelf.new ≡ S.sees.mail_reads shelf.old }
    ensures cause { HasCause (S.sees.fault_count shelf.old) (S.sees.fault_count shelf.new) result }
{
    checkpoint(chain, shelf, index)?;
    put_cache(shelf, cache)
}
