ghost use Rattle.std.specs.Prelude.{◌≡◌};
ghost use Rattle.dv_shelf.specs.Causes.{HasCause};
ghost use Rattle.dv_shelf.specs.declared.shelf.Name.TheVariants as name;
ghost use Rattle.dv_chain.specs.Rest.{Nothing, Rests};
ghost use Rattle.dv_files.specs.Leavings.{IsPut, Leaves, Puts};
ghost use Rattle.dv_files.specs.Quiet.{StaysAtRest};
ghost use Rattle.dv_files.specs.Texts.{IsSnapshotOf};

use crate::storing::put;
use dv_chain::Chain;
use dv_model::Bytes;
use dv_shelf::{Failed, Name, Shelf};

/// Replaces the index by the snapshot of a chain as it is. Takes no memory. After `Failed` the
/// index is the old one or the snapshot. A crash at any moment leaves a folder that opens to the
/// chain's mailbox at its place.
pub fn checkpoint<S: Shelf>(chain: &Chain, shelf: &mut S, text: &Bytes) -> Result<(), Failed>
    requires text { IsSnapshotOf chain.now text.now }
    // The files, and what a crash leaves of them, afterwards and at any moment.
    ensures leaves { S.sees.tells → Leaves S.sees
        (Puts name.Index text.now result) (IsPut name.Index text.now) shelf.old shelf.new }
    // What is left opens to the same; from rest to rest.
    ensures quiet { S.sees.tells → Rests S.sees Nothing chain.now shelf.old →
        StaysAtRest S.sees chain.now shelf.old shelf.new }
    // No message file is read; an error has its cause.
    ensures mail_reads { S.sees.mail_reads shelf.new ≡ S.sees.mail_reads shelf.old }
    ensures cause { HasCause (S.sees.fault_count shelf.old) (S.sees.fault_count shelf.new) result }
{
    put(shelf, Name::Index, text)
}
