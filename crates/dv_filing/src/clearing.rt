//! Message files that the map doesn't need are removed.

ghost use Rattle.std.specs.Prelude.{◌≡◌};
ghost use Rattle.dv_shelf.specs.Causes.{HasCause};
ghost use Rattle.dv_logfile.specs.Settling.{StaysSettled};
ghost use Rattle.dv_chain.specs.declared.chain.Chain.{Chain};
ghost use Rattle.dv_chain.specs.Rest.{Nothing};
ghost use Rattle.dv_files.specs.Writing.{IsSweeping, Sweeps};
ghost use Rattle.dv_files.specs.Leavings.{Leaves};
ghost use Rattle.dv_maps.specs.Texts.{Messages};
ghost use Rattle.dv_filing.specs.Clearing.{ClearsQuietly, Needs};
ghost use Rattle.dv_filing.specs.Standing.{Stands};

use dv_files::sweep;
use dv_shelf::{Failed, Shelf};

/// Removes message files, by their numbers in this order and by one remove each; one that isn't
/// there stays so. Nothing may be owed. Takes no memory. After `Failed` the first of them are gone,
/// of some or all. A crash at any moment leaves a folder that gives the map.
pub fn clear<S: Shelf>(shelf: &mut S, files: &[u32]) -> Result<(), Failed>
    // The files, and what a crash leaves of them, afterwards and at any moment.
    ensures leaves { S.sees.tells → Leaves S.sees
        (Sweeps files.now result) (IsSweeping files.now) shelf.old shelf.new }
    // From rest to rest, for a map that needs none of them.
    ensures quiet { S.sees.tells → (messages : Messages) (chain : Chain) →
        (Needs chain.live.mailbox files.now → ⊥) →
        Stands S.sees messages Nothing chain shelf.old →
        ClearsQuietly S.sees messages chain shelf.old shelf.new }
    ensures settled { S.sees.tells → StaysSettled S.sees shelf.old shelf.new }
    // No message file is read; an error has its cause.
    ensures mail_reads { S.sees.mail_reads shelf.new ≡ S.sees.mail_reads shelf.old }
    ensures cause { HasCause (S.sees.fault_count shelf.old) (S.sees.fault_count shelf.new) result }
{
    sweep(shelf, files)
}
