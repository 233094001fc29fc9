ghost use Rattle.std.specs.Prelude.{◌≡◌, ◌≤◌, All, IfOk, true};
ghost use Rattle.dv_model.specs.Spelling.{IsRecord};
ghost use Rattle.dv_search.specs.Nesting.{levels_of, most_levels};
ghost use Rattle.dv_live.specs.Laws.{IsOf};
ghost use Rattle.dv_live.specs.Steadiness.{steady};

use crate::fault::Fault;
use crate::records::apply;
use crate::timing::Behind;
use dv_apply::Live;
use dv_live::{Saved, keep_up};
use dv_model::{Key, Record};
use std::alloc::Global;
use std::time::Instant;

// The flag that the search asks for.
const FLAGGED: u8 = 2;

// The messages with the flag Flagged.
fn flagged() -> Key
    ensures steady { steady result ≡ true }
    ensures shallow { levels_of result ≤ most_levels }
{
    Key::Has(FLAGGED)
}

// The search of these messages, kept of the mailbox.
fn kept(alloc: Global, live: &Live) -> Result<Saved, Fault>
    ensures { IfOk result (λ saved. IsOf saved live.now.mailbox) }
{
    match Saved::new(alloc, flagged(), live) {
        Ok(saved) => Ok(saved),
        Err((_, e)) => Err(Fault::from(e)),
    }
}

// Applies them in turn, and the search follows each.
fn follow_all(
    rt: HostRuntime,
    live: &mut Live,
    records: &[Record],
    saved: &mut Saved,
) -> Result<Behind, Fault>
    requires entries { All IsRecord records.now }
    requires kept { IsOf saved.old live.old.mailbox }
{
    let start = Instant::now(&rt)?;
    for record in records {
        let touched = apply(rt.alloc(), live, record)?;
        keep_up(rt.alloc(), saved, live, &touched)?;
    }
    Ok(Behind {
        micros: start.elapsed(&rt)?.as_micros(),
        count: saved.uids().len(),
    })
}

/// Applies them in turn, while a kept search for messages with the flag Flagged follows each, and
/// gives how many it finds in the end.
pub fn time_kept(rt: HostRuntime, live: &mut Live, records: &[Record]) -> Result<Behind, Fault>
    requires { All IsRecord records.now }
{
    let mut saved = kept(rt.alloc(), live)?;
    follow_all(rt, live, records, &mut saved)
}
