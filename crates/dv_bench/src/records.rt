ghost use Rattle.std.specs.Prelude.{All, IfOk};
ghost use Rattle.dv_model.specs.Spelling.{IsRecord};
ghost use Rattle.dv_answer.specs.Following.{Leads};
ghost use Rattle.dv_live.specs.Keeping.{KeptSearch};
ghost use Rattle.dv_live.specs.Laws.{Became, IsOf};

use crate::fault::Fault;
use dv_apply::Live;
use dv_model::Record;
use dv_records::decode;
use dv_touched::Touched;
use std::alloc::Global;

/// The records that these bytes hold one behind another.
pub fn read_all(alloc: Global, bytes: &[u8]) -> Result<Vec<Record>, Fault>
    ensures { IfOk result (λ records. All IsRecord records.items) }
{
    let mut records = Vec::new(alloc);
    let mut at = 0;
    // A record has at least one byte.
    for _ in 0..bytes.len() {
        if at >= bytes.len() {
            break;
        }
        let (record, behind) = decode(alloc, bytes, at)?;
        records.push(record)?;
        at = behind;
    }
    Ok(records)
}

/// Applies a record, and gives the UIDs that it touches.
pub fn apply(alloc: Global, live: &mut Live, r: &Record) -> Result<Touched, Fault>
    requires { IsRecord r.now }
    ensures leads { IfOk result (Leads live.old.mailbox live.new.mailbox) }
    ensures became { IfOk result (λ touched. (kept : KeptSearch) → IsOf kept live.old.mailbox →
        Became kept live.new.mailbox touched) }
{
    let mut touched = Touched::empty(alloc);
    // A UIDNEXT is known of a valid mailbox alone.
    let _before = live.next_uid();
    live.apply_touched(r, &mut touched)?;
    let _behind = live.next_uid();
    Ok(touched)
}
