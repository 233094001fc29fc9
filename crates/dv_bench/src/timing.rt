ghost use Rattle.std.specs.Prelude.{All};
ghost use Rattle.dv_model.specs.Spelling.{IsRecord};

use crate::fault::Fault;
use crate::kept::time_kept;
use crate::sessions::time_sessions;
use dv_apply::Live;
use dv_model::Record;
use dv_touched::Touched;
use std::time::Instant;

/// What is done with the records that don't come first.
#[derive(Clone, Copy)]
pub enum Way {
    /// They are applied.
    Alone,
    /// The UIDs that they touch are handed out.
    Touched,
    /// Four sessions are told of each.
    Sessions,
    /// A kept search follows each.
    Kept,
}

/// How many microseconds the records took that don't come first, and how many lines the sessions
/// were told, or messages the search found.
#[derive(Clone, Copy)]
pub struct Behind {
    pub micros: u128,
    pub count: usize,
}

/// How many microseconds the first records took, and what came of the others.
#[derive(Clone, Copy)]
pub struct Times {
    pub first: u128,
    pub others: Behind,
}

// Applies them in turn, and gives the microseconds that it took.
fn apply_all(rt: HostRuntime, live: &mut Live, records: &[Record]) -> Result<u128, Fault>
    requires { All IsRecord records.now }
{
    let start = Instant::now(&rt)?;
    for record in records {
        live.apply(record)?;
    }
    Ok(start.elapsed(&rt)?.as_micros())
}

// Applies them in turn, each with the UIDs that it touches.
fn touch_all(rt: HostRuntime, live: &mut Live, records: &[Record]) -> Result<u128, Fault>
    requires { All IsRecord records.now }
{
    let start = Instant::now(&rt)?;
    for record in records {
        let mut touched = Touched::empty(rt.alloc());
        live.apply_touched(record, &mut touched)?;
    }
    Ok(start.elapsed(&rt)?.as_micros())
}

fn time_behind(
    rt: HostRuntime,
    live: &mut Live,
    records: &[Record],
    way: Way,
) -> Result<Behind, Fault>
    requires { All IsRecord records.now }
{
    let micros = match way {
        Way::Alone => apply_all(rt, live, records)?,
        Way::Touched => touch_all(rt, live, records)?,
        Way::Sessions => return time_sessions(rt, live, records),
        Way::Kept => return time_kept(rt, live, records),
    };
    Ok(Behind { micros, count: 0 })
}

fn time_both(
    rt: HostRuntime,
    live: &mut Live,
    records: &[Record],
    first: usize,
    way: Way,
) -> Result<Times, Fault>
    requires { All IsRecord records.now }
{
    let (front, behind) = records.split_at(first.min(records.len()));
    let first = apply_all(rt, live, front)?;
    let others = time_behind(rt, live, behind, way)?;
    Ok(Times { first, others })
}

/// Applies them all to a new mailbox; the first so many of them, where there are as many, are timed
/// alone. The way is that of the others.
pub fn time_records(
    rt: HostRuntime,
    records: &[Record],
    first: usize,
    way: Way,
) -> Result<Times, Fault>
    requires { All IsRecord records.now }
{
    let mut live = Live::empty(rt.alloc(), 1);
    time_both(rt, &mut live, records, first, way)
}
