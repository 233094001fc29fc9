ghost use Rattle.std.specs.Prelude.{◌≤◌};

use dv_model::List;
use dv_shelf::MemShelf;
use dv_tests_keeper::{Ask, Played, play};
use std::alloc::Global;
use std::sync::Wait;
use std::test::Fail;

// The room for what is written, in bytes.
const ROOM: u32 = 100_000_000;

// All of this is asked over a new folder of which nothing fails.
pub fn played<R: Wait>(
    rt: &R,
    alloc: Global,
    sessions: u32,
    asks: &[Ask<'_>],
) -> Result<Played, Fail>
    requires { (1 ≤ sessions) × (sessions ≤ 64) }
{
    let shelf = MemShelf::new(alloc, ROOM, List::new(alloc), None)?;
    match play(rt, alloc, shelf, sessions, asks, &[]) {
        Ok(played) => Ok(played),
        Err(_) => Err(Fail::from("not played")),
    }
}
