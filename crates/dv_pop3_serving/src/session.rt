//! One session of a keeper.

ghost use Rattle.std.specs.Prelude.{◌≡◌, ◌≤◌, ◌<◌, ◌^◌, [], length};
ghost use Rattle.dv_keeper.specs.Sessions.{AreNewSessions};
ghost use Rattle.dv_serving.specs.Faults.{faults_between};
ghost use Rattle.dv_serving.specs.Outputs.{output_of};
ghost use Rattle.dv_shared.specs.Beginning.{Begins};
ghost use Rattle.dv_pop3_serving.specs.Ends.{IsCaused};
ghost use Rattle.dv_pop3_serving.specs.Serves.{ServesSession};

use crate::ending::{PopEnd, Served, conclude, ended};
use dv_keeper::Keeper;
use dv_maildrop::PopLines;
use dv_member::Session;
use dv_naming::{Keeping, Names, Tally};
use dv_pop3::serve;
use dv_shelf::{Clock, Shelf, Sink};
use dv_store::Store;
use dv_threads::folder_laws;
use std::alloc::Global;
use std::sync::Wait;

/// Serves the lines by the one session of a keeper, and hands it in.
fn serve_session<S: Shelf, C: Clock, K: Keeping, L: Tally, M: Tally, O: Sink, R: Wait>(
    rt: &R,
    alloc: Global,
    keeper: Keeper<S, C, K, L, M>,
    sessions: Vec<Session<K, L, M>>,
    lines: PopLines<'_>,
    out: &mut O,
) -> Served<S, C>
    requires one { length sessions.items ≡ 1 }
    requires new { AreNewSessions K.start 1 sessions.items }
    requires ledgers { (L.parts ≡ 1) × (M.parts ≡ 1) × (K.count < 2 ^ 64) }
    ensures serves { K.honest → ServesSession S.sees C.sees.tells K.start K.moment K.past
        (faults_between K.count (S.sees.fault_count result.shelf)) lines.entry result.end
        (output_of O.sees out.old out.new) result.shelf }
    ensures cause { IsCaused (O.sees.fault_count out.old) (O.sees.fault_count out.new)
        result.end }
    ensures later { (K.count ≤ S.sees.fault_count result.shelf)
        × (O.sees.fault_count out.old ≤ O.sees.fault_count out.new) }
{
    folder_laws::<S>();
    let mut sessions = sessions;
    let Some(session) = sessions.pop() else {
        unreachable!();
    };
    let (last, came) = serve(alloc, rt, &keeper, session, lines, out);
    sessions.push_reserved(last);
    let (store, groups) = keeper.close(sessions);
    conclude(store, groups, came)
}

/// Makes a keeper with one session, and serves the lines by it.
pub(crate) fn serve_named<S: Shelf, C: Clock, K: Keeping, L: Tally, M: Tally, O: Sink, R: Wait>(
    rt: &R,
    alloc: Global,
    names: Names,
    store: Store<S, C>,
    start_count: u64,
    lines: PopLines<'_>,
    out: &mut O,
) -> Served<S, C>
    requires names { (names.roll.table ≡ K.roll) × (names.roll.items ≡ [])
        × (names.writes.name ≡ L.name) × (names.refusals.name ≡ M.name) }
    requires ledgers { (names.writes.parts ≡ L.parts) × (names.refusals.parts ≡ M.parts)
        × (L.parts ≡ 1) × (M.parts ≡ 1) }
    requires begins { Begins S.sees K.start K.moment K.past K.honest store }
    requires count { (start_count ≡ K.count) × (K.count ≤ S.sees.fault_count store.shelf) }
    ensures serves { K.honest → ServesSession S.sees C.sees.tells K.start K.moment K.past
        (faults_between K.count (S.sees.fault_count result.shelf)) lines.entry result.end
        (output_of O.sees out.old out.new) result.shelf }
    ensures cause { IsCaused (O.sees.fault_count out.old) (O.sees.fault_count out.new)
        result.end }
    ensures later { (start_count ≤ S.sees.fault_count result.shelf)
        × (O.sees.fault_count out.old ≤ O.sees.fault_count out.new) }
{
    folder_laws::<S>();
    match Keeper::<S, C, K, L, M>::new(alloc, names, store, start_count, 1) {
        Ok((keeper, sessions)) => serve_session(rt, alloc, keeper, sessions, lines, out),
        Err((store, _)) => ended(store, PopEnd::NoMemory),
    }
}
