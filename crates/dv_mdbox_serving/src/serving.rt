//! The calls of a script, served one after another.

ghost use Rattle.std.specs.Prelude.{◌≤◌, ℕ, List, []};
ghost use Rattle.dv_logfile.specs.Settling.{StaysSettled};
ghost use Rattle.dv_maps.specs.Storages as storages;
ghost use Rattle.dv_mdbox_lines.specs.Playing.{Tried};
ghost use Rattle.dv_mdbox_lines.specs.Views.{calls_left, said};
ghost use Rattle.dv_serving.specs.Faults.{faults_between};
ghost use Rattle.dv_serving.specs.Outputs.{output_of};
ghost use Rattle.dv_mdbox_serving.specs.Calls.{IsCaused, RunsCall};
ghost use Rattle.dv_mdbox_serving.specs.Following.{Follows};
ghost use Rattle.dv_mdbox_serving.specs.Runs.{Serves, end_behind};

use crate::CallEnd;
use crate::calls::answer_call;
use dv_mdbox::Storage;
use dv_mdbox_lines::{Call, Calls};
use dv_shelf::{Clock, Shelf, Sink};

/// Makes the call of a line, and writes its answer.
fn serve_call<S: Shelf, C: Clock, O: Sink>(
    storage: &mut Storage<S, C>,
    call: Call<'_>,
    out: &mut O,
) -> Result<(), CallEnd>
    // It comes behind others by the storage's rules, and its answer is written.
    ensures runs { S.sees.tells → (start : storages.Storage) (base : ℕ) (calls : List Tried) →
        Follows S.sees start base calls storage.old →
        RunsCall S.sees start base calls (said call.entry) result (output_of O.sees out.old out.new)
        storage.old storage.new }
    ensures settled { S.sees.tells → StaysSettled S.sees storage.old.shelf storage.new.shelf }
    // The counts of faults never fall, and an output that failed has its cause.
    ensures later { S.sees.fault_count storage.old.shelf ≤ S.sees.fault_count storage.new.shelf }
    ensures sink { O.sees.fault_count out.old ≤ O.sees.fault_count out.new }
    ensures cause { IsCaused (O.sees.fault_count out.old) (O.sees.fault_count out.new) result }
{
    let answer = answer_call(storage, call)?;
    match answer.write_to(out) {
        Ok(()) => Ok(()),
        Err(_) => Err(CallEnd::Sink(out.faults())),
    }
}

/// Serves the calls of a storage's script, one after another, until memory or the output ends the
/// run. The answer to each is written before the next one is made.
pub fn serve_calls<S: Shelf, C: Clock, O: Sink>(
    storage: &mut Storage<S, C>,
    calls: &mut Calls<'_>,
    out: &mut O,
) -> Result<(), CallEnd>
    // Each call comes behind those before it by the storage's rules, up to the one that ended the
    // run, and what is left, at any moment too, keeps the storage behind them.
    ensures serves { S.sees.tells → (start : storages.Storage) (base : ℕ) →
        Follows S.sees start base [] storage.old →
        Serves S.sees start (faults_between base (S.sees.fault_count storage.new.shelf))
        (calls_left calls.old) (end_behind result storage.new) (output_of O.sees out.old out.new)
        storage.old storage.new }
    ensures settled { S.sees.tells → StaysSettled S.sees storage.old.shelf storage.new.shelf }
    // The counts of faults never fall, and an output that failed has its cause.
    ensures later { S.sees.fault_count storage.old.shelf ≤ S.sees.fault_count storage.new.shelf }
    ensures sink { O.sees.fault_count out.old ≤ O.sees.fault_count out.new }
    ensures cause { IsCaused (O.sees.fault_count out.old) (O.sees.fault_count out.new) result }
{
    while let Some(call) = calls.next() {
        serve_call(storage, call, out)?;
    }
    Ok(())
}
