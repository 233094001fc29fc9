ghost use Rattle.std.specs.Prelude.{◌≡◌, ◌≢◌, OnErr, OnOk, None, Some, map};
ghost use Rattle.dv_model.specs.declared.types.Body.TheVariants.{KeywordReset, KeywordUpdate};
ghost use Rattle.dv_model.specs.declared.types.How.TheVariants.{Remove};
ghost use Rattle.dv_model.specs.Effects.{keywords_after, place_of};
ghost use Rattle.dv_model.specs.Names.{IsName};
ghost use Rattle.dv_rows.specs.Adding.{AreInOrder};
ghost use Rattle.dv_rows.specs.Changed.{changed_keywords};
ghost use Rattle.dv_validity.specs.Laws.{restamped};
ghost use Rattle.dv_apply.specs.States.{Becomes, IsKept, kept_of};

use crate::changes::higher;
use crate::state::State;
use dv_model::{How, NoMemory, Pair};
use dv_rows::Rows;
use std::alloc::Global;

// Changes a keyword of rows, whose keywords rise.
fn change_keywords(
    alloc: Global,
    rows: &mut Rows,
    pairs: &[Pair],
    how: How,
    place: u32,
    modseq: u64,
) -> Result<(), NoMemory>
    requires { AreInOrder rows.old.rows }
    ensures ok { OnOk result (rows.new.rows
        ≡ map (λ row. restamped modseq row
        (changed_keywords pairs.now (keywords_after how place) row)) rows.old.rows) }
    ensures room { rows.new.room ≡ rows.old.room }
    ensures err { OnErr result (rows.new ≡ rows.old) }
{
    match how {
        How::Add => dv_portion::add_keyword(alloc, rows, pairs, place, modseq),
        _ => dv_portion::change_keywords(alloc, rows, pairs, how, place, modseq),
    }
}

// Changes a keyword that the table has.
fn change_known(
    state: &mut State,
    how: How,
    name: &[u8],
    pairs: &[Pair],
    place: u32,
) -> Result<(), NoMemory>
    requires kept { IsKept state.old }
    requires name { IsName name.now }
    requires known { place_of state.old.names.names name.now ≡ Some place }
    ensures ok { OnOk result (Becomes state.old (KeywordUpdate how name.now pairs.now) state.new) }
    ensures err { OnErr result (state.new ≡ state.old) }
{
    let modseq = higher(state.highest);
    change_keywords(state.alloc, &mut state.rows, pairs, how, place, modseq)?;
    state.highest = modseq;
    Ok(())
}

// Adds a keyword to the table, and to rows.
fn change_new(state: &mut State, how: How, name: &[u8], pairs: &[Pair]) -> Result<(), NoMemory>
    requires kept { IsKept state.old }
    requires name { IsName name.now }
    requires added { how ≢ Remove }
    ensures ok { OnOk result (Becomes state.old (KeywordUpdate how name.now pairs.now) state.new) }
    ensures err { OnErr result (kept_of state.new ≡ kept_of state.old) }
    ensures kept { OnErr result (IsKept state.new) }
{
    let modseq = higher(state.highest);
    let count = state.names.count();
    let place = state.names.add(name)?;
    match change_keywords(state.alloc, &mut state.rows, pairs, how, place, modseq) {
        Ok(()) => {}
        Err(e) => {
            state.names.hide(count);
            return Err(e);
        }
    }
    state.highest = modseq;
    Ok(())
}

/// Adds a keyword to rows, removes it from them or leaves them it alone (Dovecot's
/// `mail_transaction_keyword_update`). A name that is removed isn't added to the table. After
/// `NoMemory` the mailbox and its spare rows are as before.
pub fn update_keyword(
    state: &mut State,
    how: How,
    name: &[u8],
    pairs: &[Pair],
) -> Result<(), NoMemory>
    requires kept { IsKept state.old }
    requires name { IsName name.now }
    ensures ok { OnOk result (Becomes state.old (KeywordUpdate how name.now pairs.now) state.new) }
    ensures err { OnErr result (kept_of state.new ≡ kept_of state.old) }
    ensures kept { OnErr result (IsKept state.new) }
{
    if let Some(place) = state.names.index_of(name) {
        return change_known(state, how, name, pairs, place);
    }
    match how {
        How::Remove => {
            state.highest = higher(state.highest);
            Ok(())
        }
        _ => change_new(state, how, name, pairs),
    }
}

/// Takes all keywords from rows (Dovecot's `mail_transaction_keyword_reset`).
pub fn clear_keywords(state: &mut State, pairs: &[Pair])
    requires { IsKept state.old }
    ensures { Becomes state.old (KeywordReset pairs.now) state.new }
{
    state.highest = higher(state.highest);
    dv_portion::clear_keywords(state.alloc, &mut state.rows, pairs, state.highest);
}
