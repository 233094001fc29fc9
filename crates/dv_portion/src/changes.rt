ghost use Rattle.std.specs.Prelude.{◌≡◌, [], filter, fold, map, not, OnErr, OnOk};
ghost use Rattle.dv_model.specs.declared.types.How.TheVariants.{Add};
ghost use Rattle.dv_rows.specs.Adding.{AreInOrder};
ghost use Rattle.dv_model.specs.Effects.{is_in_pairs, keywords_after};
ghost use Rattle.dv_rows.specs.Changed.{changed_keywords};
ghost use Rattle.dv_validity.specs.Laws.{changed_flags, restamped};

use dv_model::{Change, How, NoMemory, Pair};
use dv_ranges::{join_changes, join_pairs};
use dv_rows::Rows;
use std::alloc::Global;

/// Removes the rows in the ranges (Dovecot's `mail_transaction_expunge`). Where memory is refused
/// the ranges are taken one by one.
pub fn expunge(alloc: Global, rows: &mut Rows, pairs: &[Pair])
    ensures rows { rows.new.rows
        ≡ filter (λ row. not (is_in_pairs pairs.now row.uid)) rows.old.rows }
    ensures room { rows.new.room ≡ rows.old.room }
{
    match join_pairs(alloc, pairs) {
        Ok(Some(joined)) => rows.expunge(&joined),
        _ => rows.expunge(pairs),
    }
}

/// Changes flags (Dovecot's `mail_transaction_flag_update`). A row whose system flags are others
/// then has this modification sequence. Where memory is refused the changes are made one by one.
pub fn change_flags(alloc: Global, rows: &mut Rows, changes: &[Change], modseq: u64)
    ensures rows { rows.new.rows
        ≡ map (λ row. restamped modseq row (fold changed_flags row changes.now)) rows.old.rows }
    ensures room { rows.new.room ≡ rows.old.room }
{
    if rows.count() == 0 {
        return;
    }
    match join_changes(alloc, changes) {
        Ok(Some(joined)) => rows.change_flags(&joined, modseq),
        _ => rows.change_flags(changes, modseq),
    }
}

/// Adds the keyword at a place of the table to the rows in the ranges, removes it from them or
/// leaves them it alone (Dovecot's `mail_transaction_keyword_update`). A row whose keywords are
/// others then has this modification sequence. After `NoMemory` all is as before.
pub fn change_keywords(
    alloc: Global,
    rows: &mut Rows,
    pairs: &[Pair],
    how: How,
    place: u32,
    modseq: u64,
) -> Result<(), NoMemory>
    ensures ok { OnOk result (rows.new.rows
        ≡ map (λ row. restamped modseq row
        (changed_keywords pairs.now (keywords_after how place) row)) rows.old.rows) }
    ensures room { rows.new.room ≡ rows.old.room }
    ensures err { OnErr result (rows.new ≡ rows.old) }
{
    match join_pairs(alloc, pairs)? {
        Some(joined) => rows.change_keywords(&joined, how, place, modseq),
        None => rows.change_keywords(pairs, how, place, modseq),
    }
}

/// Adds the keyword at a place of the table to the rows in the ranges, whose keywords rise: none is
/// copied. A row that lacked it then has this modification sequence. After `NoMemory` all is as
/// before.
pub fn add_keyword(
    alloc: Global,
    rows: &mut Rows,
    pairs: &[Pair],
    place: u32,
    modseq: u64,
) -> Result<(), NoMemory>
    requires { AreInOrder rows.old.rows }
    ensures ok { OnOk result (rows.new.rows
        ≡ map (λ row. restamped modseq row
        (changed_keywords pairs.now (keywords_after Add place) row)) rows.old.rows) }
    ensures room { rows.new.room ≡ rows.old.room }
    ensures err { OnErr result (rows.new ≡ rows.old) }
{
    match join_pairs(alloc, pairs)? {
        Some(joined) => rows.add_keyword(&joined, place, modseq),
        None => rows.add_keyword(pairs, place, modseq),
    }
}

/// Takes all keywords from the rows in the ranges (Dovecot's `mail_transaction_keyword_reset`). A
/// row that had some then has this modification sequence. Where memory is refused the ranges are
/// taken one by one.
pub fn clear_keywords(alloc: Global, rows: &mut Rows, pairs: &[Pair], modseq: u64)
    ensures rows { rows.new.rows
        ≡ map (λ row. restamped modseq row
        (changed_keywords pairs.now (λ places. []) row)) rows.old.rows }
    ensures room { rows.new.room ≡ rows.old.room }
{
    match join_pairs(alloc, pairs) {
        Ok(Some(joined)) => rows.clear_keywords(&joined, modseq),
        _ => rows.clear_keywords(pairs, modseq),
    }
}
