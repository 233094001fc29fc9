ghost use Rattle.std.specs.Prelude.{◌≡◌, Err, Ok, OnErr, OnOk, Some};
ghost use Rattle.dv_model.specs.Effects.{is_request, with_higher};
ghost use Rattle.dv_apply.specs.Answers.{OnBadAppend};
ghost use Rattle.dv_apply.specs.Bodies.{IsOther, IsSound, Refused, TakesNone, refused_row};
ghost use Rattle.dv_apply.specs.States.{Becomes, IsKept, kept_of, mailbox_of};
ghost use Rattle.dv_apply.specs.declared.fault.ApplyFault.TheVariants as fault;

use crate::appends::append;
use crate::changes::{carry, change_flags, expunge, expunge_named, higher};
use crate::extensions::{introduce_all, reset, update_header, update_rows};
use crate::fault::ApplyFault;
use crate::headers::update_numbers;
use crate::keywords::{clear_keywords, update_keyword};
use crate::state::State;
use dv_model::{Body, NoMemory, Record};

/// Whether the record is an expunge without the external mark, which only asks for one (Dovecot's
/// `MAIL_TRANSACTION_EXTERNAL`).
pub fn is_request(r: &Record) -> bool
    ensures { result ≡ is_request r.now }
{
    match &r.body {
        Body::Expunge(_) => r.top % 2 != 1,
        Body::ExpungeGuid(_) => r.top % 2 != 1,
        _ => false,
    }
}

/// A request has no effect but the next modification sequence.
pub fn pass(state: &mut State)
    requires { IsKept state.old }
    ensures is { mailbox_of state.new ≡ with_higher (mailbox_of state.old) }
    ensures kept { IsKept state.new }
    ensures spare { state.new.spare ≡ state.old.spare }
{
    state.highest = higher(state.highest);
}

// Applies any record but an append.
fn change(state: &mut State, body: &Body) -> Result<(), NoMemory>
    requires kept { IsKept state.old }
    requires sound { IsSound body.now }
    requires other { IsOther body.now }
    ensures ok { OnOk result (Becomes state.old body.now state.new) }
    ensures err { OnErr result (kept_of state.new ≡ kept_of state.old) }
    ensures kept { OnErr result (IsKept state.new) }
    ensures memory { TakesNone state.old.extensions.extensions state.old.spare body.now →
        result ≡ Ok tt }
{
    match body {
        Body::Append(_) => Ok(()),
        Body::KeywordUpdate { how, name, pairs } => {
            update_keyword(state, *how, name.as_slice(), pairs.as_slice())
        }
        Body::ExtIntro(intros) => introduce_all(state, intros.as_slice()),
        Body::ExtReset { reset_id, preserve } => {
            reset(state, *reset_id, *preserve);
            Ok(())
        }
        Body::Expunge(pairs) => {
            expunge(state, pairs.as_slice());
            Ok(())
        }
        Body::ExpungeGuid(rows) => {
            expunge_named(state, rows.as_slice());
            Ok(())
        }
        Body::FlagUpdate(changes) => {
            change_flags(state, changes.as_slice());
            Ok(())
        }
        Body::HeaderUpdate(parts) => {
            update_numbers(state, parts.as_slice());
            Ok(())
        }
        Body::KeywordReset(pairs) => {
            clear_keywords(state, pairs.as_slice());
            Ok(())
        }
        Body::ExtHeaderUpdate(parts) => {
            update_header(state, parts);
            Ok(())
        }
        Body::ExtRecordUpdate(bytes) => {
            update_rows(state, bytes.as_slice());
            Ok(())
        }
        Body::Carried { code, bytes } => {
            carry(state, *code, bytes);
            Ok(())
        }
    }
}

/// Applies a record that is no request.
pub fn apply_body(state: &mut State, body: &Body) -> Result<(), ApplyFault>
    requires kept { IsKept state.old }
    requires sound { IsSound body.now }
    ensures ok { OnOk result (Becomes state.old body.now state.new) }
    ensures bad { OnBadAppend result (λ refused. refused_row (mailbox_of state.old) body.now
        ≡ Some refused) }
    ensures refused { (refused : Refused) →
        refused_row (mailbox_of state.old) body.now ≡ Some refused →
        result ≡ Err (fault.BadAppend refused.uid refused.next_uid) }
    ensures err { OnErr result (kept_of state.new ≡ kept_of state.old) }
    ensures kept { OnErr result (IsKept state.new) }
    ensures memory { TakesNone state.old.extensions.extensions state.old.spare body.now →
        result ≡ Err fault.NoMemory → ⊥ }
{
    match body {
        Body::Append(rows) => append(state, rows.as_slice()),
        _ => {
            change(state, body)?;
            Ok(())
        }
    }
}
