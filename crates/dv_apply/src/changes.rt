ghost use Rattle.std.specs.Prelude.{◌≡◌, ◌+◌, ◌≤◌, min};
ghost use Rattle.dv_model.specs.declared.types.Body.TheVariants.{Expunge, ExpungeGuid, FlagUpdate, Carried};
ghost use Rattle.dv_model.specs.Mailboxes.{last_modseq};
ghost use Rattle.dv_apply.specs.States.{Becomes, IsKept};

use crate::state::State;
use dv_model::{Bytes, Change, GuidRow, Pair};

// The largest modification sequence (RFC 7162, section 7, mod-sequence-value).
const LAST_MODSEQ: u64 = 9223372036854775807;

/// The next modification sequence, until their end.
pub fn higher(highest: u64) -> u64
    requires { highest ≤ last_modseq }
    ensures { result ≡ min (highest + 1) last_modseq }
{
    (highest + 1).min(LAST_MODSEQ)
}

/// Removes the rows in the ranges (Dovecot's `mail_transaction_expunge`).
pub fn expunge(state: &mut State, pairs: &[Pair])
    requires { IsKept state.old }
    ensures { Becomes state.old (Expunge pairs.now) state.new }
{
    state.highest = higher(state.highest);
    dv_portion::expunge(state.alloc, &mut state.rows, pairs);
}

/// Removes the rows that are named (Dovecot's `mail_transaction_expunge_guid`).
pub fn expunge_named(state: &mut State, rows: &[GuidRow])
    requires { IsKept state.old }
    ensures { Becomes state.old (ExpungeGuid rows.now) state.new }
{
    state.highest = higher(state.highest);
    state.rows.expunge_named(rows);
}

/// Changes flags (Dovecot's `mail_transaction_flag_update`).
pub fn change_flags(state: &mut State, changes: &[Change])
    requires { IsKept state.old }
    ensures { Becomes state.old (FlagUpdate changes.now) state.new }
{
    state.highest = higher(state.highest);
    dv_portion::change_flags(state.alloc, &mut state.rows, changes, state.highest);
}

/// A record of another type has no effect but the next modification sequence.
pub fn carry(state: &mut State, code: u32, bytes: &Bytes)
    requires { IsKept state.old }
    ensures { Becomes state.old (Carried code bytes.now) state.new }
{
    state.highest = higher(state.highest);
}
