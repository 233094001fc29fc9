ghost use Rattle.std.specs.Prelude.{◌≡◌, Ok, OnErr, OnOk, fold, true};
ghost use Rattle.std.specs.List.{list_all};
ghost use Rattle.dv_ext.specs.Quiet.{is_quiet};
ghost use Rattle.dv_ext.specs.Tables.{with_table};
ghost use Rattle.dv_model.specs.declared.types.Mailbox.{Mailbox};
ghost use Rattle.dv_model.specs.Effects.{with_intro};
ghost use Rattle.dv_model.specs.Mailboxes.{IsValid};
ghost use Rattle.dv_model.specs.declared.types.Body.TheVariants.{ExtHeaderUpdate, ExtIntro, ExtRecordUpdate, ExtReset};
ghost use Rattle.dv_apply.specs.States.{Becomes, IsKept};

use crate::changes::higher;
use crate::parts::{write_parts, zero_parts};
use crate::state::State;
use dv_ext::{Extensions, RowUpdates, have_sizes};
use dv_model::{Duplicate, Intro, List, NoMemory, Part};

// Makes the introduced extensions current in turn, where that leaves them all as they are.
fn make_current(extensions: &mut Extensions, intros: &[Intro])
    requires { list_all (is_quiet extensions.old.extensions) intros.now ≡ true }
    ensures is { (m : Mailbox) → IsValid (with_table extensions.old m) →
        fold with_intro (with_table extensions.old m) intros.now ≡ with_table extensions.new m }
    ensures list { extensions.new.extensions ≡ extensions.old.extensions }
{
    for intro in intros {
        extensions.make_current(intro);
    }
}

// Introductions that leave the extensions as they are.
fn introduce_quietly(state: &mut State, intros: &[Intro])
    requires kept { IsKept state.old }
    requires quiet { list_all (is_quiet state.old.extensions.extensions) intros.now ≡ true }
    ensures { Becomes state.old (ExtIntro intros.now) state.new }
{
    state.highest = higher(state.highest);
    make_current(&mut state.extensions, intros);
}

// Introductions that change the extensions. No row is touched where each one's parts stay as they
// are, else each of them once.
fn introduce_new(state: &mut State, intros: &[Intro]) -> Result<(), NoMemory>
    requires { IsKept state.old }
    ensures ok { OnOk result (Becomes state.old (ExtIntro intros.now) state.new) }
    ensures err { OnErr result (state.new ≡ state.old) }
{
    let mut extensions = state.extensions.duplicate(state.alloc)?;
    extensions.intro_all(intros)?;
    let list = extensions.list().as_slice();
    if have_sizes(state.extensions.list().as_slice(), list) {
        state.highest = higher(state.highest);
        state.extensions = extensions;
        return Ok(());
    }
    state.rows.fit_parts(list)?;
    state.highest = higher(state.highest);
    state.extensions = extensions;
    state.blanks.clear();
    state.spare = 0;
    Ok(())
}

/// Introduces extensions (Dovecot's `mail_transaction_ext_intro`). Where that leaves them as they
/// are, it takes no memory; where it changes the parts of rows, no row is spare then. After
/// `NoMemory` nothing has changed.
pub fn introduce_all(state: &mut State, intros: &[Intro]) -> Result<(), NoMemory>
    requires { IsKept state.old }
    ensures ok { OnOk result (Becomes state.old (ExtIntro intros.now) state.new) }
    ensures err { OnErr result (state.new ≡ state.old) }
    ensures memory { list_all (is_quiet state.old.extensions.extensions) intros.now ≡ true →
        result ≡ Ok tt }
{
    if state.extensions.are_quiet(intros) {
        introduce_quietly(state, intros);
        return Ok(());
    }
    introduce_new(state, intros)
}

/// Resets the current extension (Dovecot's `mail_transaction_ext_reset`), without memory.
pub fn reset(state: &mut State, reset_id: u32, preserve: u8)
    requires { IsKept state.old }
    ensures { Becomes state.old (ExtReset reset_id preserve) state.new }
{
    state.highest = higher(state.highest);
    let change = state.extensions.reset(reset_id, preserve);
    zero_parts(&mut state.rows, change);
}

/// Writes parts into the header of the current extension (Dovecot's
/// `mail_transaction_ext_hdr_update`).
pub fn update_header(state: &mut State, parts: &List<Part>)
    requires { IsKept state.old }
    ensures { Becomes state.old (ExtHeaderUpdate parts.now) state.new }
{
    state.highest = higher(state.highest);
    state.extensions.header(parts);
}

/// Writes rows' data of the current extension (Dovecot's `mail_transaction_ext_rec_update`).
pub fn update_rows(state: &mut State, bytes: &[u8])
    requires { IsKept state.old }
    ensures { Becomes state.old (ExtRecordUpdate bytes.now) state.new }
{
    state.highest = higher(state.highest);
    let Some(current) = state.extensions.current() else {
        return;
    };
    let Some(updates) = RowUpdates::new(current.size, bytes) else {
        return;
    };
    write_parts(&mut state.rows, &updates, current.extension);
}
