ghost use Rattle.std.specs.Prelude.{◌≡◌, [], IfOk};
ghost use Rattle.dv_model.specs.Mailboxes.{IsValid, empty_mailbox};
ghost use Rattle.dv_apply.specs.States.{IsKept, mailbox_of};

use crate::parts::listed;
use dv_ext::Extensions;
use dv_keywords::Table;
use dv_model::{Bytes, Duplicate, List, Mailbox, NoMemory};
use dv_rows::Rows;
use std::alloc::Global;

/// A mailbox in the forms in which records change it, and the parts of rows to come.
#[derive(Drop)]
pub struct State {
    pub alloc: Global,
    pub uid_validity: u32,
    pub next_uid: u32,
    pub rows: Rows,
    pub names: Table,
    pub extensions: Extensions,
    pub highest: u64,
    /// The zero bytes of rows that may be appended.
    pub blanks: Vec<List<Bytes>>,
    /// How many rows can be appended without memory.
    pub spare: u32,
}

/// The state of a mailbox that never had a message.
pub fn empty_state(alloc: Global, uid_validity: u32) -> State
    ensures is { mailbox_of result ≡ empty_mailbox uid_validity }
    ensures kept { IsKept result }
    ensures spare { result.spare ≡ 0 }
    ensures hidden { result.names.kept ≡ [] }
{
    State {
        alloc,
        uid_validity,
        next_uid: 1,
        rows: Rows::empty(alloc),
        names: Table::empty(alloc),
        extensions: Extensions::empty(alloc),
        highest: 1,
        blanks: Vec::new(alloc),
        spare: 0,
    }
}

/// The state of a mailbox. `NoMemory` is also the answer where its keywords are too many to be
/// counted.
pub fn state_of(alloc: Global, m: Mailbox) -> Result<State, NoMemory>
    requires { IsValid m }
    ensures is { IfOk result (λ made. mailbox_of made ≡ m) }
    ensures kept { IfOk result (λ made. IsKept made) }
    ensures spare { IfOk result (λ made. made.spare ≡ 0) }
    ensures hidden { IfOk result (λ made. made.names.kept ≡ []) }
{
    let names = Table::of(alloc, m.keywords)?;
    let rows = Rows::of(alloc, m.rows)?;
    let extensions = Extensions::new(alloc, m.extensions, m.current);
    Ok(State {
        alloc,
        uid_validity: m.uid_validity,
        next_uid: m.next_uid,
        rows,
        names,
        extensions,
        highest: m.highest,
        blanks: Vec::new(alloc),
        spare: 0,
    })
}

/// A copy of the mailbox.
pub fn mailbox(state: &State, alloc: Global) -> Result<Mailbox, NoMemory>
    ensures { IfOk result (λ made. made ≡ mailbox_of state.now) }
{
    let rows = listed(alloc, &state.rows)?;
    let keywords = state.names.list(alloc)?;
    let extensions = state.extensions.list().duplicate(alloc)?;
    Ok(Mailbox {
        uid_validity: state.uid_validity,
        next_uid: state.next_uid,
        rows,
        keywords,
        extensions,
        current: state.extensions.current(),
        highest: state.highest,
    })
}
