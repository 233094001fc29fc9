//! Tables of what a store is asked and answers, with the files that it leaves.

use crate::said::{Said, is_answered};
use dv_asks::{Ask, File, MemStore, clock_of, created, has_file, opened, put_all, shelf_with};
use dv_model::Bytes;
use dv_shelf::{MemShelf, Name};
use dv_view::View;
use std::alloc::Global;
use std::test::Fail;

/// What is asked, and what is answered.
pub type Step = (Ask, Said);

/// A file by its name, with its bytes from a place on, or with none where it is missing.
pub type Left = (Name, usize, Option<&'static [u8]>);

/// A folder is made or opened, and a store asked. Then files may be put there, and the folder is
/// opened again.
#[derive(Clone, Copy)]
pub struct Case {
    /// The files at the start. Where there is none, the folder is made.
    pub files: &'static [File],
    /// The clock's readings, the last one again and again.
    pub readings: &'static [u32],
    /// The calls that fail, counted from 1.
    pub fails: &'static [u32],
    pub steps: &'static [Step],
    /// The files that are put there behind these steps.
    pub put: &'static [File],
    /// Where there are any, the folder is opened again before them.
    pub later: &'static [Step],
    /// How many calls the folder had.
    pub calls: u64,
    pub left: &'static [Left],
}

/// A case without any steps, at 1000.
pub const NONE: Case = Case {
    files: &[],
    readings: &[1000],
    fails: &[],
    steps: &[],
    put: &[],
    later: &[],
    calls: 0,
    left: &[],
};

/// Whether the store answers all that is asked. The texts of the groups are added to the others.
pub fn are_answered(
    alloc: Global,
    store: &mut MemStore,
    held: Option<&View>,
    steps: &[Step],
    texts: &mut Bytes,
) -> Result<bool, Fail> {
    for step in steps {
        if !is_answered(alloc, store, held, *step, texts)? {
            return Ok(false);
        }
    }
    Ok(true)
}

// The folder behind these steps over a store.
fn folder_behind(
    alloc: Global,
    store: MemStore,
    steps: &[Step],
    texts: &mut Bytes,
) -> Result<MemShelf, Fail> {
    let mut store = store;
    if !are_answered(alloc, &mut store, None, steps, texts)? {
        return Err(Fail::from("another answer"));
    }
    Ok(store.parts().0)
}

fn first_folder(alloc: Global, case: &Case, texts: &mut Bytes) -> Result<MemShelf, Fail> {
    let shelf = shelf_with(alloc, case.files, case.fails)?;
    let clock = clock_of(alloc, case.readings)?;
    let store = if case.files.is_empty() {
        created(alloc, shelf, clock)?
    } else {
        opened(alloc, shelf, clock)?
    };
    folder_behind(alloc, store, case.steps, texts)
}

fn later_folder(
    alloc: Global,
    shelf: MemShelf,
    case: &Case,
    texts: &mut Bytes,
) -> Result<MemShelf, Fail> {
    let mut shelf = shelf;
    put_all(&mut shelf, case.put)?;
    if case.later.is_empty() {
        return Ok(shelf);
    }
    let store = opened(alloc, shelf, clock_of(alloc, case.readings)?)?;
    folder_behind(alloc, store, case.later, texts)
}

// Whether these files are left.
fn are_left(alloc: Global, shelf: &mut MemShelf, left: &[Left]) -> bool {
    for file in left {
        if !has_file(alloc, shelf, file.0, file.1, file.2) {
            return false;
        }
    }
    true
}

// What isn't as it is expected.
fn difference(alloc: Global, case: &Case) -> Result<Option<&'static str>, Fail> {
    let mut texts = Bytes::new(alloc);
    let shelf = first_folder(alloc, case, &mut texts)?;
    let mut shelf = later_folder(alloc, shelf, case, &mut texts)?;
    if shelf.call_count() != case.calls {
        return Ok(Some("another number of calls"));
    }
    if !are_left(alloc, &mut shelf, case.left) {
        return Ok(Some("another file"));
    }
    Ok(None)
}

/// Fails unless all is as it is expected.
pub fn play(alloc: Global, case: &Case) -> Result<(), Fail> {
    match difference(alloc, case)? {
        None => Ok(()),
        Some(what) => Err(Fail::from(what)),
    }
}
