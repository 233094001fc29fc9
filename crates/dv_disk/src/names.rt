ghost use Rattle.std.specs.Prelude.{◌≡◌, ◌++◌, IfOk, OnOk};
ghost use Rattle.dv_disk.specs.Names.{AreNamesOf, names_in};

use dv_model::{List, NoMemory};
use dv_shelf::Name;
use dv_system::Entry;
use std::alloc::Global;

/// The names among a folder's entries: the temporary file has none.
pub(crate) fn names_of(alloc: Global, entries: &[Entry]) -> Result<List<Name>, NoMemory>
    ensures { IfOk result (λ names. AreNamesOf entries.now names) }
{
    let mut names = List::new(alloc);
    for entry in entries {
        add_name(&mut names, *entry)?;
    }
    Ok(names)
}

fn add_name(names: &mut List<Name>, entry: Entry) -> Result<(), NoMemory>
    ensures { OnOk result (names.new ≡ names.old ++ names_in entry) }
{
    if let Entry::File(name) = entry {
        names.push(name)?;
    }
    Ok(())
}
