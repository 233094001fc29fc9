ghost use Rattle.std.specs.Prelude.{◌≡◌, ◌≢◌, Some};

use dv_shelf::Name;

/// A file that is kept open, and its name.
#[derive(Drop)]
pub(crate) struct KeptFile<F: Drop> {
    pub(crate) name: Name,
    pub(crate) file: F,
}

/// Closes the file of this name, if it is kept open.
pub(crate) fn close<F: Drop>(kept: &mut Option<KeptFile<F>>, name: Name)
    ensures same { (k : KeptFile F) → kept.new ≡ Some k → kept.old ≡ Some k }
    ensures closed { (k : KeptFile F) → kept.new ≡ Some k → k.name ≢ name }
{
    match kept {
        Some(open) if open.name != name => {}
        _ => *kept = None,
    }
}
