ghost use Rattle.std.specs.Prelude.{◌≡◌};
ghost use Rattle.dv_lookups.specs.Memory.{in_memory};

use dv_model::NoMemory;
use dv_shelf::ShelfFault;

/// Want of memory, as a shelf tells it.
pub(crate) fn in_memory<T>(done: Result<T, NoMemory>) -> Result<T, ShelfFault>
    ensures { result ≡ in_memory done }
{
    match done {
        Ok(value) => Ok(value),
        Err(_) => Err(ShelfFault::NoMemory),
    }
}
