ghost use Rattle.std.specs.Prelude.{◌≡◌, ◌≤◌, length, vec_capacity};
ghost use Rattle.std.specs.List.{remove_range};

/// Removes the items from one place to another, and moves up those behind them.
pub fn remove_run<T: Copy>(column: &mut Vec<T>, from: usize, to: usize)
    requires order { from ≤ to }
    requires inside { to ≤ length column.old.items }
    ensures items { column.new.items ≡ remove_range column.old.items from to }
    ensures capacity { vec_capacity column.new ≡ vec_capacity column.old }
{
    drop(column.drain(from..to));
}
