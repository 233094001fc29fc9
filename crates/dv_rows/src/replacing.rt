ghost use Rattle.std.specs.Prelude.{◌≡◌, ℕ, length, map, vec_len};
ghost use Rattle.std.specs.List.{AllZip};
ghost use Rattle.dv_model.specs.declared.types.Row.{Row};

use dv_model::{Bytes, List, Row};

/// What was made to take the place of something in a row.
pub trait Made: Drop {
    ghost put: { ℕ → Row → Self → Row };

    /// Puts it into the row. A row that changes by it has this modification sequence.
    fn put(self, row: &mut Row, modseq: u64)
        ensures { row.new ≡ put modseq row.old self };
}

impl Made for List<Bytes> {
    ghost put = { λ n row parts. record row { parts = parts } };

    fn put(self, row: &mut Row, _modseq: u64) {
        row.parts = self;
    }
}

/// Puts what was made for each row into it.
pub fn put_each<T: Made>(rows: &mut [Row], made: Vec<T>, modseq: u64)
    requires { length rows.old ≡ vec_len made }
    ensures { (f : Row → Row) →
        AllZip (λ row new. T.put modseq row new ≡ f row) rows.old made.items →
        rows.new ≡ map f rows.old }
{
    let mut made = made;
    while let Some(new) = made.pop() {
        let at = made.len();
        new.put(&mut rows[at], modseq);
    }
}
