ghost use Rattle.std.specs.Prelude.{◌≡◌, refl};
ghost use Rattle.dv_rows.specs.Steps.{flags_changed, flags_stamped};

use crate::walks::Step;
use dv_model::{Change, Row};

/// A change of flags. Those beside the row stay.
#[derive(Drop)]
pub struct ChangeFlags;

impl Step<Change> for ChangeFlags {
    ghost after = { λ s. flags_changed };

    fn step(&self, range: &Change, row: &mut Row, _note: &mut u8) {
        row.flags = row.flags & !range.remove | range.add;
    }

    ghost keeps = { λ s r p. refl };
}

/// A row of which one of the five system flags is another than beside it has this modification
/// sequence; its flags then stand beside it.
#[derive(Drop)]
pub struct StampFlags {
    pub modseq: u64,
}

impl Step<Change> for StampFlags {
    ghost after = { λ s r. flags_stamped s.modseq };

    fn step(&self, _range: &Change, row: &mut Row, note: &mut u8) {
        if row.flags % 32 != *note % 32 {
            row.modseq = self.modseq;
        }
        *note = row.flags;
    }

    ghost keeps = { λ s r p. refl };
}
