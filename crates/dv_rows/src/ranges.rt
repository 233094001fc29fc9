ghost use Rattle.std.specs.Prelude.{◌≡◌, ℕ};

use dv_model::{Change, GuidRow, Pair};

/// UIDs from a first to a last one, both included.
pub trait Range {
    ghost lowest: { Self → ℕ };

    ghost highest: { Self → ℕ };

    /// The first UID.
    fn first(&self) -> u32
        ensures { result ≡ lowest self.now };

    /// The last UID.
    fn last(&self) -> u32
        ensures { result ≡ highest self.now };
}

impl Range for Pair {
    ghost lowest = { λ pair. pair.first };

    ghost highest = { λ pair. pair.last };

    fn first(&self) -> u32 {
        self.first
    }

    fn last(&self) -> u32 {
        self.last
    }
}

impl Range for Change {
    ghost lowest = { λ change. change.first };

    ghost highest = { λ change. change.last };

    fn first(&self) -> u32 {
        self.first
    }

    fn last(&self) -> u32 {
        self.last
    }
}

impl Range for GuidRow {
    ghost lowest = { λ row. row.uid };

    ghost highest = { λ row. row.uid };

    fn first(&self) -> u32 {
        self.uid
    }

    fn last(&self) -> u32 {
        self.uid
    }
}

impl Range for u32 {
    ghost lowest = { λ uid. uid };

    ghost highest = { λ uid. uid };

    fn first(&self) -> u32 {
        *self
    }

    fn last(&self) -> u32 {
        *self
    }
}
