ghost use Rattle.std.specs.Prelude.{◌≡◌};
ghost use Rattle.dv_apply.specs.Preparing.{touched_of};

use dv_ext::Extensions;
use dv_model::{List, Record};
use dv_rows::Rows;
use dv_touched::Touched;

/// Some of the rows after records, with what else they change.
#[derive(Drop)]
pub struct Share {
    pub rows: Rows,
    /// How many keyword names are new.
    pub names: u32,
    pub extensions: Extensions,
    pub uid_validity: u32,
    pub next_uid: u32,
    pub highest: u64,
}

/// A share to be put in the place of the rows with these UIDs.
#[derive(Drop)]
pub struct Made {
    pub uids: Vec<u32>,
    pub share: Share,
    /// How many of its rows are new.
    pub appended: u32,
    pub touched: Touched,
}

/// Records that take no memory, to be applied to the rows where they stand.
#[derive(Drop)]
pub struct Light {
    pub records: List<Record>,
    pub touched: Touched,
}

/// How what was made ready is shown.
#[derive(Drop)]
pub enum Way {
    /// A share takes the place of rows.
    Share(Made),
    /// Records are applied.
    Records(Light),
}

impl Way {
    /// The UIDs that are touched.
    pub fn touched(&self) -> &Touched
        ensures { result.now ≡ touched_of self.now }
    {
        match self {
            Way::Share(made) => &made.touched,
            Way::Records(light) => &light.touched,
        }
    }
}
