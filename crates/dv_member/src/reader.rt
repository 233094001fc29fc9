use dv_front::{Leaf, Pass};
use dv_model::List;

/// How a session reads the words of its generation.
#[derive(Drop)]
pub(crate) struct Reader {
    /// The number of its generation.
    pub(crate) generation: u64,
    pub(crate) pass: Pass,
    pub(crate) leaf: Leaf,
    /// Words that were taken, and whose entries aren't seen yet.
    pub(crate) words: List<u32>,
}
