//! The words that sessions share: one pen puts and publishes them, and any number of passes read
//! what is published, without a lock. They are the words of the log's entries, and contracts know
//! which entries, with which messages. A roll names the tables of such words, one for each
//! generation.
#![tactic(auto)]

mod listings;
mod notes;
mod pass;
mod pen;
mod roll;
mod roll_rule;
mod rule;
mod sends;

pub use listings::{Leaf, Roll};
pub use notes::{Generation, NamesNote, Note, Origin, Post};
pub use pass::{FrontWord, Pass, agree, join, load_front, load_word, skip_to, split, words_taken};
pub use pen::{Pen, new_front, next_front, publish, put_word, seal, show, words_left, words_put};
pub use roll::{agree_leaves, enter, extend, leaf, new_roll};
pub use roll_rule::{NamesTable, RollView, TableName};
pub use rule::{Knowledge, SeatView};

#[cfg(test)]
mod tests;
