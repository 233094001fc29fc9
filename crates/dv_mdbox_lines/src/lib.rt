//! The lines of a storage's script, one call each, the texts that answer them, and what holds of a
//! storage behind any calls.
#![tactic(auto)]

mod answers;
mod calls;
mod cursor;
mod laws;
mod lines;
mod reading;

pub use answers::Answer;
pub use calls::open_lines;
pub use cursor::Calls;
pub use laws::{
    counts_are_true, each_text_has_one_meaning, ids_are_new, lines_of_the_grammar_are_read,
    messages_are_kept, read_lines_are_of_the_grammar,
};
pub use lines::Call;

#[cfg(test)]
mod tests;
