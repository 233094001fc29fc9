//! Rows by rising UID in blocks of columns.
#![tactic(auto)]

mod adding;
mod block;
mod blocks;
mod changing;
mod chunk;
mod columns;
mod finding;
mod holding;
mod joining;
mod numbers;
mod parts;
mod reading;
mod removing;
mod row;
mod rows;
mod sets;

pub use blocks::Blocks;
pub use chunk::Entry;
pub use row::RowView;
pub use rows::BlockRows;

#[cfg(test)]
mod tests;
