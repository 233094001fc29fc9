//! A storage of messages many to a file (Dovecot's mdbox): the rows of its map, and where in which
//! file the text of a row's message stands.
#![tactic(auto)]

mod extensions;
mod laws;
mod mapped;
mod parts;
mod place;
mod tables;

pub use extensions::is_map;
pub use laws::{
    counts_are, places_are, records_are_written, rewrites_are, rewrites_are_written,
    rewrites_lose_nothing, saves_are, tables_stay, thinnings_are,
};
pub use mapped::{Mapped, Placed, read_row};
pub use parts::{count_of, part_of, place_of};
pub use place::Place;
pub use tables::{FileTable, Listed, list_row, table_of};

#[cfg(test)]
mod tests;
