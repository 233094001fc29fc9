//! A command as text: from a line of a script to what it asks for (RFC 3501, section 9).
#![tactic(auto)]

mod commands;
mod items;
mod keys;
mod law;
mod leaves;
mod text;

pub use commands::{parse_append, parse_command, parse_key};
pub use law::{command_is_read, key_is_read, printed_command_is_read};
pub use leaves::{is_field_name, read_decimal, read_number};
pub use text::{behind, expect, split_at_byte, split_word};
