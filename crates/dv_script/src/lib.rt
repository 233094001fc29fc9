//! Scripts and replies as text: the commands that a script has, and the lines that answer them.
#![tactic(auto)]

mod keys;
mod law;
mod lines;
mod pieces;
mod printing;
mod reply;
mod script;
mod script_lines;
mod sends;
mod types;
mod value;

pub use law::printed_script_is_parsed;
pub use lines::{Lines, all_lines};
pub use pieces::{decimal_text, put_numbers};
pub use printing::print_script;
pub use reply::{begin_fetch, end_fetch, mark_text, put_line, replies_text, reply_text};
pub use script::{open_script, open_script_beside, parse, split_session};
pub use script_lines::{Script, ScriptLines};
pub use types::{Line, ScriptEnd};
pub use value::{put_body, put_field, put_value};
