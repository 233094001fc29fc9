//! Live mailboxes, by the records of a log, and commands, by their texts.

use dv_apply::Live;
use dv_commands::{behind, parse_append, parse_command};
use dv_model::{Bytes, Command, NoMemory};
use dv_records::decode;
use std::alloc::Global;

/// Applies these records in turn. One that is refused or can't be read counts as want of memory,
/// which no test expects.
pub fn apply(alloc: Global, live: &mut Live, records: &[&[u8]]) -> Result<(), NoMemory> {
    for bytes in records {
        let Ok((record, _)) = decode(alloc, bytes, 0) else {
            return Err(NoMemory);
        };
        if live.apply(&record).is_err() {
            return Err(NoMemory);
        }
    }
    Ok(())
}

/// A mailbox with the UIDVALIDITY 1000 behind these records, the first of which gets the
/// modification sequence behind this one.
pub fn live_of(alloc: Global, highest: u32, records: &[&[u8]]) -> Result<Live, NoMemory> {
    let mut live = Live::empty(alloc, 1000);
    live.raise(u64::from(highest));
    apply(alloc, &mut live, records)?;
    Ok(live)
}

fn append_of(alloc: Global, text: &[u8], message: &[u8]) -> Result<Command, NoMemory> {
    let message = Bytes::from_slice(alloc, message)?;
    match parse_append(alloc, text) {
        Ok(((flags, keywords), _)) => Ok(Command::Append {
            flags,
            keywords,
            message,
        }),
        Err(_) => Err(NoMemory),
    }
}

/// The command of a line; an APPEND has this message. A text of none counts as want of memory too.
pub fn command_of(alloc: Global, text: &[u8], message: &[u8]) -> Result<Command, NoMemory> {
    if let Some(rest) = behind(text, b"APPEND ") {
        return append_of(alloc, rest, message);
    }
    match parse_command(alloc, text) {
        Ok(command) => Ok(command),
        Err(_) => Err(NoMemory),
    }
}
