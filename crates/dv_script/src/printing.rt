ghost use Rattle.std.specs.Prelude.{◌≡◌, ◌++◌, ◌∷◌, [], codes, decimal, flat_map, length, map, IfOk, OnOk};
ghost use Rattle.dv_model.specs.Texts.{spaced};
ghost use Rattle.dv_formats.specs.Printing.{command_text, flags_text, item_text, line_text, modifier_text, script_text, set_text};
ghost use Rattle.dv_formats.specs.Scripts.{how_text, uid_text};
ghost use Rattle.dv_model.specs.declared.types.Command.TheVariants.{Append, Fetch, Store};
ghost use Rattle.dv_script.specs.Sources.{all_named, named};

use crate::Line;
use crate::keys::put_sought;
use crate::pieces::{put, put_around, put_before, put_flag_list, put_set};
use dv_model::{Bytes, Command, How, Item, List, NoMemory, Span};
use std::alloc::Global;

/// The text of a script: one line a command, each with a line feed; sets and flags as they are
/// kept. `NoMemory` is the only error.
pub fn print_script(alloc: Global, lines: &List<Line>) -> Result<Bytes, NoMemory>
    ensures { IfOk result (λ text. text ≡ script_text (all_named lines.now)) }
{
    let mut text = List::new(alloc);
    for line in lines.as_slice() {
        put_line(alloc, &mut text, line)?;
    }
    Ok(text)
}

fn put_line(alloc: Global, text: &mut Bytes, line: &Line) -> Result<(), NoMemory>
    ensures { OnOk result (text.new ≡ text.old ++ line_text (named line.now)) }
{
    put(text, line.session.as_slice())?;
    put(text, b" ")?;
    put_command(alloc, text, &line.command)?;
    put(text, b"\n")
}

fn how_text(how: How) -> &'static [u8]
    ensures { result.now ≡ how_text how }
{
    match how {
        How::Add => b"+FLAGS",
        How::Remove => b"-FLAGS",
        How::Replace => b"FLAGS",
    }
}

fn uid_text(by_uid: bool) -> &'static [u8]
    ensures { result.now ≡ uid_text by_uid }
{
    if by_uid { b"UID " } else { b"" }
}

fn put_command(alloc: Global, text: &mut Bytes, command: &Command) -> Result<(), NoMemory>
    ensures { OnOk result (text.new ≡ text.old ++ command_text command.now) }
{
    match command {
        Command::Select => put(text, b"SELECT"),
        Command::Noop => put(text, b"NOOP"),
        Command::Check => put(text, b"CHECK"),
        Command::Expunge => put(text, b"EXPUNGE"),
        Command::Append {
            flags,
            keywords,
            message,
        } => put_append(alloc, text, *flags, keywords, message),
        Command::Fetch { by_uid, set, items } => put_fetch(alloc, text, *by_uid, set, items),
        Command::Store {
            by_uid,
            set,
            how,
            flags,
            keywords,
            unchanged_since,
        } => {
            put_store_start(alloc, text, *by_uid, set, *unchanged_since)?;
            put(text, how_text(*how))?;
            put(text, b" ")?;
            put_flag_list(alloc, text, *flags, keywords)
        }
        Command::Search { by_uid, key } => {
            put(text, uid_text(*by_uid))?;
            put(text, b"SEARCH ")?;
            put_sought(alloc, text, key)
        }
        Command::UidRemove { set } => {
            put(text, b"UID REMOVE ")?;
            put_set(alloc, text, set)
        }
    }
}

fn put_append(
    alloc: Global,
    text: &mut Bytes,
    flags: u8,
    keywords: &List<Bytes>,
    message: &Bytes,
) -> Result<(), NoMemory>
    ensures { OnOk result
        (text.new ≡ text.old ++ command_text (Append flags keywords.now message.now)) }
{
    put(text, b"APPEND ")?;
    put_flag_list(alloc, text, flags, keywords)?;
    put_around(text, b" {", message.len() as u64, b"}")?;
    put(text, b"\n")?;
    put(text, message.as_slice())
}

fn put_item(text: &mut Bytes, item: &Item) -> Result<(), NoMemory>
    ensures { OnOk result (text.new ≡ text.old ++ item_text item.now) }
{
    match item {
        Item::Flags => put(text, b"FLAGS"),
        Item::Size => put(text, b"RFC822.SIZE"),
        Item::Body => put(text, b"BODY[]"),
        Item::Field(name) => {
            put(text, b"FIELD ")?;
            put(text, name.as_slice())
        }
        Item::Modseq => put(text, b"MODSEQ"),
    }
}

// Items with a space between two.
fn put_items(text: &mut Bytes, items: &List<Item>) -> Result<(), NoMemory>
    ensures { OnOk result (text.new ≡ text.old ++ spaced (map item_text items.now)) }
{
    let Some((first, others)) = items.as_slice().split_first() else {
        return Ok(());
    };
    put_item(text, first)?;
    for item in others {
        put(text, b" ")?;
        put_item(text, item)?;
    }
    Ok(())
}

fn put_fetch(
    alloc: Global,
    text: &mut Bytes,
    by_uid: bool,
    set: &List<Span>,
    items: &List<Item>,
) -> Result<(), NoMemory>
    ensures { OnOk result
        (text.new ≡ text.old ++ command_text (Fetch by_uid set.now items.now)) }
{
    put(text, uid_text(by_uid))?;
    put(text, b"FETCH ")?;
    put_set(alloc, text, set)?;
    put(text, b" (")?;
    put_items(text, items)?;
    put(text, b")")
}

fn put_modifier(text: &mut Bytes, since: Option<u64>) -> Result<(), NoMemory>
    ensures { OnOk result (text.new ≡ text.old ++ modifier_text since) }
{
    match since {
        None => Ok(()),
        Some(n) => put_around(text, b"(UNCHANGEDSINCE ", n, b") "),
    }
}

// A STORE up to what is done with its flags.
fn put_store_start(
    alloc: Global,
    text: &mut Bytes,
    by_uid: bool,
    set: &List<Span>,
    since: Option<u64>,
) -> Result<(), NoMemory>
    ensures { OnOk result (text.new ≡ text.old ++ (uid_text by_uid
        ++ codes "STORE " ++ set_text set.now ++ codes " " ++ modifier_text since)) }
{
    put(text, uid_text(by_uid))?;
    put(text, b"STORE ")?;
    put_set(alloc, text, set)?;
    put(text, b" ")?;
    put_modifier(text, since)
}
