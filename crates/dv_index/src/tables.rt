ghost use Rattle.std.specs.Prelude.{◌≡◌, ◌++◌, [], All, flat_map, IfOk, OnOk};
ghost use Rattle.dv_model.specs.Mailboxes.{IsValid};
ghost use Rattle.dv_model.specs.Names.{IsName};
ghost use Rattle.dv_formats.specs.Snapshots.{HasFieldsOf, extension_text, keyword_text, tables_text};
ghost use Rattle.dv_index.specs.Fronts.{with_rows};
ghost use Rattle.dv_index.specs.Short.{IsShort};

use crate::words::{write_filled, write_halves, write_words};
use dv_keywords::write_name;
use dv_model::{Bytes, Extension, List, Mailbox, NoMemory};
use std::alloc::Global;

fn write_names(names: &[Bytes], out: &mut Bytes) -> Result<(), NoMemory>
    requires { All IsName names.now }
    ensures { OnOk result (out.new ≡ out.old ++ flat_map keyword_text names.now) }
{
    for name in names {
        write_name(name.as_slice(), out)?;
    }
    Ok(())
}

/// Adds the text of an extension.
pub fn write_extension(e: &Extension, out: &mut Bytes) -> Result<(), NoMemory>
    requires { IsShort e.now }
    ensures text { OnOk result (out.new ≡ out.old ++ extension_text e.now) }
    ensures fits { OnOk result (HasFieldsOf e.now) }
{
    write_words(&[e.reset_id, e.header.len() as u32], out)?;
    let name_size = e.name.len() as u16;
    write_halves(&[e.record_size, e.record_align, e.flags, name_size], out)?;
    write_filled(e.name.as_slice(), out)?;
    write_filled(e.header.as_slice(), out)
}

fn write_extensions(extensions: &[Extension], out: &mut Bytes) -> Result<(), NoMemory>
    requires { All IsShort extensions.now }
    ensures text { OnOk result (out.new ≡ out.old ++ flat_map extension_text extensions.now) }
    ensures fits { OnOk result (All HasFieldsOf extensions.now) }
{
    for extension in extensions {
        write_extension(extension, out)?;
    }
    Ok(())
}

/// The text of a mailbox's keywords and extensions.
pub fn tables_text(alloc: Global, m: &Mailbox) -> Result<Bytes, NoMemory>
    requires { IsValid (with_rows [] m.now) }
    ensures text { IfOk result (λ text. text ≡ tables_text m.now) }
    ensures fits { OnOk result (All HasFieldsOf m.now.extensions) }
{
    let mut text = List::new(alloc);
    write_names(m.keywords.as_slice(), &mut text)?;
    write_extensions(m.extensions.as_slice(), &mut text)?;
    Ok(text)
}
