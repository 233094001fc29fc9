//! The extensions of a storage's map.

ghost use Rattle.std.specs.Prelude.{◌≡◌, ◌≢◌, MatchBool, length};
ghost use Rattle.dv_model.specs.declared.types.Mailbox.{Mailbox};
ghost use Rattle.dv_maps.specs.Laws.{IsMap, extension_of};

use dv_model::Extension;

// Whether an extension has this name and these numbers of bytes, and nothing else.
fn is_extension(extension: &Extension, name: &[u8], size: u16, align: u16) -> bool
    ensures { MatchBool result (extension.now ≡ extension_of name.now size align)
        (extension.now ≢ extension_of name.now size align) }
{
    if extension.name.as_slice() != name || !extension.header.is_empty() {
        return false;
    }
    extension.reset_id == 0
        && extension.record_size == size
        && extension.record_align == align
        && extension.flags == 0
}

/// Whether a mailbox with these extensions and so many rows is the map of a storage: with those that
/// it has from its first row on, or a new one, with none. Takes no memory.
pub fn is_map(extensions: &[Extension], rows: u32) -> bool
    ensures { (m : Mailbox) → m.extensions ≡ extensions.now → length m.rows ≡ rows →
        MatchBool result (IsMap m) (IsMap m → ⊥) }
{
    match extensions {
        [] => rows == 0,
        [map, reference] => {
            is_extension(map, b"map", 12, 4) && is_extension(reference, b"ref", 2, 2)
        }
        _ => false,
    }
}
