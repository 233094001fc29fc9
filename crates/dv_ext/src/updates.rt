ghost use Rattle.std.specs.Prelude.{◌≡◌, ◌+◌, ◌*◌, ◌<◌, ◌≤◌, [], length, slice_index_or, take, drop};
ghost use Rattle.std.specs.Int.{w32, from_le_bytes};
ghost use Rattle.dv_model.specs.Effects.{update_size, with_updates};
ghost use Rattle.dv_ext.specs.Updates.{rows_updated, updates_of};
ghost use Rattle.dv_model.specs.declared.types.Current.{Current};
ghost use Rattle.dv_model.specs.declared.types.Mailbox.{Mailbox};

use dv_num::u32_at;
use std::marker::Model;

/// The rows of a record update (Dovecot's `mail_transaction_ext_rec_update`): each has a UID, as
/// many bytes as the introduction said, and padding up to a multiple of four.
#[derive(Drop)]
pub struct RowUpdates<'a> {
    size: u16,
    bytes: &'a [u8],
}

impl<'a> Model for RowUpdates<'a> {
    ghost use Rattle.std.specs.Prelude.{◌/◌, length};
    ghost use Rattle.dv_model.specs.Effects.{update_rows, update_size};
    ghost use Rattle.dv_ext.specs.Updates.{Updates};

    ghost Value = { Updates };

    ghost view = { λ u. record {
      size = u.size;
      rows = update_rows (length u.bytes.now / update_size u.size) (update_size u.size) u.bytes.now;
    } };
}

// The number of bytes of a row.
fn row_size(size: u16) -> usize
    ensures { result ≡ update_size size }
{
    let unpadded = 4 + usize::from(size);
    unpadded + (4 - unpadded % 4) % 4
}

fn row_at<'a>(size: u16, bytes: &'a [u8], at: usize) -> (u32, &'a [u8])
    requires { at * update_size size + update_size size ≤ length bytes.now }
    ensures uid { result.0 ≡ from_le_bytes w32 (take 4 (drop (at * update_size size) bytes.now)) }
    ensures bytes { result.1.now ≡ take size (drop 4 (drop (at * update_size size) bytes.now)) }
    ensures size { length result.1.now ≡ size }
{
    let (_, rest) = bytes.split_at(at * row_size(size));
    let uid = u32_at(rest, 0);
    let (_, behind) = rest.split_at(4);
    let (row, _) = behind.split_at(usize::from(size));
    (uid, row)
}

impl<'a> RowUpdates<'a> {
    /// The rows of an update's bytes, for an extension whose introduction gave this size; `None`
    /// where they aren't a whole number of rows, and the update has no effect.
    pub fn new(size: u16, bytes: &'a [u8]) -> Option<RowUpdates<'a>>
        ensures rows { result ≡ updates_of size bytes.now }
        ensures effect { (m : Mailbox) (current : Current) → current.size ≡ size
            → with_updates bytes.now m current ≡ rows_updated result current m }
    {
        if bytes.len() % row_size(size) == 0 {
            Some(RowUpdates { size, bytes })
        } else {
            None
        }
    }

    /// The number of rows.
    pub fn len(&self) -> usize
        ensures { result ≡ length self.now.rows }
    {
        self.bytes.len() / row_size(self.size)
    }

    /// The UID and the bytes of the row at a place, counted from 0.
    pub fn get(&self, at: usize) -> (u32, &'a [u8])
        requires { at < length self.now.rows }
        ensures uid { result.0 ≡ from_le_bytes w32 (take 4 (slice_index_or self.now.rows at [])) }
        ensures bytes { result.1.now
            ≡ take self.now.size (drop 4 (slice_index_or self.now.rows at [])) }
        ensures size { length result.1.now ≡ self.now.size }
    {
        row_at(self.size, self.bytes, at)
    }
}
