ghost use Rattle.std.specs.Prelude.{◌≡◌, ◌<◌, Some, length, slice_get};
ghost use Rattle.dv_blocks.specs.Shared.{cut};

use std::marker::Model;

/// A row of a mailbox, lent by the blocks that it is in. Contracts see it as the row.
#[derive(Drop)]
pub struct RowView<'a> {
    pub(crate) uid: u32,
    pub(crate) flags: u8,
    pub(crate) modseq: u64,
    pub(crate) keywords: &'a [u32],
    pub(crate) parts: &'a [u8],
    pub(crate) sizes: &'a [u16],
}

impl<'a> Model for RowView<'a> {
    ghost use Rattle.dv_model.specs.declared.types.Row.{Row};
    ghost use Rattle.dv_blocks.specs.Shared.{cut};

    ghost Value = { Row };

    ghost view = { λ r. record {
      uid = r.uid;
      flags = r.flags;
      keywords = r.keywords.now;
      parts = cut r.sizes.now r.parts.now;
      modseq = r.modseq;
    } };
}

// The bytes of a part among parts of these sizes.
fn part_at<'a>(sizes: &[u16], parts: &'a [u8], at: usize) -> &'a [u8]
    requires { at < length sizes.now }
    ensures { slice_get (cut sizes.now parts.now) at ≡ Some result.now }
{
    let mut rest = parts;
    for k in 0..at {
        let size = usize::from(sizes[k]).min(rest.len());
        let (_, behind) = rest.split_at(size);
        rest = behind;
    }
    let size = usize::from(sizes[at]).min(rest.len());
    let (part, _) = rest.split_at(size);
    part
}

impl<'a> RowView<'a> {
    /// The UID.
    pub fn uid(&self) -> u32
        ensures { result ≡ self.now.uid }
    {
        self.uid
    }

    /// The flags.
    pub fn flags(&self) -> u8
        ensures { result ≡ self.now.flags }
    {
        self.flags
    }

    /// The modification sequence.
    pub fn modseq(&self) -> u64
        ensures { result ≡ self.now.modseq }
    {
        self.modseq
    }

    /// The keywords, places in the mailbox's table.
    pub fn keywords(&self) -> &'a [u32]
        ensures { result.now ≡ self.now.keywords }
    {
        self.keywords
    }

    /// The number of parts.
    pub fn part_count(&self) -> usize
        ensures { result ≡ length self.now.parts }
    {
        self.sizes.len()
    }

    /// The part of an extension.
    pub fn part(&self, at: usize) -> &'a [u8]
        requires { at < length self.now.parts }
        ensures { slice_get self.now.parts at ≡ Some result.now }
    {
        part_at(self.sizes, self.parts, at)
    }
}
