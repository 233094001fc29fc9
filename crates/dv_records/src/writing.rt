ghost use Rattle.std.specs.Prelude.{◌≡◌, List, ℕ, ◌∷◌, ◌++◌, All, flat_map, length, replicate, OnOk, ⊤};
ghost use Rattle.std.specs.Int.{w16, w32, to_le_bytes};
ghost use Rattle.dv_model.specs.Spelling.{padding, pair_text, new_row_text, change_text, guid_row_text, part_text, intro_text, intro_head, keyword_text, how_code};
ghost use Rattle.dv_records.specs.Short.{IsShort, IsShortPart, IsShortIntro};

use dv_model::{Bytes, Change, GuidRow, How, Intro, NewRow, NoMemory, Pair, Part};

/// An item of a record's payload.
pub trait Write {
    ghost text: { Self → List ℕ };

    ghost is_short: { Self → Type 0 };

    /// Adds the item's written bytes. `NoMemory` is the only error.
    fn write(&self, out: &mut Bytes) -> Result<(), NoMemory>
        requires { is_short self.now }
        ensures { OnOk result (out.new ≡ out.old ++ text self.now) };
}

impl Write for Pair {
    ghost text = { pair_text };

    ghost is_short = { λ pair. ⊤ };

    fn write(&self, out: &mut Bytes) -> Result<(), NoMemory> {
        out.extend(&self.first.to_le_bytes())?;
        out.extend(&self.last.to_le_bytes())?;
        Ok(())
    }
}

impl Write for NewRow {
    ghost text = { new_row_text };

    ghost is_short = { λ row. ⊤ };

    fn write(&self, out: &mut Bytes) -> Result<(), NoMemory> {
        out.extend(&self.uid.to_le_bytes())?;
        out.extend(&[self.flags, 0, 0, 0])?;
        Ok(())
    }
}

impl Write for Change {
    ghost text = { change_text };

    ghost is_short = { λ change. ⊤ };

    fn write(&self, out: &mut Bytes) -> Result<(), NoMemory> {
        out.extend(&self.first.to_le_bytes())?;
        out.extend(&self.last.to_le_bytes())?;
        out.extend(&[self.add, self.remove, 0, 0])?;
        Ok(())
    }
}

impl Write for GuidRow {
    ghost text = { guid_row_text };

    ghost is_short = { λ row. ⊤ };

    fn write(&self, out: &mut Bytes) -> Result<(), NoMemory> {
        out.extend(&self.uid.to_le_bytes())?;
        out.extend(&self.guid)?;
        Ok(())
    }
}

impl Write for Part {
    ghost text = { part_text };

    ghost is_short = { IsShortPart };

    fn write(&self, out: &mut Bytes) -> Result<(), NoMemory> {
        out.extend(&self.offset.to_le_bytes())?;
        write_sized(self.bytes.as_slice(), out)
    }
}

impl Write for Intro {
    ghost text = { intro_text };

    ghost is_short = { IsShortIntro };

    fn write(&self, out: &mut Bytes) -> Result<(), NoMemory> {
        write_words(&[self.ext_id, self.reset_id, self.hdr_size], out)?;
        write_halves(&[self.record_size, self.record_align, self.flags], out)?;
        write_sized(self.name.as_slice(), out)
    }
}

// The numbers of four bytes each.
fn write_words(numbers: &[u32], out: &mut Bytes) -> Result<(), NoMemory>
    ensures { OnOk result (out.new ≡ out.old ++ flat_map (to_le_bytes w32) numbers.now) }
{
    for number in numbers {
        out.extend(&number.to_le_bytes())?;
    }
    Ok(())
}

// The numbers of two bytes each.
fn write_halves(numbers: &[u16], out: &mut Bytes) -> Result<(), NoMemory>
    ensures { OnOk result (out.new ≡ out.old ++ flat_map (to_le_bytes w16) numbers.now) }
{
    for number in numbers {
        out.extend(&number.to_le_bytes())?;
    }
    Ok(())
}

// A size of two bytes, so many bytes, and zero bytes up to a multiple of four of them.
fn write_sized(bytes: &[u8], out: &mut Bytes) -> Result<(), NoMemory>
    requires { IsShort bytes.now }
    ensures { OnOk result (out.new ≡ out.old ++ to_le_bytes w16 (length bytes.now)
        ++ bytes.now ++ replicate (padding (length bytes.now)) 0) }
{
    let size = bytes.len();
    let zeros = (4 - size % 4) % 4;
    out.extend(&(size as u16).to_le_bytes())?;
    out.extend(bytes)?;
    let (padding, _) = [0; 4].as_slice().split_at(zeros);
    out.extend(padding)?;
    Ok(())
}

/// Adds what is done with a keyword, and the keyword's name.
pub fn write_keyword(how: How, name: &[u8], out: &mut Bytes) -> Result<(), NoMemory>
    requires { IsShort name.now }
    ensures { OnOk result (out.new ≡ out.old ++ keyword_text how name.now) }
{
    let modify_type = match how {
        How::Add => 0,
        How::Remove => 1,
        How::Replace => 2,
    };
    out.extend(&[modify_type, 0])?;
    write_sized(name, out)
}

/// Adds one item after another.
pub fn write_all<T: Write>(items: &[T], out: &mut Bytes) -> Result<(), NoMemory>
    requires { All T.is_short items.now }
    ensures { OnOk result (out.new ≡ out.old ++ flat_map T.text items.now) }
{
    for item in items {
        item.write(out)?;
    }
    Ok(())
}
