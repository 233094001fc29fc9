ghost use Rattle.std.specs.Prelude.{List, ℕ, ◌≡◌, ◌≤◌, ◌++◌, All, flat_map, length, IfOk, OnOk};
ghost use Rattle.std.specs.Int.{w32, to_le_bytes};
ghost use Rattle.dv_model.specs.declared.types.Record.{Record};
ghost use Rattle.dv_logfile.specs.declared.header.LogHeader.{LogHeader};
ghost use Rattle.dv_model.specs.Spelling.{IsRecord, written, group_text};
ghost use Rattle.dv_logfile.specs.Layout.{IsGroupText, IsGoodHeader, IsLog, IsOneLog, closing, header_text, last_end, log_end, log_text};

use crate::LogHeader;
use dv_model::{Bytes, Group, List, NoMemory, Record};
use dv_records::{encode, room_for};
use std::alloc::Global;

/// The bytes of a log file with these records, and four zero bytes behind them. `NoMemory` is the
/// only error.
pub fn create(alloc: Global, header: &LogHeader, records: &List<Record>) -> Result<Bytes, NoMemory>
    requires size { header.now.hdr_size ≡ 40 }
    requires valid { All IsRecord records.now }
    ensures text { IfOk result (λ text. text ≡ log_text header.now records.now) }
    ensures log { IsGoodHeader header.now → log_end records.now ≤ last_end →
        IfOk result (λ text. IsLog header.now records.now (log_end records.now) text) }
{
    let mut text = List::new(alloc);
    write_header(header, &mut text)?;
    write_records(alloc, records.as_slice(), &mut text)?;
    text.extend(&[0; 4])?;
    Ok(text)
}

/// The text of a group as `LogFile::commit` takes it: its records, and four zero bytes. `NoMemory`
/// is the only error.
pub fn group_text(alloc: Global, group: &Group) -> Result<Bytes, NoMemory>
    requires some { 1 ≤ length group.now.records }
    requires valid { All IsRecord group.now.records }
    ensures text { IfOk result (λ text. text ≡ group_text group.now ++ closing) }
    ensures group { IfOk result IsGroupText }
{
    let room = room_for(group.records.as_slice()).saturating_add(4);
    let mut text = List::from_vec(Vec::with_capacity(alloc, room)?);
    write_records(alloc, group.records.as_slice(), &mut text)?;
    text.extend(&[0; 4])?;
    Ok(text)
}

/// A file is one log at most: its header, its records and their end.
pub fn one_log()
    ensures { (h k : LogHeader) (rs ss : List Record) (e f : ℕ) (b : List ℕ) →
        IsLog h rs e b → IsLog k ss f b → IsOneLog h k rs ss e f }
{}

fn write_header(header: &LogHeader, out: &mut Bytes) -> Result<(), NoMemory>
    ensures { OnOk result (out.new ≡ out.old ++ header_text header.now) }
{
    out.extend(&[header.major_version, header.minor_version])?;
    out.extend(&header.hdr_size.to_le_bytes())?;
    write_words(
        &[header.indexid, header.file_seq, header.prev_file_seq],
        out,
    )?;
    write_words(&[header.prev_file_offset, header.create_stamp], out)?;
    out.extend(&header.initial_modseq.to_le_bytes())?;
    out.extend(&[header.compat_flags, 0, 0, 0, 0, 0, 0, 0])?;
    Ok(())
}

// The numbers of four bytes each.
fn write_words(numbers: &[u32], out: &mut Bytes) -> Result<(), NoMemory>
    ensures { OnOk result (out.new ≡ out.old ++ flat_map (to_le_bytes w32) numbers.now) }
{
    for number in numbers {
        out.extend(&number.to_le_bytes())?;
    }
    Ok(())
}

fn write_records(alloc: Global, records: &[Record], out: &mut Bytes) -> Result<(), NoMemory>
    requires { All IsRecord records.now }
    ensures { OnOk result (out.new ≡ out.old ++ flat_map written records.now) }
{
    for record in records {
        encode(alloc, record, out)?;
    }
    Ok(())
}
