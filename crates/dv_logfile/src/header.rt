ghost use Rattle.std.specs.Prelude.{◌≡◌, ◌≤◌, length, nat_le, slice_index, if◌then◌else◌, IfSome, IsNone};
ghost use Rattle.std.specs.Int.{w64, from_le_bytes};
ghost use Rattle.dv_logfile.specs.declared.header.LogHeader.{LogHeader};
ghost use Rattle.dv_logfile.specs.Layout.{IsHeader, bytes_at, header_of, header_size};

use dv_num::{u16_at, u32_at, u64_at};

/// The header of a log file (Dovecot's `mail_transaction_log_header`). Its numbers are
/// little-endian.
#[derive(Clone, Copy, PartialEq, Eq, Debug)]
pub struct LogHeader {
    /// Byte 0, which is 1.
    pub major_version: u8,
    /// Byte 1.
    pub minor_version: u8,
    /// Bytes 2 and 3: where the first record stands.
    pub hdr_size: u16,
    /// Bytes 4 to 7, which aren't 0: the index that the log belongs to.
    pub indexid: u32,
    /// Bytes 8 to 11, which aren't 0: the number of this file among the index's log files.
    pub file_seq: u32,
    /// Bytes 12 to 15: the number of the file before this one, or 0.
    pub prev_file_seq: u32,
    /// Bytes 16 to 19: where the file before this one ended, or 0.
    pub prev_file_offset: u32,
    /// Bytes 20 to 23: when the file was made, in seconds since 1970.
    pub create_stamp: u32,
    /// Bytes 24 to 31: the modification sequence at the file's start.
    pub initial_modseq: u64,
    /// Byte 32: 1 where the file is little-endian (`MAIL_INDEX_COMPAT_LITTLE_ENDIAN`).
    pub compat_flags: u8,
}

/// The fewest bytes of a header: those up to `create_stamp`.
const SHORTEST_HEADER: usize = 24;

/// The most bytes of a file.
const LONGEST_LOG: usize = 1_073_741_824;

/// The header that a file begins with. Fields that don't stand wholly in the header's size are 0.
///
/// None exactly where the file has fewer than 24 bytes or more than 1,073,741,824, its major
/// version isn't 1, the header's size is below 24 or above the file's length, `indexid` or
/// `file_seq` is 0, or the byte of `compat_flags` is there and isn't that of a little-endian file.
pub fn read_header(b: &[u8]) -> Option<LogHeader>
    ensures found { IfSome result (λ h. IsHeader h b.now) }
    ensures none { IsNone result → (h : LogHeader) → IsHeader h b.now → ⊥ }
{
    if b.len() < SHORTEST_HEADER || b.len() > LONGEST_LOG {
        return None;
    }
    let size = usize::from(u16_at(b, 2));
    if size < SHORTEST_HEADER || size > b.len() {
        return None;
    }
    let header = fields_of(b);
    if header.major_version != 1 || header.indexid == 0 || header.file_seq == 0 {
        return None;
    }
    if size >= 33 && header.compat_flags % 2 == 0 {
        return None;
    }
    Some(header)
}

/// The fields of the header.
fn fields_of(b: &[u8]) -> LogHeader
    requires some { 24 ≤ length b.now }
    requires size { header_size b.now ≤ length b.now }
    ensures { result ≡ header_of b.now }
{
    let hdr_size = u16_at(b, 2);
    LogHeader {
        major_version: b[0],
        minor_version: b[1],
        hdr_size,
        indexid: u32_at(b, 4),
        file_seq: u32_at(b, 8),
        prev_file_seq: u32_at(b, 12),
        prev_file_offset: u32_at(b, 16),
        create_stamp: u32_at(b, 20),
        initial_modseq: initial_modseq(b, hdr_size),
        compat_flags: compat_flags(b, hdr_size),
    }
}

/// The modification sequence, where the header's size has it.
fn initial_modseq(b: &[u8], hdr_size: u16) -> u64
    requires { hdr_size ≤ length b.now }
    ensures { result ≡
        (if nat_le 32 hdr_size then from_le_bytes w64 (bytes_at 24 8 b.now) else 0) }
{
    if hdr_size >= 32 { u64_at(b, 24) } else { 0 }
}

/// The flags, where the header's size has them.
fn compat_flags(b: &[u8], hdr_size: u16) -> u8
    requires { hdr_size ≤ length b.now }
    ensures { result ≡ (if nat_le 33 hdr_size then slice_index b.now 32 else 0) }
{
    if hdr_size >= 33 { b[32] } else { 0 }
}
