ghost use Rattle.std.specs.Prelude.{◌≡◌, ◌+◌, ◌≤◌, length, take, drop};
ghost use Rattle.std.specs.Int.{w16, w32, w64, from_le_bytes};

use byteorder::{ByteOrder, LittleEndian};

/// The number of the two bytes from `at` on, the first the least significant.
pub fn u16_at(b: &[u8], at: usize) -> u16
    requires { at + 2 ≤ length b.now }
    ensures { result ≡ from_le_bytes w16 (take 2 (drop at b.now)) }
{
    LittleEndian::read_u16(&b[at..])
}

/// The number of the four bytes from `at` on, the first the least significant.
pub fn u32_at(b: &[u8], at: usize) -> u32
    requires { at + 4 ≤ length b.now }
    ensures { result ≡ from_le_bytes w32 (take 4 (drop at b.now)) }
{
    LittleEndian::read_u32(&b[at..])
}

/// The number of the eight bytes from `at` on, the first the least significant.
pub fn u64_at(b: &[u8], at: usize) -> u64
    requires { at + 8 ≤ length b.now }
    ensures { result ≡ from_le_bytes w64 (take 8 (drop at b.now)) }
{
    LittleEndian::read_u64(&b[at..])
}
