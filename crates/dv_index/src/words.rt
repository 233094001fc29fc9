ghost use Rattle.std.specs.Prelude.{◌≡◌, ◌↔◌, ◌^◌, ◌<◌, ◌++◌, ℕ, All, List, flat_map, length, replicate, IfNone, IfSome, IsTrue, OnOk};
ghost use Rattle.std.specs.Int.{w16, w32, to_le_bytes};
ghost use Rattle.dv_model.specs.Spelling.{padding};
ghost use Rattle.dv_formats.specs.Snapshots.{AreBytes, filled};

use dv_model::{Bytes, NoMemory};

/// The number of zero bytes behind so many others, up to a multiple of four.
pub fn padding(n: usize) -> usize
    ensures { result ≡ padding n }
{
    (4 - n % 4) % 4
}

/// Adds the numbers of four bytes each, the least significant byte first.
pub fn write_words(numbers: &[u32], out: &mut Bytes) -> Result<(), NoMemory>
    ensures text { OnOk result (out.new ≡ out.old ++ flat_map (to_le_bytes w32) numbers.now) }
    ensures fits { All (λ n. n < 2 ^ 32) numbers.now }
{
    for number in numbers {
        out.extend(&number.to_le_bytes())?;
    }
    Ok(())
}

/// Adds the numbers of two bytes each, the least significant byte first.
pub fn write_halves(numbers: &[u16], out: &mut Bytes) -> Result<(), NoMemory>
    ensures text { OnOk result (out.new ≡ out.old ++ flat_map (to_le_bytes w16) numbers.now) }
    ensures fits { All (λ n. n < 2 ^ 16) numbers.now }
{
    for number in numbers {
        out.extend(&number.to_le_bytes())?;
    }
    Ok(())
}

/// Adds the bytes, and zero bytes up to a multiple of four of them.
pub fn write_filled(bytes: &[u8], out: &mut Bytes) -> Result<(), NoMemory>
    ensures text { OnOk result (out.new ≡ out.old ++ filled bytes.now) }
    ensures fits { AreBytes bytes.now }
{
    let (zeros, _) = [0; 4].as_slice().split_at(padding(bytes.len()));
    out.extend(bytes)?;
    if !zeros.is_empty() {
        out.extend(zeros)?;
    }
    Ok(())
}

/// Whether all bytes are zero.
pub fn are_zero(bytes: &[u8]) -> bool
    ensures { IsTrue result ↔ (bytes.now ≡ replicate (length bytes.now) 0) }
{
    bytes.iter().all(|byte| *byte == 0)
}

/// So many bytes at the front, and what follows them and the zero bytes up to a multiple of four.
pub fn split_filled(size: usize, b: &[u8]) -> Option<(&[u8], &[u8])>
    requires { size < 2 ^ 32 }
    ensures some { IfSome result (λ x.
        (length x.0.now ≡ size) × (b.now ≡ filled x.0.now ++ x.1.now)) }
    ensures none { IfNone result ((text rest : List ℕ)
        → length text ≡ size
        → b.now ≡ filled text ++ rest
        → ⊥) }
{
    let end = size + padding(size);
    if b.len() < end {
        return None;
    }
    let (front, rest) = b.split_at(end);
    let (text, zeros) = front.split_at(size);
    if !are_zero(zeros) {
        return None;
    }
    Some((text, rest))
}
