ghost use Rattle.std.specs.Prelude.{◌≡◌, ◌↔◌, ◌+◌, ◌++◌, ◌<◌, ◌^◌, ℕ, List, length, replicate, IsTrue, IfSome, IfNone, OnOk};
ghost use Rattle.dv_model.specs.Names.{IsName};
ghost use Rattle.dv_model.specs.Spelling.{padding, padded};
ghost use Rattle.dv_formats.specs.Snapshots.{keyword_text};
ghost use Rattle.dv_keywords.specs.Tables.{IsNameAt};

use dv_model::{Bytes, NoMemory};
use dv_num::u16_at;
use dv_records::is_name;

// The number of zero bytes behind so many others.
fn padding(n: usize) -> usize
    ensures { result ≡ padding n }
{
    (4 - n % 4) % 4
}

/// The number of bytes that the text of a name of so many bytes takes.
pub fn size_of(len: usize) -> usize
    requires { len < 2 ^ 16 }
    ensures { result ≡ padded (2 + len) }
{
    2 + len + padding(2 + len)
}

fn are_zero(bytes: &[u8]) -> bool
    ensures { IsTrue result ↔ (bytes.now ≡ replicate (length bytes.now) 0) }
{
    bytes.iter().all(|byte| *byte == 0)
}

/// The name whose text begins these bytes.
pub fn read_name(b: &[u8]) -> Option<&[u8]>
    ensures some { IfSome result (λ name. IsNameAt b.now name.now) }
    ensures none { IfNone result ((name rest : List ℕ) → IsName name →
        b.now ≡ keyword_text name ++ rest → ⊥) }
{
    if b.len() < 2 {
        return None;
    }
    let len = usize::from(u16_at(b, 0));
    let size = size_of(len);
    if b.len() < size {
        return None;
    }
    let name = &b[2..2 + len];
    if !is_name(name) || !are_zero(&b[2 + len..size]) {
        return None;
    }
    Some(name)
}

/// Adds the text of a name in a snapshot: its length and its bytes, up to a multiple of four bytes.
/// `NoMemory` is the only error.
pub fn write_name(name: &[u8], out: &mut Bytes) -> Result<(), NoMemory>
    requires { IsName name.now }
    ensures { OnOk result (out.new ≡ out.old ++ keyword_text name.now) }
{
    let (zeros, _) = [0; 4].as_slice().split_at(padding(2 + name.len()));
    out.extend(&(name.len() as u16).to_le_bytes())?;
    out.extend(name)?;
    out.extend(zeros)?;
    Ok(())
}
