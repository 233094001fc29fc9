ghost use Rattle.std.specs.Prelude.{◌≡◌, ◌≤◌, All, IfOk, OnOk, Ok, length, replicate};
ghost use Rattle.dv_apply.specs.States.{blank_parts};

use dv_model::{Bytes, Extension, List, NoMemory};
use std::alloc::Global;

// So many zero bytes.
fn zeros(alloc: Global, size: u16) -> Result<Bytes, NoMemory>
    ensures { IfOk result (λ made. made ≡ replicate size 0) }
{
    Ok(List::from_vec(vec![in alloc; 0; usize::from(size)]?))
}

/// Zero bytes for each extension, as a new row has them.
pub fn blank(alloc: Global, extensions: &[Extension]) -> Result<List<Bytes>, NoMemory>
    ensures { IfOk result (λ made. made ≡ blank_parts extensions.now) }
{
    let mut parts = List::from_vec(Vec::with_capacity(alloc, extensions.len())?);
    for extension in extensions {
        parts.push(zeros(alloc, extension.record_size)?)?;
    }
    Ok(parts)
}

/// Makes the zero bytes of so many rows, where there are fewer.
pub fn fill(
    alloc: Global,
    blanks: &mut Vec<List<Bytes>>,
    extensions: &[Extension],
    n: usize,
) -> Result<(), NoMemory>
    requires { All (λ parts. parts ≡ blank_parts extensions.now) blanks.old.items }
    ensures blank { All (λ parts. parts ≡ blank_parts extensions.now) blanks.new.items }
    ensures more { length blanks.old.items ≤ length blanks.new.items }
    ensures ok { OnOk result (n ≤ length blanks.new.items) }
    ensures succeeds { n ≤ length blanks.old.items → result ≡ Ok tt }
{
    let have = blanks.len();
    for _ in have..n {
        let parts = blank(alloc, extensions)?;
        blanks.push(parts)?;
    }
    Ok(())
}
