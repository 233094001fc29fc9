ghost use Rattle.std.specs.Prelude.{◌≡◌, ◌↔◌, IfErr, IfOk, IsErr, IsTrue, None, Ok, Some};
ghost use Rattle.std.specs.IoError.{error_kind};
ghost use Rattle.dv_folder.specs.Kinds.{IsShortFile};

use std::fs::Metadata;
use std::io::{self, ErrorKind};
use std::os::unix::fs::MetadataExt;

/// The most bytes of a file.
const LONGEST_FILE: u64 = 4_294_967_295;

/// What stands at a name.
#[derive(Drop)]
pub(crate) enum Kind {
    Missing,
    File(Metadata),
    /// A link, a FIFO, a device, a socket, a directory, or too long a file.
    Other,
}

/// Whether it is a file of the folder: a regular one of at most 4294967295 bytes.
pub(crate) fn is_file(found: &Metadata) -> bool
    ensures { IsTrue result ↔ IsShortFile found.now }
{
    let is_regular = found.is_file();
    let is_short = found.len() <= LONGEST_FILE;
    is_regular && is_short
}

/// What a look at a name found. Only the error that there is none says so.
pub(crate) fn kind_of(found: io::Result<Metadata>) -> io::Result<Kind>
    ensures file { IfOk found (λ m. IsShortFile m → result ≡ Ok (Kind.File m)) }
    ensures other { IfOk found (λ m. (IsShortFile m → ⊥) → result ≡ Ok Kind.Other) }
    ensures missing { IfErr found (λ e. error_kind e ≡ ErrorKind.NotFound →
        result ≡ Ok Kind.Missing) }
    ensures failed { IfErr found (λ e. (error_kind e ≡ ErrorKind.NotFound → ⊥) → IsErr result) }
{
    match found {
        Ok(found) => {
            if is_file(&found) {
                Ok(Kind::File(found))
            } else {
                Ok(Kind::Other)
            }
        }
        Err(e) if e.kind() == ErrorKind::NotFound => Ok(Kind::Missing),
        Err(e) => Err(e),
    }
}

/// The entry that a listing gives, or `None` where its name is no UTF-8: that of another file.
pub(crate) fn named<T>(entry: io::Result<T>) -> io::Result<Option<T>>
    ensures named { IfOk entry (λ e. result ≡ Ok (Some e)) }
    ensures unnamed { IfErr entry (λ e. error_kind e ≡ ErrorKind.InvalidFilename →
        result ≡ Ok None) }
    ensures failed { IfErr entry (λ e. (error_kind e ≡ ErrorKind.InvalidFilename → ⊥) →
        IsErr result) }
{
    match entry {
        Ok(entry) => Ok(Some(entry)),
        Err(e) if e.kind() == ErrorKind::InvalidFilename => Ok(None),
        Err(e) => Err(e),
    }
}

/// Whether two looks found the same file.
pub(crate) fn is_same(a: &Metadata, b: &Metadata) -> bool {
    a.dev() == b.dev() && a.ino() == b.ino()
}
