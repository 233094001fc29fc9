//! The message files of a folder, and which of them are kept.

ghost use Rattle.std.specs.Prelude.{◌≡◌, ◌&&◌, All, IfErr, IfOk, None, OnOk, Some, nat_le};
ghost use Rattle.std.specs.List.{list_any};
ghost use Rattle.dv_model.specs.Spelling.{IsUid};
ghost use Rattle.dv_shelf.specs.Causes.{HasCauseOf};
ghost use Rattle.dv_shelf.specs.declared.shelf.ShelfFault.TheVariants as fault;
ghost use Rattle.dv_openings.specs.Rebuilds.{last_uid};
ghost use Rattle.dv_chain.specs.Openings.{OnlyLooks};
ghost use Rattle.dv_rebuild.specs.Mails.{Adds, AddsSkip, AreNumbersOf, IsSifted, is_cache, numbers_in};
ghost use Rattle.dv_rebuild.specs.Reports.{file_cause, skip_cause};

use crate::reporting::{Skip, SkipCause};
use dv_dbox::{BoxEnd, read};
use dv_model::{List, NoMemory};
use dv_rows::sort_uids;
use dv_shelf::{Name, Shelf, ShelfFault};
use std::alloc::Global;

/// The largest UID that a message may have.
const LAST_UID: u32 = 4_294_967_294;

/// So many skipped files are told one by one.
const TOLD: usize = 100;

/// Whether a name is that of the cache file.
fn is_cache(name: Name) -> bool
    ensures { result ≡ is_cache name }
{
    match name {
        Name::Cache => true,
        _ => false,
    }
}

/// Whether one of the names is.
pub fn has_cache(names: &[Name]) -> bool
    ensures { result ≡ list_any is_cache names.now }
{
    names.iter().any(|name| is_cache(*name))
}

/// The numbers of the message files, in the order of their names.
fn numbers_in(alloc: Global, names: &[Name]) -> Result<List<u32>, NoMemory>
    ensures { IfOk result (λ numbers. numbers ≡ numbers_in names.now) }
{
    let mut numbers = List::new(alloc);
    for name in names {
        if let Name::Mail(n) = name {
            numbers.push(*n)?;
        }
    }
    Ok(numbers)
}

/// The numbers of the message files among the names of a listing, rising, each once. `NoMemory` is
/// the only error.
pub fn numbers_of(alloc: Global, names: &[Name]) -> Result<List<u32>, NoMemory>
    ensures { IfOk result (AreNumbersOf names.now) }
{
    let mut numbers = numbers_in(alloc, names)?.into_vec();
    sort_uids(&mut numbers);
    Ok(List::from_vec(numbers))
}

/// Message files, as they are kept or skipped.
#[derive(Drop)]
pub struct Sifted {
    /// The UIDs of the messages that are kept, rising.
    pub kept: List<u32>,
    /// How many files are skipped.
    pub skipped: u32,
    /// The first hundred of them.
    pub skips: List<Skip>,
}

/// Whether a number may be a UID.
fn may_be_uid(n: u32) -> bool
    ensures { result ≡ (nat_le 1 n && nat_le n last_uid) }
{
    1 <= n && n <= LAST_UID
}

/// Why a message file of these bytes is skipped: they aren't of the format. Or it isn't.
fn file_cause(alloc: Global, bytes: &[u8]) -> Result<Option<SkipCause>, ShelfFault>
    ensures ok { IfOk result (λ cause. cause ≡ file_cause (Some bytes.now)) }
    ensures err { IfErr result (λ e. e ≡ fault.NoMemory) }
{
    match read(alloc, bytes) {
        Ok(_) => Ok(None),
        Err(BoxEnd::Fault(fault)) => Ok(Some(SkipCause::Broken(fault))),
        Err(BoxEnd::NoMemory) => Err(ShelfFault::NoMemory),
    }
}

/// Why the message file of a number is skipped: the number may be no UID, or the file isn't of the
/// format. Or it isn't skipped. A file of a number that may be no UID isn't read.
fn skip_cause<S: Shelf>(
    alloc: Global,
    shelf: &mut S,
    n: u32,
) -> Result<Option<SkipCause>, ShelfFault>
    ensures is { S.sees.tells →
        IfOk result (λ cause. cause ≡ skip_cause (S.sees.files shelf.old) n) }
    ensures uid { IfOk result (λ cause. cause ≡ None → IsUid n) }
    ensures looks { S.sees.tells →
        OnlyLooks S.sees shelf.old shelf.new }
    ensures cause { HasCauseOf ShelfFault.Failed
        (S.sees.fault_count shelf.old) (S.sees.fault_count shelf.new) result }
{
    if !may_be_uid(n) {
        return Ok(Some(SkipCause::NoUid));
    }
    match shelf.read(alloc, Name::Mail(n))? {
        Some(bytes) => file_cause(alloc, bytes.as_slice()),
        None => Ok(Some(SkipCause::Gone)),
    }
}

/// Counts a message file as skipped, and tells of it where it is one of the first. `NoMemory` is
/// the only error.
fn add_skip(sifted: &mut Sifted, skip: Skip) -> Result<(), NoMemory>
    ensures { OnOk result (AddsSkip skip sifted.old sifted.new) }
{
    match sifted.skipped.checked_add(1) {
        Some(skipped) => sifted.skipped = skipped,
        None => return Err(NoMemory),
    }
    if sifted.skips.len() < TOLD {
        sifted.skips.push(skip)?;
    }
    Ok(())
}

/// Counts a message file as kept, or as skipped for this cause. `NoMemory` is the only error.
fn add(sifted: &mut Sifted, n: u32, cause: Option<SkipCause>) -> Result<(), NoMemory>
    ensures { OnOk result (Adds n cause sifted.old sifted.new) }
{
    match cause {
        Some(cause) => add_skip(sifted, Skip { number: n, cause }),
        None => {
            sifted.kept.push(n)?;
            Ok(())
        }
    }
}

/// Looks at the message files of these numbers, one after another, and keeps none in memory.
/// `NoMemory` is also the answer where more than 4,294,967,295 files are skipped.
pub fn sift<S: Shelf>(alloc: Global, shelf: &mut S, numbers: &[u32]) -> Result<Sifted, ShelfFault>
    // Which are kept, how many aren't, and of the first of those why.
    ensures sifted { S.sees.tells → IfOk result (IsSifted (S.sees.files shelf.old) numbers.now) }
    ensures uids { IfOk result (λ sifted. All IsUid sifted.kept) }
    // Nothing is changed; a fault of the disk has its cause.
    ensures looks { S.sees.tells →
        OnlyLooks S.sees shelf.old shelf.new }
    ensures cause { HasCauseOf ShelfFault.Failed
        (S.sees.fault_count shelf.old) (S.sees.fault_count shelf.new) result }
{
    let mut sifted = Sifted {
        kept: List::new(alloc),
        skipped: 0,
        skips: List::new(alloc),
    };
    for n in numbers {
        let cause = skip_cause(alloc, shelf, *n)?;
        match add(&mut sifted, *n, cause) {
            Ok(()) => (),
            Err(_) => return Err(ShelfFault::NoMemory),
        }
    }
    Ok(sifted)
}
