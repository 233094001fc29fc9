//! The snapshot of a mailbox's index.

ghost use Rattle.std.specs.Prelude.{◌≡◌, ◌≤◌, Some, map, IfErr, IfOk, IfSome};
ghost use Rattle.dv_model.specs.declared.types.OpenFault.TheVariants as fault;
ghost use Rattle.dv_model.specs.Mailboxes.{IsValid, last_modseq};
ghost use Rattle.dv_openings.specs.Openings.{IsIndex, all_numbered, numbered_row, with_numbers};
ghost use Rattle.dv_chain.specs.Files.{snapshot_in, snapshot_of};

use dv_apply::Live;
use dv_index::{IndexEnd, read};
use dv_model::{List, Mailbox, Mark, OpenFault, Row};
use std::alloc::Global;

/// A snapshot: a mailbox, with the place of the log up to which it has the records.
#[derive(Drop)]
pub struct Index {
    pub mailbox: Mailbox,
    pub indexid: u32,
    pub mark: Mark,
    pub version: u8,
}

/// The snapshot in a file's bytes; None where they are the text of none.
pub fn read_index(alloc: Global, bytes: &[u8]) -> Result<Option<Index>, OpenFault>
    ensures found { IfOk result (λ index. IsIndex (Some bytes.now) (snapshot_in index)) }
    ensures valid { IfOk result (λ index. IfSome index (λ i. IsValid i.mailbox)) }
    ensures err { IfErr result (λ e. e ≡ fault.NoMemory) }
{
    match read(alloc, bytes) {
        Ok((mailbox, indexid, mark, version)) => Ok(Some(Index {
            mailbox,
            indexid,
            mark,
            version,
        })),
        Err(IndexEnd::Fault(_)) => Ok(None),
        Err(IndexEnd::NoMemory) => Err(OpenFault::NoMemory),
    }
}

fn number_rows(rows: &mut [Row], n: u64)
    ensures { rows.new ≡ map (numbered_row n) rows.old }
{
    for row in rows.iter_mut() {
        row.modseq = n;
    }
}

/// The mailbox with one modification sequence everywhere.
fn numbered(m: Mailbox, n: u64) -> Mailbox
    ensures { result ≡ all_numbered n m }
{
    let mut rows = m.rows.into_vec();
    number_rows(rows.as_mut_slice(), n);
    Mailbox {
        rows: List::from_vec(rows),
        highest: n,
        ..m
    }
}

impl Index {
    /// Its mailbox. A snapshot of version 1 has no modification sequences: each is this number.
    fn numbered(self, n: u64) -> Mailbox
        requires valid { IsValid self.mailbox }
        requires some { 1 ≤ n }
        requires small { n ≤ last_modseq }
        ensures is { result ≡ with_numbers (snapshot_of self) n }
        ensures valid { IsValid result }
    {
        if self.version == 1 {
            numbered(self.mailbox, n)
        } else {
            self.mailbox
        }
    }

    /// The mailbox as a live one. A snapshot of version 1 has no modification sequences of its own:
    /// each is this number.
    pub fn start(self, alloc: Global, n: u64) -> Result<Live, OpenFault>
        requires valid { IsValid self.mailbox }
        requires some { 1 ≤ n }
        requires small { n ≤ last_modseq }
        ensures ok { IfOk result (λ live. live.mailbox ≡ with_numbers (snapshot_of self) n) }
        ensures err { IfErr result (λ e. e ≡ fault.NoMemory) }
    {
        Ok(Live::of(alloc, self.numbered(n))?)
    }
}
