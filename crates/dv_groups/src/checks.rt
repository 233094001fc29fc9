ghost use Rattle.std.specs.Prelude.{◌≡◌, ◌+◌, ◌-◌, ◌*◌, ◌≤◌, ◌++◌, IfOk, OnOk, bytes_eq, codes, drop, find, flat_map, length, map, take};
ghost use Rattle.std.specs.Int.{w32, to_le_bytes};
ghost use Rattle.std.specs.List.{enumerate_from};
ghost use Rattle.std.specs.Option.{option_copied};
ghost use Rattle.dv_model.specs.declared.types.Body.TheVariants as body;
ghost use Rattle.dv_model.specs.Sessions.{cache_number, check_records, internal_record, next_number, offset_row, pieces};

use crate::cutting::PIECE;
use crate::records::internal;
use dv_model::{Body, Bytes, Extension, Intro, List, NoMemory, Record};
use dv_view::Live;
use std::alloc::Global;

// Stands for the place of an extension that is named.
const NO_ID: u32 = 4_294_967_295;

const CACHE: &[u8] = b"cache";

fn cache_of(extensions: &[Extension]) -> Option<&Extension>
    ensures { option_copied result
        ≡ find (λ e. bytes_eq e.name (codes "cache")) extensions.now }
{
    extensions.iter().find(|e| e.name.as_slice() == CACHE)
}

// The number of the mailbox's cache file, or 0 where it has none.
fn cache_number(live: &Live) -> u32
    ensures { result ≡ cache_number live.now.mailbox }
{
    match cache_of(live.extensions().list().as_slice()) {
        Some(cache) => cache.reset_id,
        None => 0,
    }
}

// The next number, which is never 0.
fn next_number(n: u32) -> u32
    ensures { result ≡ next_number n }
{
    if n == u32::MAX { 1 } else { n + 1 }
}

/// The number that a CHECK gives the mailbox's cache file, which is never 0.
pub fn next_cache_number(live: &Live) -> u32
    ensures { result ≡ next_number (cache_number live.now.mailbox) }
{
    next_number(cache_number(live))
}

// The place of the entry of the row at this place, in bytes of the cache file.
fn offset_of(at: u32) -> [u8; 4]
    ensures { result ≡ to_le_bytes w32 (32 + 16 * at) }
{
    let [a, b, c, d, _, _, _, _] = (32 + 16 * u64::from(at)).to_le_bytes();
    [a, b, c, d]
}

// The rows from one place up to another, with the places of their entries.
fn offsets(alloc: Global, live: &Live, from: u32, to: u32) -> Result<Bytes, NoMemory>
    requires rising { from ≤ to }
    requires inside { to ≤ length live.now.mailbox.rows }
    ensures { IfOk result (λ bytes. bytes ≡ flat_map offset_row
        (take (to - from) (drop from (enumerate_from 0 live.now.mailbox.rows)))) }
{
    let room = 8 * (to - from) as usize;
    let mut bytes = List::from_vec(Vec::with_capacity(alloc, room)?);
    for at in from..to {
        bytes.extend(&live.row(at).uid.to_le_bytes())?;
        bytes.extend(&offset_of(at))?;
    }
    Ok(bytes)
}

// Adds the records that say where each row's entry stands.
fn add_offsets(alloc: Global, live: &Live, records: &mut List<Record>) -> Result<(), NoMemory>
    ensures { OnOk result (records.new ≡ records.old
        ++ map (λ rows. internal_record (body.ExtRecordUpdate (flat_map offset_row rows)))
        (pieces (enumerate_from 0 live.now.mailbox.rows))) }
{
    let count = live.count();
    let mut from = 0;
    while from < count {
        let to = from + (count - from).min(PIECE);
        let bytes = offsets(alloc, live, from, to)?;
        records.push(internal(Body::ExtRecordUpdate(bytes)))?;
        from = to;
    }
    Ok(())
}

/// The records of a CHECK: the cache is introduced, given its next number, and each row told where
/// its entry stands. `NoMemory` is the only error. The time is in proportion to the rows.
pub fn check_records(alloc: Global, live: &Live) -> Result<List<Record>, NoMemory>
    ensures { IfOk result (λ records. records ≡ check_records live.now.mailbox) }
{
    let number = cache_number(live);
    let introduction = Intro {
        ext_id: NO_ID,
        reset_id: number,
        hdr_size: 0,
        record_size: 4,
        record_align: 4,
        flags: 0,
        name: Bytes::from_slice(alloc, CACHE)?,
    };
    let mut introductions = List::new(alloc);
    introductions.push(introduction)?;
    let mut records = List::new(alloc);
    records.push(internal(Body::ExtIntro(introductions)))?;
    records.push(internal(Body::ExtReset {
        reset_id: next_number(number),
        preserve: 0,
    }))?;
    add_offsets(alloc, live, &mut records)?;
    Ok(records)
}
