//! What is kept beside the rows of a maildrop.

ghost use Rattle.std.specs.Prelude.{◌≡◌, ◌+◌, ◌<◌, ℕ, [], IfOk, false, get_or, length, map, nat_eq, sum_by, if◌then◌else◌};
ghost use Rattle.std.specs.List.{list_any};
ghost use Rattle.dv_maildrop.specs.Counts.{chosen};
ghost use Rattle.dv_maildrop.specs.Maildrops.{uid_span};

use crate::types::Listed;
use dv_model::{End, List, NoMemory, Span};
use std::alloc::Global;

/// The sum of the sizes.
pub(crate) fn octets_of(rows: &[Listed]) -> u128
    ensures { result ≡ sum_by (λ row. row.size) rows.now }
{
    let mut octets: u128 = 0;
    for row in rows {
        octets += u128::from(row.size);
    }
    octets
}

/// Sets the flag of a number, counted from 1.
pub(crate) fn set_flag(flags: &mut [bool], number: u32, flag: bool)
    ensures { (i : ℕ) → i < length flags.old → get_or flags.new i false
        ≡ (if nat_eq (i + 1) number then flag else get_or flags.old i false) }
{
    let end = number as usize;
    if 0 < end && end <= flags.len() {
        flags[end - 1] = flag;
    }
}

/// Takes all numbers out, and their flags back.
pub(crate) fn unmark(numbers: &mut Vec<u32>, flags: &mut [bool])
    // No other flag is set.
    requires { (i : ℕ) → i < length flags.old → list_any (nat_eq (i + 1)) numbers.old.items ≡ false
        → get_or flags.old i false ≡ false }
    ensures numbers { numbers.new.items ≡ [] }
    ensures flags { (i : ℕ) → i < length flags.old → get_or flags.new i false ≡ false }
{
    while let Some(number) = numbers.pop() {
        set_flag(flags, number, false);
    }
}

/// The UIDs of the rows whose flags are set, as a set.
pub(crate) fn set_of(alloc: Global, rows: &[Listed], flags: &[bool]) -> Result<List<Span>, NoMemory>
    requires { length flags.now ≡ length rows.now }
    ensures { IfOk result (λ set. set ≡ map (λ row. uid_span row.1.uid)
        (chosen (λ flag. flag) 1 rows.now flags.now)) }
{
    let mut set = List::new(alloc);
    for place in 0..rows.len() {
        if flags[place] {
            let end = End::Number(rows[place].uid);
            set.push(Span { from: end, to: end })?;
        }
    }
    Ok(set)
}
