ghost use Rattle.std.specs.Prelude.{◌≡◌, ◌+◌, ◌-◌, ◌<◌, ◌^◌, ◌⊎◌, [], ◌∷◌, ◌++◌, ℕ, IfOk, IfSome, OnErr, get_or, length, slice_set, true};
ghost use Rattle.dv_blocks.specs.Shared.{AreFreed, IsFound, IsHeld, IsReleased, set_of, unheld, uses_of};

use dv_model::{List, NoMemory};
use std::alloc::Global;

/// A set of keywords, and how many rows have it.
#[derive(Drop)]
pub struct Held {
    pub places: List<u32>,
    pub uses: u32,
}

// So many of the sets are looked at for one that is wanted.
const LOOKED_AT: usize = 64;

/// The set of a number.
pub fn places_of(sets: &[Held], number: u32) -> &[u32]
    ensures { result.now ≡ set_of sets.now number }
{
    if number == 0 {
        return &[];
    }
    let at = (number - 1) as usize;
    if at >= sets.len() {
        return &[];
    }
    sets[at].places.as_slice()
}

// Whether rows have the set, one more can have it, and it is this one.
fn is_same(set: &Held, places: &[u32]) -> bool
    ensures { result ≡ true → (0 < set.now.uses) × (set.now.uses + 1 < 2 ^ 32)
        × (set.now.places ≡ places.now) }
{
    set.uses > 0 && set.uses < u32::MAX && set.places.as_slice() == places
}

// The place of a set that rows have, among the first ones.
fn find(sets: &[Held], places: &[u32]) -> Option<usize>
    ensures { IfSome result (λ at. IsFound sets.now places.now at × (at < 64)) }
{
    for at in 0..sets.len().min(LOOKED_AT) {
        if is_same(&sets[at], places) {
            return Some(at);
        }
    }
    None
}

// A row more has the set at a place.
fn use_again(sets: &mut [Held], at: usize)
    requires inside { at < length sets.old }
    requires fits { (get_or sets.old at unheld).uses + 1 < 2 ^ 32 }
    ensures { sets.new
        ≡ slice_set sets.old at (record {
          places = (get_or sets.old at unheld).places;
          uses = (get_or sets.old at unheld).uses + 1;
        }) }
{
    sets[at].uses += 1;
}

// A place with a set that no row has, which is noted as free.
fn vacant(sets: &[Held], free: &mut Vec<u32>) -> Option<u32>
    ensures { IfSome result (λ at. (at < length sets.now) × (at + 1 < 2 ^ 32)
        × ((get_or sets.now at unheld).uses ≡ 0)) }
{
    let Some(at) = free.pop() else {
        return None;
    };
    if at < u32::MAX && (at as usize) < sets.len() && sets[at as usize].uses == 0 {
        return Some(at);
    }
    None
}

// Puts a set, which a row has, at a place.
fn put(sets: &mut [Held], at: usize, places: List<u32>)
    requires { at < length sets.old }
    ensures { sets.new ≡ slice_set sets.old at (record { places = places; uses = 1 }) }
{
    sets[at] = Held { places, uses: 1 };
}

// Adds a set, which a row has, at the end, with room to note each place as free.
fn add(sets: &mut Vec<Held>, free: &mut Vec<u32>, places: List<u32>) -> Result<u32, NoMemory>
    ensures ok { IfOk result (λ n. (n ≡ length sets.old.items + 1)
        × (sets.new.items ≡ sets.old.items ++ record { places = places; uses = 1 } ∷ [])) }
    ensures err { OnErr result (sets.new.items ≡ sets.old.items) }
{
    let many = sets.len();
    if many >= u32::MAX as usize {
        return Err(NoMemory);
    }
    free.reserve(many + 1)?;
    sets.push(Held { places, uses: 1 })?;
    Ok(many as u32 + 1)
}

// Puts a set, which a row has, where there is room, or at the end.
fn put_or_add(sets: &mut Vec<Held>, free: &mut Vec<u32>, places: List<u32>) -> Result<u32, NoMemory>
    ensures ok { IfOk result (λ n. IsHeld sets.old.items sets.new.items n places) }
    ensures err { OnErr result (sets.new.items ≡ sets.old.items) }
{
    match vacant(sets, free) {
        Some(at) => {
            put(sets.as_mut_slice(), at as usize, places);
            Ok(at + 1)
        }
        None => add(sets, free, places),
    }
}

/// The number of this set, which a row more has. After `NoMemory` all is as before.
pub fn hold(
    alloc: Global,
    sets: &mut Vec<Held>,
    free: &mut Vec<u32>,
    places: &[u32],
) -> Result<u32, NoMemory>
    ensures ok { IfOk result (λ n. IsHeld sets.old.items sets.new.items n places.now) }
    ensures err { OnErr result (sets.new.items ≡ sets.old.items) }
{
    if places.is_empty() {
        return Ok(0);
    }
    if let Some(at) = find(sets, places) {
        use_again(sets.as_mut_slice(), at);
        return Ok(at as u32 + 1);
    }
    let list = List::from_slice(alloc, places)?;
    put_or_add(sets, free, list)
}

// A row less has the set at a place. One that no row has then is freed.
fn leave(alloc: Global, sets: &mut [Held], at: usize)
    requires inside { at < length sets.old }
    requires used { 0 < (get_or sets.old at unheld).uses }
    ensures { IsReleased sets.old sets.new (at + 1) }
{
    let uses = sets[at].uses - 1;
    if uses == 0 {
        sets[at] = Held {
            places: List::new(alloc),
            uses,
        };
    } else {
        sets[at].uses = uses;
    }
}

/// A row less has the set of a number, without memory. A set that no row has then is freed.
pub fn release(alloc: Global, sets: &mut [Held], free: &mut Vec<u32>, number: u32)
    requires { (number ≡ 0) ⊎ (0 < uses_of sets.old number) }
    ensures { IsReleased sets.old sets.new number }
{
    if number == 0 {
        return;
    }
    let at = number - 1;
    leave(alloc, sets, at as usize);
    if sets[at as usize].uses == 0 && free.len() < free.capacity() {
        free.push_reserved(at);
    }
}
