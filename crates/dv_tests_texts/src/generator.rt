use dv_gen::{draw, script};
use dv_script::{ScriptEnd, parse, print_script};
use std::alloc::Global;
use std::test::*;

fn first_draw(seed: u64) -> u32 {
    let mut state = seed;
    draw(&mut state)
}

#[test]
fn first_draw_of_seed_seven(rt: HostRuntime) {
    assert_eq!(rt; first_draw(7), 1059165278);
}

// The text's FNV-1a hash of 64 bits.
fn hash_of(text: &[u8]) -> u64 {
    let mut hash: u64 = 0xcbf2_9ce4_8422_2325;
    for byte in text {
        hash = (hash ^ u64::from(*byte)).wrapping_mul(0x100_0000_01b3);
    }
    hash
}

// The length and the hash of a text, and how many lines are read of it.
fn numbers_of(alloc: Global, text: &[u8]) -> Result<(usize, u64, usize), ScriptEnd> {
    let lines = parse(alloc, text)?;
    Ok((text.len(), hash_of(text), lines.len()))
}

fn hundred(alloc: Global) -> Result<(usize, u64, usize), ScriptEnd> {
    let lines = script(alloc, 7, 100, 3)?;
    let text = print_script(alloc, &lines)?;
    numbers_of(alloc, text.as_slice())
}

#[test]
fn the_first_hundred_commands_of_seed_seven_have_this_text(rt: HostRuntime) {
    assert_eq!(rt; hundred(rt.alloc()), Ok((4324, 0xccb9_3ee9_669b_5079, 103)));
}
