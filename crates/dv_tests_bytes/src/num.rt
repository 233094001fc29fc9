use crate::ends::no_other;
use dv_num::{size_code, size_value, u16_at, u32_at, u64_at};
use std::test::Fail;

// Four bytes, and the size that they are the code of, if any.
type Code = ([u8; 4], Option<u32>);

const CODES: [Code; 8] = [
    ([0x80, 0x80, 0x80, 0x80], Some(0)),
    ([0x80, 0x80, 0x80, 0x82], Some(8)),
    ([0x80, 0x80, 0x80, 0xff], Some(508)),
    ([0x80, 0x80, 0x81, 0x80], Some(512)),
    ([0x80, 0xff, 0xff, 0xff], Some(8388604)),
    ([0x81, 0x80, 0x80, 0x80], Some(8388608)),
    ([0xff, 0xff, 0xff, 0xff], Some(1073741820)),
    ([0x80, 0x80, 0x00, 0x84], None),
];

fn code_of(size: u32) -> Option<[u8; 4]> {
    if size < 1 << 30 && size % 4 == 0 {
        Some(size_code(size))
    } else {
        None
    }
}

// Whether the bytes are read as their size, and the size is written as them.
fn goes_both_ways(code: &Code) -> bool {
    match size_value(code.0) {
        Some(size) => code.1 == Some(size) && code_of(size) == Some(code.0),
        None => code.1 == None,
    }
}

fn first_other_code(codes: &[Code]) -> Option<usize> {
    for (at, code) in codes.iter().enumerate() {
        if !goes_both_ways(code) {
            return Some(at);
        }
    }
    None
}

#[test]
fn sizes_both_ways() -> Result<(), Fail> {
    no_other(first_other_code(&CODES))
}

const BYTES: [u8; 9] = [0xff, 1, 2, 3, 4, 5, 6, 7, 8];

fn are_numbers() -> bool {
    u16_at(&BYTES, 1) == 0x0201
        && u32_at(&BYTES, 1) == 0x0403_0201
        && u64_at(&BYTES, 1) == 0x0807_0605_0403_0201
}

#[test]
fn numbers_are_read_behind_a_place() -> Result<(), Fail> {
    no_other(if are_numbers() { None } else { Some(1) })
}
