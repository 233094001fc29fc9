use crate::ends::no_other;
use dv_fields::{field_of, physical, virtual_size};
use std::alloc::Global;
use std::test::Fail;

const HELLO: &[u8] = b"Subject: Hello\r\n world\r\n\r\nHi\n";

const MIXED: &[u8] = b"From me Thu\nA: 1\nB:2 \r\nb: 3\r\nC : 4\n\r\nD: 5\n";

const FOLDED: &[u8] = b"A: one\n\ttwo\r\n \tthree \nSub\r\n ject: x\n \nE:\t \n\nF: 1\n";

const LONE: &[u8] = b" G: 0\nA: 1\rB: 2\r\r\n\r\r\nC: 3";

// A message, the name of a field, and its value where the message has it.
type Field = (&'static [u8], &'static [u8], Option<&'static [u8]>);

const FIELDS: [Field; 12] = [
    (HELLO, b"subject", Some(b"Hello world")),
    (HELLO, b"Hi", None),
    (MIXED, b"from me thu", None),
    (MIXED, b"b", Some(b"2")),
    (MIXED, b"C", None),
    (FOLDED, b"A", Some(b"one\ttwo \tthree")),
    (FOLDED, b"Sub ject", Some(b"x")),
    (FOLDED, b"E", Some(b"")),
    (LONE, b"A", Some(b"1\rB: 2\r")),
    (LONE, b"C", Some(b"3")),
    (b"\nA: 1\n", b"A", None),
    (b"", b"", None),
];

fn is_field(alloc: Global, field: &Field) -> bool {
    match (field_of(alloc, field.0, field.1), field.2) {
        (Ok(Some(found)), Some(value)) => found.as_slice() == value,
        (Ok(None), None) => true,
        _ => false,
    }
}

fn first_other_field(alloc: Global, fields: &[Field]) -> Option<usize> {
    for (at, field) in fields.iter().enumerate() {
        if !is_field(alloc, field) {
            return Some(at);
        }
    }
    None
}

#[test]
fn fields_of_mail(rt: HostRuntime) -> Result<(), Fail> {
    no_other(first_other_field(rt.alloc(), &FIELDS))
}

// A message, with its size as it is and as it is sent.
type Sizes = (&'static [u8], u64, u64);

const SIZES: [Sizes; 4] = [
    (HELLO, 29, 30),
    (b"", 0, 0),
    (b"a\nb\r\nc\r", 7, 8),
    (b"\r\r\n\n", 4, 5),
];

fn are_sizes(sizes: &Sizes) -> bool {
    physical(sizes.0) == sizes.1 && virtual_size(sizes.0) == sizes.2
}

fn first_other_sizes(messages: &[Sizes]) -> Option<usize> {
    for (at, sizes) in messages.iter().enumerate() {
        if !are_sizes(sizes) {
            return Some(at);
        }
    }
    None
}

#[test]
fn sizes_of_line_ends() -> Result<(), Fail> {
    no_other(first_other_sizes(&SIZES))
}
