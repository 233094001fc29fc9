// The bytes of a record, its four highest bits, and its numbers behind its code.
pub type Worked = (&'static [u8], u8, &'static [u32]);

pub const WORKED: [Worked; 15] = [
    // UIDVALIDITY 1000
    (
        b"\x80\x80\x80\x84\x20\0\0\0\x18\0\x04\0\xe8\x03\0\0",
        0,
        &[0x20, 24, 0xe8, 3, 0, 0],
    ),
    // UIDVALIDITY 1000 and UIDNEXT 4294967294
    (
        b"\x80\x80\x80\x85\x20\0\0\0\x18\0\x08\0\xe8\x03\0\0\xfe\xff\xff\xff",
        0,
        &[0x20, 24, 0xe8, 3, 0, 0, 0xfe, 0xff, 0xff, 0xff],
    ),
    // an appended message
    (
        b"\x80\x80\x80\x84\x02\0\0\x10\x01\0\0\0\0\0\0\0",
        1,
        &[2, 1, 0],
    ),
    // +FLAGS (\Seen)
    (
        b"\x80\x80\x80\x85\x04\0\0\x10\x01\0\0\0\x01\0\0\0\x08\0\0\0",
        1,
        &[4, 1, 1, 8, 0],
    ),
    // FLAGS (\Draft)
    (
        b"\x80\x80\x80\x85\x04\0\0\x10\x01\0\0\0\x01\0\0\0\x10\x0f\0\0",
        1,
        &[4, 1, 1, 16, 15],
    ),
    // no keywords
    (
        b"\x80\x80\x80\x84\0\x08\0\x10\x01\0\0\0\x01\0\0\0",
        1,
        &[0x800, 1, 1],
    ),
    // the keyword k1 is added
    (
        b"\x80\x80\x80\x86\0\x04\0\x10\0\0\x02\0k1\0\0\x01\0\0\0\x01\0\0\0",
        1,
        &[0x400, 0, 0x6b, 0x31, 1, 1],
    ),
    // the extension cache is introduced, reset, and given a place for UID 1
    (
        b"\x80\x80\x80\x89\x40\0\0\0\xff\xff\xff\xff\0\0\0\0\0\0\0\0\x04\0\x04\0\0\0\x05\0cache\0\0\0",
        0,
        &[0x40, u32::MAX, 0, 0, 4, 4, 0, 0x63, 0x61, 0x63, 0x68, 0x65],
    ),
    (
        b"\x80\x80\x80\x84\x80\0\0\0\x01\0\0\0\0\0\0\0",
        0,
        &[0x80, 1, 0],
    ),
    (
        b"\x80\x80\x80\x84\0\x02\0\0\x01\0\0\0\x20\0\0\0",
        0,
        &[0x200, 1, 0, 0, 0, 0x20, 0, 0, 0],
    ),
    // bytes 1 and 2 of an extension's header
    (
        b"\x80\x80\x80\x84\0\x01\0\0\x01\0\x02\0\x07\x09\0\0",
        0,
        &[0x100, 1, 7, 9],
    ),
    // the older expunge of UIDs 5 to 9
    (
        b"\x80\x80\x80\x84\x91\xcd\0\x10\x05\0\0\0\x09\0\0\0",
        1,
        &[0xcd91, 5, 9],
    ),
    // a boundary of Dovecot's is carried
    (
        b"\x80\x80\x80\x83\0\0\x08\0\x1c\0\0\0",
        0,
        &[0x8_0000, 0x1c, 0, 0, 0],
    ),
    // and so are the bits that protect an expunge, alone
    (b"\x80\x80\x80\x82\x90\xcd\0\xf0", 15, &[0xcd90]),
    (&EXPUNGE, 1, &EXPUNGED),
];

// UIDs 5 to 9 are expunged, with the GUIDs of 1000, 1000, the UID and 1000.
pub const EXPUNGE: [u8; 108] = [
    0x80, 0x80, 0x80, 0x9b, 0x90, 0xed, 0, 0x10, //
    5, 0, 0, 0, 0, 0, 3, 0xe8, 0, 0, 3, 0xe8, 0, 0, 0, 5, 0, 0, 3, 0xe8, //
    6, 0, 0, 0, 0, 0, 3, 0xe8, 0, 0, 3, 0xe8, 0, 0, 0, 6, 0, 0, 3, 0xe8, //
    7, 0, 0, 0, 0, 0, 3, 0xe8, 0, 0, 3, 0xe8, 0, 0, 0, 7, 0, 0, 3, 0xe8, //
    8, 0, 0, 0, 0, 0, 3, 0xe8, 0, 0, 3, 0xe8, 0, 0, 0, 8, 0, 0, 3, 0xe8, //
    9, 0, 0, 0, 0, 0, 3, 0xe8, 0, 0, 3, 0xe8, 0, 0, 0, 9, 0, 0, 3, 0xe8,
];

// Its numbers.
const EXPUNGED: [u32; 86] = [
    0xed90, //
    5, 0, 0, 3, 0xe8, 0, 0, 3, 0xe8, 0, 0, 0, 5, 0, 0, 3, 0xe8, //
    6, 0, 0, 3, 0xe8, 0, 0, 3, 0xe8, 0, 0, 0, 6, 0, 0, 3, 0xe8, //
    7, 0, 0, 3, 0xe8, 0, 0, 3, 0xe8, 0, 0, 0, 7, 0, 0, 3, 0xe8, //
    8, 0, 0, 3, 0xe8, 0, 0, 3, 0xe8, 0, 0, 0, 8, 0, 0, 3, 0xe8, //
    9, 0, 0, 3, 0xe8, 0, 0, 3, 0xe8, 0, 0, 0, 9, 0, 0, 3, 0xe8,
];
