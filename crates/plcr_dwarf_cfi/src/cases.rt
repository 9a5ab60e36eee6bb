//! Tables of cases for tests.

use crate::fixtures::{COMMON, WORD};

/// Instructions, and of the caller rbx, the stack pointer, and where its pc stands.
pub const ROWS: [(&[u8], u64, u64, u64); 38] = [
    (&[], 0xb1, 0x7108, 0x7100),
    (&[0x00], 0xb1, 0x7108, 0x7100),
    (&[0x2e, 0x85, 1], 0xb1, 0x7108, 0x7100),
    // rbx is saved.
    (&[0x83, 2], WORD + 0x70f8, 0x7108, 0x7100),
    (&[0x05, 3, 2], WORD + 0x70f8, 0x7108, 0x7100),
    (&[0x11, 3, 2], WORD + 0x70f8, 0x7108, 0x7100),
    (&[0x11, 3, 0x7e], WORD + 0x7118, 0x7108, 0x7100),
    (&[0x10, 3, 2, 0x23, 0x10], WORD + 0x7118, 0x7108, 0x7100),
    // rbx is a number.
    (&[0x14, 3, 2], 0x70f8, 0x7108, 0x7100),
    (&[0x15, 3, 0x7e], 0x7118, 0x7108, 0x7100),
    (&[0x16, 3, 2, 0x23, 0x10], 0x7118, 0x7108, 0x7100),
    (&[0x09, 3, 0], 0xa0, 0x7108, 0x7100),
    (&[0x83, 2, 0x08, 3], 0xb1, 0x7108, 0x7100),
    // rbx has the rule that it had at first.
    (&[0x83, 2, 0xc3], 0xb1, 0x7108, 0x7100),
    (&[0x83, 2, 0x06, 3], 0xb1, 0x7108, 0x7100),
    // The canonical frame address.
    (&[0x0c, 6, 16], 0xb1, 0x7150, 0x7148),
    (&[0x12, 6, 0x7e], 0xb1, 0x7150, 0x7148),
    (&[0x0d, 6], 0xb1, 0x7148, 0x7140),
    (&[0x0e, 32], 0xb1, 0x7120, 0x7118),
    (&[0x13, 0x7c], 0xb1, 0x7120, 0x7118),
    (&[0x0f, 2, 0x77, 0x18], 0xb1, 0x7118, 0x7110),
    (&[0x0f, 1, 0x30, 0x0c, 7, 8], 0xb1, 0x7108, 0x7100),
    // Rows that are remembered, with their canonical frame address.
    (&[0x0a, 0x0e, 32, 0x83, 2, 0x0b], 0xb1, 0x7108, 0x7100),
    (
        &[0x83, 2, 0x0a, 0x0e, 32, 0x0a, 0xc3, 0x0b, 0x0b],
        WORD + 0x70f8,
        0x7108,
        0x7100,
    ),
    // Locations.
    (&[0x48, 0x0e, 32], 0xb1, 0x7120, 0x7118),
    (&[0x49, 0x0e, 32], 0xb1, 0x7108, 0x7100),
    (&[0x02, 8, 0x0e, 32], 0xb1, 0x7120, 0x7118),
    (&[0x02, 9, 0x0e, 32], 0xb1, 0x7108, 0x7100),
    (&[0x03, 8, 0, 0x0e, 32], 0xb1, 0x7120, 0x7118),
    (&[0x03, 9, 0, 0x0e, 32], 0xb1, 0x7108, 0x7100),
    (&[0x04, 8, 0, 0, 0, 0x0e, 32], 0xb1, 0x7120, 0x7118),
    (&[0x04, 9, 0, 0, 0, 0x0e, 32], 0xb1, 0x7108, 0x7100),
    (
        &[0x01, 8, 0x10, 0, 0, 1, 0, 0, 0, 0x0e, 32],
        0xb1,
        0x7120,
        0x7118,
    ),
    (
        &[0x01, 9, 0x10, 0, 0, 1, 0, 0, 0, 0x0e, 32],
        0xb1,
        0x7108,
        0x7100,
    ),
    // What stands behind the location doesn't count, also where it is no instruction.
    (&[0x49, 0x3f], 0xb1, 0x7108, 0x7100),
    (&[0x49, 0x0b], 0xb1, 0x7108, 0x7100),
    // Rules of registers past the architecture's aren't kept.
    (&[0x05, 17, 2, 0x07, 0x91, 1], 0xb1, 0x7108, 0x7100),
    (&[0x09, 31, 1, 0xd1], 0xb1, 0x7108, 0x7100),
];

/// Instructions, and the number of the fault.
pub const INSTRUCTION_FAULTS: [(&[u8], u8); 44] = [
    // Operands past the entry, and long numbers.
    (&[0x02], 2),
    (&[0x03, 8], 2),
    (&[0x04, 8, 0, 0], 2),
    (&[0x01, 8, 0x10, 0, 0, 1, 0, 0], 2),
    (&[0x0e], 2),
    (&[0x0e, 0x80], 2),
    (
        &[
            0x0e, 0x80, 0x80, 0x80, 0x80, 0x80, 0x80, 0x80, 0x80, 0x80, 0x80, 0,
        ],
        2,
    ),
    (
        &[
            0x13, 0x80, 0x80, 0x80, 0x80, 0x80, 0x80, 0x80, 0x80, 0x80, 0x80, 0,
        ],
        2,
    ),
    (&[0x83], 2),
    (&[0x05, 3], 2),
    (&[0x0f, 2, 0x30], 2),
    (&[0x10, 3, 2, 0x30], 2),
    (
        &[
            0x16, 3, 0xff, 0xff, 0xff, 0xff, 0xff, 0xff, 0xff, 0xff, 0xff, 1,
        ],
        2,
    ),
    // No instructions.
    (&[0x17], 7),
    (&[0x1d], 7),
    (&[0x2d], 7),
    (&[0x2f, 3, 2], 7),
    (&[0x3f], 7),
    // Remembered rows.
    (&[0x0b], 8),
    (&[0x0a, 0x0b, 0x0b], 8),
    (&[0x0a; 17], 8),
    // The canonical frame address.
    (&[0x0c, 17, 0], 9),
    (&[0x0c, 0xff, 0xff, 0xff, 0xff, 0x0f, 0], 9),
    (&[0x0f, 1, 0x30, 0x0d, 6], 10),
    (&[0x0f, 1, 0x30, 0x0e, 8], 10),
    (&[0x0f, 1, 0x30, 0x13, 8], 10),
    // Words that aren't mapped: at the return address, of rbx.
    (&[0x0c, 16, 0], 12),
    (&[0x0e, 0x80, 0x10], 12),
    (&[0x83, 0x80, 0x10], 12),
    (&[0x10, 3, 2, 0x30, 0x96], 12),
    // Registers that aren't known.
    (&[0x0c, 1, 8], 13),
    (&[0x09, 3, 1], 13),
    (&[0x09, 3, 17], 13),
    (&[0x09, 16, 1], 13),
    // Expressions.
    (&[0x0f, 1, 0x08], 21),
    (&[0x0f, 1, 0x18], 22),
    (&[0x0f, 0], 23),
    (&[0x0f, 2, 0x30, 0x06], 25),
    (&[0x0f, 2, 0x71, 0], 26),
    (&[0x0f, 3, 0x30, 0x30, 0x1b], 27),
    (&[0x0f, 3, 0x2f, 0xfd, 0xff], 28),
    (&[0x0f, 3, 0x2f, 1, 0], 29),
    (&[0x10, 3, 3, 0x2f, 0xfd, 0xff], 28),
    (&[0x16, 3, 1, 0x13], 23),
];

/// The fields of a common information entry, what stands behind the range of its description, and
/// the number of the fault; 0 where there is a caller.
pub const COMMONS: [(&[u8], &[u8], u8); 39] = [
    (COMMON, &[], 0),
    // Version 3 has a return column of several bytes.
    (&[3, 0, 1, 0x78, 0x90, 0, 0x0c, 7, 8, 0x90, 1], &[], 0),
    (&[1, 0, 1, 0x78, 0x90, 0, 0x0c, 7, 8, 0x90, 1], &[], 13),
    (&[0, 0, 1, 0x78, 16, 0x0c, 7, 8, 0x90, 1], &[], 4),
    (&[2, b'x', 0], &[], 4),
    (&[4, 0, 1, 0x78, 16, 0x0c, 7, 8, 0x90, 1], &[], 4),
    (&[], &[], 2),
    (&[1], &[], 2),
    (&[1, b'z', b'R'], &[], 2),
    (&[1, b'x'], &[], 2),
    (&[1, b'x', 0], &[], 5),
    (&[1, b'R', 0, 1, 0x78, 16, 0], &[], 5),
    (&[1, b'z', b'x', 0], &[], 5),
    (&[1, b'z', b'z', 0, 1, 0x78, 16, 0], &[], 5),
    (
        &[1, b'e', b'h', 0, 0, 0, 0, 0, 0, 0, 0, 0, 1, 0x78, 16],
        &[],
        5,
    ),
    (&[1, 0], &[], 2),
    (&[1, 0, 1], &[], 2),
    (&[1, 0, 1, 0x78], &[], 2),
    (&[3, 0, 1, 0x78, 0x90], &[], 2),
    // The length of augmentation data, of which not all is read.
    (&[1, b'z', 0, 1, 0x78, 16], &[], 2),
    (&[1, b'z', 0, 1, 0x78, 16, 1], &[], 2),
    (
        &[
            1, b'z', 0, 1, 0x78, 16, 0xff, 0xff, 0xff, 0xff, 0xff, 0xff, 0xff, 0xff, 0xff, 1,
        ],
        &[],
        2,
    ),
    (
        &[
            1, b'z', 0, 1, 0x78, 16, 3, 0x0b, 0x0b, 0x0b, 0x0c, 7, 8, 0x90, 1,
        ],
        &[2, 0x0b, 0x0b],
        0,
    ),
    (&[1, b'z', 0, 1, 0x78, 16, 0, 0x0c, 7, 8, 0x90, 1], &[], 2),
    (&[1, b'z', 0, 1, 0x78, 16, 0, 0x0c, 7, 8, 0x90, 1], &[1], 2),
    (&[1, b'z', 0, 1, 0x78, 16, 0, 0x0c, 7, 8, 0x90, 1], &[0], 0),
    // The instructions begin where the length says, whatever the letters read.
    (
        &[
            1, b'z', b'R', 0, 1, 0x78, 16, 0, 0x04, 0, 0, 0, 0, 0x0c, 7, 8, 0x90, 1,
        ],
        &[0],
        0,
    ),
    // Letters that stand twice; the last encoding of pointers counts.
    (
        &[
            1, b'z', b'R', b'S', b'R', 0, 1, 0x78, 16, 2, 0x1b, 0x04, 0x0c, 7, 8, 0x90, 1,
        ],
        &[0],
        0,
    ),
    // Encodings of pointers that are passed over.
    (
        &[
            1, b'z', b'L', b'P', 0, 1, 0x78, 16, 2, 0xff, 0xff, 0x0c, 7, 8, 0x90, 1,
        ],
        &[0],
        0,
    ),
    (
        &[
            1, b'z', b'P', b'L', 0, 1, 0x78, 16, 6, 0x9b, 1, 2, 3, 4, 0x90, 0x0c, 7, 8, 0x90, 1,
        ],
        &[0],
        0,
    ),
    (
        &[1, b'z', b'L', 0, 1, 0x78, 16, 1, 0x20, 0x0c, 7, 8, 0x90, 1],
        &[0],
        6,
    ),
    (
        &[1, b'z', b'P', 0, 1, 0x78, 16, 1, 0x50, 0x0c, 7, 8, 0x90, 1],
        &[0],
        6,
    ),
    (&[1, b'z', b'P', 0, 1, 0x78, 16, 1, 0x04, 0x0c], &[0], 2),
    (
        &[1, b'z', b'R', 0, 1, 0x78, 16, 1, 0xff, 0x0c, 7, 8, 0x90, 1],
        &[0],
        6,
    ),
    // Instructions: a restored rule has none to take, and locations move nothing.
    (&[1, 0, 1, 0x78, 16, 0x0c, 7, 8, 0x90, 1, 0xc3], &[], 7),
    (&[1, 0, 1, 0x78, 16, 0x0c, 7, 8, 0x90, 1, 0x06, 3], &[], 7),
    // The length of the description's augmentation data is read before these instructions.
    (&[1, b'z', 0, 1, 0x78, 16, 0, 0x3f], &[0], 7),
    (&[1, b'z', 0, 1, 0x78, 16, 0, 0x3f], &[9], 2),
    (&[1, 0, 1, 0x78, 16, 0x02, 99, 0x0c, 7, 8, 0x90, 1], &[], 0),
];

/// An encoding, start and range, the address where the function begins, and that behind its last
/// one. The first entry has 22 bytes, so the start of the second stands at 0x201e.
pub const ENCODINGS: [(u8, &[u8], u64, u64); 14] = [
    (
        0x00,
        &[0, 0x30, 0, 0, 1, 0, 0, 0, 0x20, 0, 0, 0, 0, 0, 0, 0, 0],
        0x1_0000_3000,
        0x1_0000_3020,
    ),
    (0x01, &[0x80, 0xe0, 1, 0x20, 0], 0x7000, 0x7020),
    (0x02, &[0, 0xf0, 0x20, 0, 0], 0xf000, 0xf020),
    (
        0x03,
        &[0, 0, 0, 0xf0, 0x20, 0, 0, 0, 0],
        0xf000_0000,
        0xf000_0020,
    ),
    (
        0x04,
        &[0, 0x30, 0, 0, 1, 0, 0, 0, 0x20, 0, 0, 0, 0, 0, 0, 0, 0],
        0x1_0000_3000,
        0x1_0000_3020,
    ),
    (
        0x09,
        &[0x80, 0x60, 0x20, 0],
        0xffff_ffff_ffff_f000,
        0xffff_ffff_ffff_f020,
    ),
    (
        0x0a,
        &[0, 0xf0, 0x20, 0, 0],
        0xffff_ffff_ffff_f000,
        0xffff_ffff_ffff_f020,
    ),
    (
        0x0b,
        &[0, 0xf0, 0xff, 0xff, 0x20, 0, 0, 0, 0],
        0xffff_ffff_ffff_f000,
        0xffff_ffff_ffff_f020,
    ),
    (
        0x0c,
        &[0, 0x30, 0, 0, 1, 0, 0, 0, 0x20, 0, 0, 0, 0, 0, 0, 0, 0],
        0x1_0000_3000,
        0x1_0000_3020,
    ),
    // From the pointer's own address; the range is none.
    (0x1b, &[0xe2, 0x0f, 0, 0, 0x20, 0, 0, 0, 0], 0x3000, 0x3020),
    (
        0x1b,
        &[0xe2, 0xef, 0xff, 0xff, 0x20, 0, 0, 0, 0],
        0x1000,
        0x1020,
    ),
    (0x11, &[0xe2, 0x1f, 0x20, 0], 0x3000, 0x3020),
    // At the address that is told: the word of the stack there.
    (
        0x83,
        &[0, 0x71, 0, 0, 0x20, 0, 0, 0, 0],
        WORD + 0x7100,
        WORD + 0x7120,
    ),
    (
        0x9b,
        &[0xe2, 0x50, 0, 0, 0x20, 0, 0, 0, 0],
        WORD + 0x7100,
        WORD + 0x7120,
    ),
];
