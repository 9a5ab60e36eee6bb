use super::*;
use plcr_memory::{Memory, MemoryFault, Region, are_backed};
use std::alloc::Global;
use std::test::Fail;

// Bytes at whose start a number stands: how many bytes it has, its value unsigned, and its value
// signed.
const NUMBERS: [(&[u8], u64, u64, u64); 14] = [
    (&[0x02], 1, 2, 2),
    (&[0x3f, 0x80], 1, 63, 63),
    (&[0x40], 1, 64, 0xffff_ffff_ffff_ffc0),
    (&[0x7e], 1, 126, 0xffff_ffff_ffff_fffe),
    (&[0xff, 0x00], 2, 127, 127),
    (&[0x80, 0x01], 2, 128, 128),
    (&[0x81, 0x7f], 2, 16257, 0xffff_ffff_ffff_ff81),
    (&[0xff, 0x7e], 2, 16255, 0xffff_ffff_ffff_ff7f),
    (&[0xe5, 0x8e, 0x26, 0xff], 3, 624_485, 624_485),
    // A number may be longer than it needs to be.
    (&[0x82, 0x80, 0x80, 0x00], 4, 2, 2),
    (
        &[0xfe, 0xff, 0xff, 0x7f],
        4,
        0x0fff_fffe,
        0xffff_ffff_ffff_fffe,
    ),
    // Ten bytes have seventy bits, of which sixty-four count.
    (
        &[0xff, 0xff, 0xff, 0xff, 0xff, 0xff, 0xff, 0xff, 0xff, 0x01],
        10,
        0xffff_ffff_ffff_ffff,
        0xffff_ffff_ffff_ffff,
    ),
    (
        &[0x85, 0x80, 0x80, 0x80, 0x80, 0x80, 0x80, 0x80, 0x80, 0x02],
        10,
        5,
        5,
    ),
    (
        &[0x80, 0x80, 0x80, 0x80, 0x80, 0x80, 0x80, 0x80, 0x80, 0x7f],
        10,
        0x8000_0000_0000_0000,
        0x8000_0000_0000_0000,
    ),
];

// Bytes at whose start no number stands.
const FAULTS: [(&[u8], Leb128Fault); 4] = [
    (&[0x80], Leb128Fault::Absent),
    (
        &[0x80, 0x80, 0x80, 0x80, 0x80, 0x80, 0x80, 0x80, 0x80],
        Leb128Fault::Absent,
    ),
    (
        &[0x80, 0x80, 0x80, 0x80, 0x80, 0x80, 0x80, 0x80, 0x80, 0x80],
        Leb128Fault::Long,
    ),
    (
        &[
            0x80, 0x80, 0x80, 0x80, 0x80, 0x80, 0x80, 0x80, 0x80, 0x80, 0x00,
        ],
        Leb128Fault::Long,
    ),
];

// Whether these are read at the start of the bytes.
fn reads<C: Cells>(cells: &C, next: u64, unsigned: u64, signed: u64) -> bool {
    let number = |value| Ok(Number { value, next });
    read_unsigned(cells, 0) == number(unsigned) && read_signed(cells, 0) == number(signed)
}

// Whether this is the fault at the start of the bytes.
fn fails<C: Cells>(cells: &C, fault: Leb128Fault) -> bool {
    read_unsigned(cells, 0) == Err(fault) && read_signed(cells, 0) == Err(fault)
}

#[test]
fn numbers_in_a_slice(rt: HostRuntime) {
    for (bytes, next, unsigned, signed) in NUMBERS {
        assert!(rt; reads(&Stored(bytes), next, unsigned, signed), "{bytes:?}");
    }
    for (bytes, fault) in FAULTS {
        assert!(rt; fails(&Stored(bytes), fault), "{bytes:?}");
    }
    assert!(rt; fails(&Stored(&[]), Leb128Fault::Absent));
    let cells = Stored(&[0x80, 0xe5, 0x8e, 0x26]);
    let behind = Number {
        value: 624_485,
        next: 4,
    };
    assert_eq!(rt; read_unsigned(&cells, 1), Ok(behind));
    assert_eq!(rt; read_unsigned(&cells, 4), Err(Leb128Fault::Absent));
    assert_eq!(rt; read_signed(&cells, u64::MAX), Err(Leb128Fault::Absent));
    leb128_is_read();
    slices_are_pieces();
}

// The bytes at an address, in a region of their own.
fn memory_of(alloc: Global, bytes: &[u8], start: u64) -> Result<Memory, MemoryFault> {
    let region = Region {
        start,
        size: bytes.len() as u64,
        from: 0,
        len: bytes.len(),
    };
    let file = bytes.to_vec(alloc)?;
    let regions = [region].to_vec(alloc)?;
    if are_backed(file.as_slice(), regions.as_slice()) {
        Memory::new(alloc, file, regions)
    } else {
        Err(MemoryFault::Memory)
    }
}

#[test]
fn numbers_in_memory(rt: HostRuntime) -> Result<(), Fail> {
    // The piece ends with the bytes, or goes on where nothing is mapped.
    for more in [0, 1000] {
        for (bytes, next, unsigned, signed) in NUMBERS {
            let memory = memory_of(rt.alloc(), bytes, 0x2000)?;
            let piece = Piece::new(&memory, 0x2000, (bytes.len() as u64).wrapping_add(more));
            assert!(rt; reads(&piece, next, unsigned, signed), "{bytes:?}");
        }
        for (bytes, fault) in FAULTS {
            let memory = memory_of(rt.alloc(), bytes, 0x2000)?;
            let piece = Piece::new(&memory, 0x2000, (bytes.len() as u64).wrapping_add(more));
            assert!(rt; fails(&piece, fault), "{bytes:?}");
        }
    }
    Ok(())
}

const COUNTING: [u8; 9] = [1, 2, 3, 4, 5, 6, 7, 8, 0x89];

// What is read at place 1, and whether it is there at 2.
fn reads_at_their_places<C: Cells>(cells: &C) -> bool {
    cells.read_u8(8) == Some(0x89)
        && cells.read_u8(9).is_none()
        && cells.read_u16(7) == Some(0x8908)
        && cells.read_u16(8).is_none()
        && cells.read_u32(5) == Some(0x8908_0706)
        && cells.read_u32(6).is_none()
        && cells.read_u64(1) == Some(0x8908_0706_0504_0302)
        && cells.read_u64(2).is_none()
        && cells.read_u64(u64::MAX).is_none()
        && cells.has(1, 8)
        && !cells.has(2, 8)
        && cells.has(9, 0)
        && !cells.has(u64::MAX, u64::MAX)
}

#[test]
fn fixed_numbers(rt: HostRuntime) -> Result<(), Fail> {
    assert!(rt; reads_at_their_places(&Stored(&COUNTING)));
    assert!(rt; !Stored(&COUNTING).has(10, 0));
    let memory = memory_of(rt.alloc(), &COUNTING, 0x2000)?;
    assert!(rt; reads_at_their_places(&Piece::new(&memory, 0x2000, 9)));
    // Memory ends before the piece does.
    assert!(rt; reads_at_their_places(&Piece::new(&memory, 0x2000, 100)));
    // The piece ends before memory does.
    let piece = Piece::new(&memory, 0x2000, 3);
    assert_eq!(rt; piece.read_u16(1), Some(0x0302));
    assert_eq!(rt; piece.read_u16(2), None);
    assert!(rt; piece.has(0, 3) && !piece.has(0, 4));
    // The last bytes of all addresses.
    let memory = memory_of(rt.alloc(), &COUNTING, 0u64.wrapping_sub(9))?;
    assert!(rt; reads_at_their_places(&Piece::new(&memory, 0u64.wrapping_sub(9), u64::MAX)));
    Ok(())
}

// The front bytes at the last addresses, and the rest from address 0 on.
fn memory_around(alloc: Global, front: &[u8], rest: &[u8]) -> Result<Memory, MemoryFault> {
    let mut file = front.to_vec(alloc)?;
    file.extend_from_slice(rest)?;
    let last = Region {
        start: 0u64.wrapping_sub(front.len() as u64),
        size: front.len() as u64,
        from: 0,
        len: front.len(),
    };
    let first = Region {
        start: 0,
        size: rest.len() as u64,
        from: front.len(),
        len: rest.len(),
    };
    let regions = [last, first].to_vec(alloc)?;
    if are_backed(file.as_slice(), regions.as_slice()) {
        Memory::new(alloc, file, regions)
    } else {
        Err(MemoryFault::Memory)
    }
}

#[test]
fn behind_the_last_address_comes_0(rt: HostRuntime) -> Result<(), Fail> {
    let memory = memory_around(rt.alloc(), &[0xe5], &[0x8e, 0x26, 0x07, 0x08])?;
    let piece = Piece::new(&memory, u64::MAX, 5);
    assert!(rt; reads(&piece, 3, 624_485, 624_485));
    assert_eq!(rt; piece.read_u8(0), Some(0xe5));
    assert_eq!(rt; piece.read_u8(1), Some(0x8e));
    assert_eq!(rt; piece.read_u8(5), None);
    // A number of a fixed size doesn't pass 2^64.
    assert_eq!(rt; piece.read_u16(0), None);
    assert_eq!(rt; piece.read_u16(1), Some(0x268e));
    assert_eq!(rt; piece.read_u32(0), None);
    assert_eq!(rt; piece.read_u32(1), Some(0x0807_268e));
    assert!(rt; piece.has(0, 1) && piece.has(1, 4) && !piece.has(0, 2) && !piece.has(1, 5));
    Ok(())
}
