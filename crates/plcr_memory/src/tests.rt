use super::*;
use std::alloc::Global;
use std::test::Fail;

// Eight bytes from 1 to 8, and sixteen of 0xff.
const FILE: [u8; 24] = [
    1, 2, 3, 4, 5, 6, 7, 8, 255, 255, 255, 255, 255, 255, 255, 255, 255, 255, 255, 255, 255, 255,
    255, 255,
];

fn memory_of(alloc: Global, regions: &[Region]) -> Result<Memory, MemoryFault> {
    let regions = regions.to_vec(alloc)?;
    let file = FILE.to_vec(alloc)?;
    if are_backed(file.as_slice(), regions.as_slice()) {
        Memory::new(alloc, file, regions)
    } else {
        Err(MemoryFault::Memory)
    }
}

const fn zeros(start: u64, size: u64) -> Region {
    Region {
        start,
        size,
        from: 0,
        len: 0,
    }
}

// The second region stands before the first in memory, and they adjoin.
fn adjoining(alloc: Global) -> Result<Memory, MemoryFault> {
    let high = Region {
        start: 0x1010,
        size: 16,
        from: 8,
        len: 16,
    };
    let low = Region {
        start: 0x1000,
        size: 16,
        from: 0,
        len: 8,
    };
    memory_of(alloc, &[high, low])
}

#[test]
fn bytes_and_numbers(rt: HostRuntime) -> Result<(), Fail> {
    let memory = adjoining(rt.alloc())?;
    let bytes = [
        (0xfff, None),
        (0x1000, Some(1)),
        (0x1007, Some(8)),
        (0x1008, Some(0)),
        (0x100f, Some(0)),
        (0x1010, Some(0xff)),
        (0x101f, Some(0xff)),
        (0x1020, None),
        (u64::MAX, None),
    ];
    for (at, want) in bytes {
        assert_eq!(rt; memory.read_u8(at), want, "at {at}");
    }
    let numbers = [
        (0x1000, Some(0x0807_0605_0403_0201)),
        (0x1008, Some(0)),
        (0x100c, Some(0xffff_ffff_0000_0000)),
        (0x1019, None),
        (0xffff_ffff_ffff_fffc, None),
    ];
    for (at, want) in numbers {
        assert_eq!(rt; memory.read_u64(at), want, "at {at}");
    }
    assert_eq!(rt; memory.read_u32(0x100e), Some(0xffff_0000));
    assert_eq!(rt; memory.read_u32(0x101e), None);
    assert_eq!(rt; memory.read_u16(0x1006), Some(0x0807));
    Ok(())
}

#[test]
fn copies(rt: HostRuntime) -> Result<(), Fail> {
    let memory = adjoining(rt.alloc())?;
    let mut into = [9; 4];
    assert!(rt; !memory.copy(0x101d, &mut into));
    assert_eq!(rt; into.as_slice(), [9, 9, 9, 9].as_slice());
    assert!(rt; memory.copy(0x100e, &mut into));
    assert_eq!(rt; into.as_slice(), [0, 0, 255, 255].as_slice());
    assert!(rt; memory.is_mapped(0x1000, 32));
    assert!(rt; !memory.is_mapped(0x1000, 33));
    assert!(rt; memory.is_mapped(0, 0));
    Ok(())
}

#[test]
fn zeros_behind_the_file(rt: HostRuntime) -> Result<(), Fail> {
    let memory = adjoining(rt.alloc())?;
    let zeros = [
        (0xfff, 0),
        (0x1000, 0),
        (0x1007, 0),
        (0x1008, 8),
        (0x100f, 1),
        (0x1010, 0),
        (0x1020, 0),
    ];
    for (at, want) in zeros {
        assert_eq!(rt; memory.zeros_from(at), want, "from {at}");
    }
    Ok(())
}

// Whether these bytes of the file are given as one slice.
fn is_slice(memory: &Memory, at: u64, want: &[u8]) -> bool {
    match memory.stored(at, want.len() as u64) {
        Some(piece) => piece == want,
        None => false,
    }
}

#[test]
fn stored_bytes_are_one_slice(rt: HostRuntime) -> Result<(), Fail> {
    let memory = adjoining(rt.alloc())?;
    assert!(rt; is_slice(&memory, 0x1002, &[3, 4, 5]));
    assert!(rt; is_slice(&memory, 0x1000, &[1, 2, 3, 4, 5, 6, 7, 8]));
    assert!(rt; is_slice(&memory, 0x1010, &[255; 16]));
    // Zeros behind the file's bytes, alone and behind the last of them, more than there are, and
    // addresses of no region.
    let unstored = [
        (0x1009, 1),
        (0x1007, 2),
        (0x1010, 17),
        (0xfff, 1),
        (u64::MAX, u64::MAX),
    ];
    for (at, size) in unstored {
        assert!(rt; memory.stored(at, size).is_none(), "{size} bytes at {at}");
    }
    assert_eq!(rt; memory.read_u8(0x1009), Some(0));
    assert_eq!(rt; memory.read_u16(0x1007), Some(8));
    Ok(())
}

// The bytes stand one after the other in the file, and belong to two regions.
#[test]
fn bytes_of_two_regions_are_read_as_a_number(rt: HostRuntime) -> Result<(), Fail> {
    let low = Region {
        start: 0x1000,
        size: 4,
        from: 0,
        len: 4,
    };
    let high = Region {
        start: 0x1004,
        from: 4,
        ..low
    };
    let memory = memory_of(rt.alloc(), &[low, high])?;
    assert!(rt; is_slice(&memory, 0x1000, &[1, 2, 3, 4]));
    assert!(rt; is_slice(&memory, 0x1004, &[5, 6, 7, 8]));
    assert!(rt; memory.stored(0x1002, 4).is_none());
    assert_eq!(rt; memory.read_u32(0x1002), Some(0x0605_0403));
    Ok(())
}

#[test]
fn refusals(rt: HostRuntime) {
    let wrapping = [zeros(0xffff_ffff_ffff_fff0, 32)];
    let last = [zeros(0xffff_ffff_ffff_fff0, 16)];
    // The fourth is the first that shares an address with an earlier one, and the second is the
    // first such.
    let clashing = [
        zeros(0x5000, 16),
        zeros(0x3000, 0x100),
        zeros(0x1000, 16),
        zeros(0x2fff, 0x1000),
        zeros(0x1008, 16),
    ];
    let alloc = rt.alloc();
    assert!(rt;
        matches!(
            memory_of(alloc, &wrapping),
            Err(MemoryFault::Wraps { index: 0 })
        )
    );
    assert!(rt; memory_of(alloc, &last).is_ok());
    assert!(rt;
        matches!(
            memory_of(alloc, &clashing),
            Err(MemoryFault::Overlap {
                first: 1,
                second: 3
            })
        )
    );
    assert!(rt; memory_of(alloc, &clashing[..3]).is_ok());
}
