use crate::fixtures::*;
use crate::{SymbolAt, find, find_all};
use plcr_macho::{Symtab, parse};
use plcr_memory::MemoryFault;
use plcr_regs::Arch;
use std::alloc::{AllocError, Global};
use std::test::*;

const NAME: &[u8; 6] = b"_main\0";

// So many rows, one at each address from A0 on, and the name of all of them.
fn rising_rows(alloc: Global, count: u32) -> Result<Vec<u8>, AllocError> {
    let mut file = Vec::new(alloc);
    for index in 0..count {
        add_rows(&mut file, &[Row(0, SECT, A0 + u64::from(index))])?;
    }
    file.extend_from_slice(NAME)?;
    Ok(file)
}

// The address of the last row that is read of 1,000, where so many bytes of them are mapped, and
// those behind a place are another region's.
fn last_row(alloc: Global, mapped: usize, cut: usize) -> Result<Option<SymbolAt>, MemoryFault> {
    let file = rising_rows(alloc, 1000)?;
    let memory = memory_of(
        alloc,
        file,
        &[
            bytes(
                ROWS.wrapping_add(cut as u64),
                cut,
                mapped.saturating_sub(cut),
            ),
            bytes(STRINGS, 16000, 6),
            bytes(ROWS, 0, cut),
        ],
    )?;
    Ok(find(&memory, &image(1000, 6), A0 + 0x3fff))
}

#[test]
fn rows_end(rt: HostRuntime) -> Result<(), Fail> {
    // How many bytes are mapped, where they are cut in two, and the index of the last row.
    let cases = [
        (16000, 1, 999),
        (16000, 16, 999),
        (16000, 1024, 999),
        (16000, 1500, 999),
        (16000, 15999, 999),
        (15999, 100, 998),
        (15985, 100, 998),
        (15984, 100, 998),
        (15983, 100, 997),
        (1041, 1024, 64),
        (1040, 1024, 64),
        (1039, 1024, 63),
        (32, 16, 1),
        (31, 16, 0),
        (17, 15, 0),
    ];
    for (mapped, cut, index) in cases {
        let want = named(A0.wrapping_add(index), 0, 5);
        assert_eq!(rt;
            last_row(rt.alloc(), mapped, cut)?,
            want,
            "{mapped} and {cut}"
        );
    }
    assert_eq!(rt; last_row(rt.alloc(), 15, 14)?, None);
    Ok(())
}

// Behind a table's bytes of the file its region has zeros, and rows of another region follow.
#[test]
fn zeros_between(rt: HostRuntime) -> Result<(), Fail> {
    let mut file = rising_rows(rt.alloc(), 3)?;
    let end = file.len();
    add_rows(&mut file, &[Row(0, SECT, A0 + 0x100)])?;
    let regions = [
        padded(ROWS, 0xff00, 0, 41),
        bytes(ROWS + 0xff00, end, 16),
        bytes(STRINGS, 48, 6),
    ];
    let memory = memory_of(rt.alloc(), file, &regions)?;
    let addresses = [A0 + 1, A0 + 2, A0 + 0xff, A0 + 0x100];
    let mut found = [None; 4];
    let (first, second) = (named(A0, 0, 5), named(A0 + 1, 0, 5));
    // The value of the third row ends in zeros of the region.
    find_all(&memory, &image(4080, 6), &addresses, &mut found);
    assert_eq!(rt; found, [second; 4]);
    find_all(&memory, &image(4081, 6), &addresses, &mut found);
    assert_eq!(rt; found, [second, second, second, named(A0 + 0x100, 0, 5)]);
    find_all(&memory, &image(u32::MAX, 6), &addresses, &mut found);
    assert_eq!(rt; found, [second, second, second, named(A0 + 0x100, 0, 5)]);
    assert_eq!(rt; find(&memory, &image(1, 6), A0 + 2), first);
    Ok(())
}

// A table of billions of rows, none of which the file has.
#[test]
fn billions_of_rows(rt: HostRuntime) -> Result<(), Fail> {
    let file = Vec::new(rt.alloc());
    let memory = memory_of(rt.alloc(), file, &[padded(ROWS, 0x1000_0000_0000, 0, 0)])?;
    assert_eq!(rt; find(&memory, &image(u32::MAX, 6), A0), None);
    Ok(())
}

// A name whose bytes stand in two regions, and in front of an address that isn't mapped.
#[test]
fn name_in_pieces(rt: HostRuntime) -> Result<(), Fail> {
    // How many bytes of the names are mapped, where they are cut in two, and the name's length.
    let cases = [
        (6usize, 1usize, Some(5)),
        (6, 3, Some(5)),
        (6, 5, Some(5)),
        (5, 2, None),
        (2, 1, None),
    ];
    for (mapped, cut, len) in cases {
        let file = rising_rows(rt.alloc(), 1)?;
        let (high, low) = (16usize.saturating_add(cut), 16);
        let regions = [
            bytes(ROWS, 0, 16),
            bytes(STRINGS + cut as u64, high, mapped.saturating_sub(cut)),
            bytes(STRINGS, low, cut),
        ];
        let memory = memory_of(rt.alloc(), file, &regions)?;
        let want = match len {
            Some(len) => named(A0, 0, len),
            None => None,
        };
        assert_eq!(rt;
            find(&memory, &image(1, 1000), A0),
            want,
            "{mapped} and {cut}"
        );
    }
    Ok(())
}

// Addresses are added modulo 2^64, but no name goes on past the last one.
#[test]
fn at_the_end(rt: HostRuntime) -> Result<(), Fail> {
    let file = rising_rows(rt.alloc(), 3)?;
    let (rows_at, strings_at) = (u64::MAX - 31, u64::MAX - 0x1005);
    let regions = [
        bytes(rows_at, 0, 32),
        bytes(0, 32, 16),
        bytes(strings_at, 48, 6),
    ];
    let memory = memory_of(rt.alloc(), file, &regions)?;
    let table = Symtab {
        rows_at,
        rows: 3,
        strings_at,
        strings: 6,
    };
    let want = SymbolAt {
        value: A0 + 2,
        name_at: strings_at,
        name_len: 5,
    };
    assert_eq!(rt; find(&memory, &image_with(table), A0 + 9), Some(want));
    Ok(())
}

// The symbol whose name has so many bytes below 2^64, the others being the first ones above 0.
fn name_at_the_end(alloc: Global, below: usize) -> Result<Option<SymbolAt>, MemoryFault> {
    let mut file = rising_rows(alloc, 1)?;
    file.push(b'x')?;
    let strings_at = 0u64.wrapping_sub(below as u64);
    let rest = 16usize.saturating_add(below);
    let regions = [
        bytes(ROWS, 0, 16),
        bytes(strings_at, 16, below),
        bytes(0, rest, 7usize.saturating_sub(below)),
    ];
    let memory = memory_of(alloc, file, &regions)?;
    let table = Symtab {
        rows_at: ROWS,
        rows: 1,
        strings_at,
        strings: 1000,
    };
    Ok(find(&memory, &image_with(table), A0))
}

#[test]
fn names_at_the_end(rt: HostRuntime) -> Result<(), Fail> {
    let whole = SymbolAt {
        value: A0,
        name_at: u64::MAX - 5,
        name_len: 5,
    };
    assert_eq!(rt; name_at_the_end(rt.alloc(), 6)?, Some(whole));
    assert_eq!(rt; name_at_the_end(rt.alloc(), 5)?, None);
    assert_eq!(rt; name_at_the_end(rt.alloc(), 1)?, None);
    Ok(())
}

fn add_words(file: &mut Vec<u8>, words: &[u32]) -> Result<(), AllocError> {
    for word in words {
        file.extend_from_slice(&word.to_le_bytes())?;
    }
    Ok(())
}

// A segment; `numbers` are vmaddr, vmsize, fileoff and filesize.
fn add_segment(file: &mut Vec<u8>, name: &[u8; 16], numbers: [u64; 4]) -> Result<(), AllocError> {
    add_words(file, &[0x19, 72])?;
    file.extend_from_slice(name)?;
    for number in numbers {
        file.extend_from_slice(&number.to_le_bytes())?;
    }
    add_words(file, &[5, 5, 0, 0])
}

// An image linked at A0, with its tables of symbols 0x8000 bytes behind its header.
fn linked_image(alloc: Global) -> Result<Vec<u8>, AllocError> {
    let mut file = Vec::new(alloc);
    add_words(&mut file, &[0xfeed_facf, 0x0100_0007, 3, 6, 3, 168, 0, 0])?;
    add_segment(
        &mut file,
        b"__TEXT\0\0\0\0\0\0\0\0\0\0",
        [A0, 0x4000, 0, 0x4000],
    )?;
    let linkedit = [A0 + 0x8000, 0x1000, 0x4000, 59];
    add_segment(&mut file, b"__LINKEDIT\0\0\0\0\0\0", linkedit)?;
    add_words(&mut file, &[2, 24, 0x4000, 3, 0x4030, 11])?;
    let rows = [
        Row(1, UNDEFINED, 0),
        Row(1, SECT, A0 + 0xf00),
        Row(7, SECT, A0 + 0xf80),
    ];
    add_rows(&mut file, &rows)?;
    file.extend_from_slice(b"\0_main\0_f\0\0")?;
    Ok(file)
}

// Where an image lies, it is read, and an address of it has its symbol there, whatever it was
// linked at.
#[test]
fn moved_images(rt: HostRuntime) -> Result<(), Fail> {
    for header in [A0, 0x1000, A0 + 0x1000, 0xffff_ffff_0000_0000] {
        let file = linked_image(rt.alloc())?;
        let regions = [bytes(header, 0, 200), bytes(header + 0x8000, 200, 59)];
        let memory = memory_of(rt.alloc(), file, &regions)?;
        let image = parse(&memory, Arch::X86_64, header)?;
        let main = SymbolAt {
            value: header + 0xf00,
            name_at: header + 0x8031,
            name_len: 5,
        };
        assert_eq!(rt; find(&memory, &image, header + 0xeff), None);
        assert_eq!(rt; find(&memory, &image, header + 0xf50), Some(main));
        let next = SymbolAt {
            value: header + 0xf80,
            name_at: header + 0x8037,
            name_len: 2,
        };
        assert_eq!(rt; find(&memory, &image, header + 0xf80), Some(next));
    }
    Ok(())
}
