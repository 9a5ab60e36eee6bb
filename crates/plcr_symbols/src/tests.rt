use crate::fixtures::*;
use crate::{SYMBOL_NAME_BYTES, SymbolAt, find, find_all, symbols_lie};
use plcr_macho::Image;
use plcr_memory::MemoryFault;
use std::alloc::{AllocError, Global};
use std::test::*;

// `_main`, `_alias` at the same address, a debugger's row, and `_next`.
const NAMES: &[u8; 27] = b"\0_main\0_alias\0_stab\0_next\0\0";

const FEW: [Row; 4] = [
    Row(1, EXTERNAL, A0 + 0xf00),
    Row(7, EXTERNAL, A0 + 0xf00),
    Row(14, STAB, A0 + 0xf40),
    Row(20, SECT, A0 + 0xf80),
];

#[test]
fn greatest_not_above(rt: HostRuntime) -> Result<(), Fail> {
    let memory = tables(rt.alloc(), &FEW, NAMES)?;
    let main = named(A0 + 0xf00, 1, 5);
    let next = named(A0 + 0xf80, 20, 5);
    let cases = [
        (0, None),
        (A0 - 1, None),
        (A0, None),
        (A0 + 0xeff, None),
        (A0 + 0xf00, main),
        (A0 + 0xf50, main),
        (A0 + 0xf7f, main),
        (A0 + 0xf80, next),
        (A0 + 0x3fff, next),
        (A0 + 0x4000, next),
        (u64::MAX, next),
    ];
    symbols_lie();
    let image = image(4, 27);
    for (address, want) in cases {
        assert_eq!(rt; find(&memory, &image, address), want, "at {address}");
    }
    Ok(())
}

// The answers to rising addresses are those to each.
#[test]
fn many_addresses(rt: HostRuntime) -> Result<(), Fail> {
    let memory = tables(rt.alloc(), &FEW, NAMES)?;
    let main = named(A0 + 0xf00, 1, 5);
    let next = named(A0 + 0xf80, 20, 5);
    let addresses = [
        0,
        A0,
        A0 + 0xf00,
        A0 + 0xf00,
        A0 + 0xf50,
        A0 + 0xf80,
        A0 + 0xf90,
        u64::MAX,
    ];
    let mut found = [main; 8];
    find_all(&memory, &image(4, 27), &addresses, &mut found);
    let want = [None, None, main, main, main, next, next, next];
    assert_eq!(rt; found, want);
    let mut none = [];
    find_all(&memory, &image(4, 27), &[], &mut none);
    let without = Image {
        symtab: None,
        ..image(4, 27)
    };
    find_all(&memory, &without, &addresses, &mut found);
    assert_eq!(rt; found, [None; 8]);
    Ok(())
}

// What the one row of an image has as the symbol of an address.
fn of_row(
    alloc: Global,
    row: Row,
    strings: &[u8],
    address: u64,
) -> Result<Option<SymbolAt>, MemoryFault> {
    let memory = tables(alloc, &[row], strings)?;
    Ok(find(&memory, &image(1, 27), address))
}

#[test]
fn candidates(rt: HostRuntime) -> Result<(), Fail> {
    let at = A0 + 0x100;
    let one = named(at, 1, 5);
    // The row, and whether it is a candidate.
    let cases = [
        (Row(1, SECT, at), one),
        (Row(1, EXTERNAL, at), one),
        (Row(1, 0x1e, at), one),
        (Row(1, UNDEFINED, at), None),
        (Row(1, ABSOLUTE, at), None),
        (Row(1, 0x0c, at), None),
        (Row(1, 0, at), None),
        (Row(1, STAB, at), None),
        (Row(1, 0x4e, at), None),
        (Row(1, 0x8f, at), None),
        (Row(1, 0xff, at), None),
        (Row(1, SECT, A0), named(A0, 1, 5)),
        (Row(1, SECT, A0 - 1), None),
        (Row(1, SECT, A0 + 0x3fff), named(A0 + 0x3fff, 1, 5)),
        (Row(1, SECT, A0 + 0x4000), None),
        (Row(1, SECT, 0), None),
    ];
    for (row, want) in cases {
        let found = of_row(rt.alloc(), row, NAMES, A0 + 0x5000)?;
        assert_eq!(rt; found, want, "{} {}", row.1, row.2);
    }
    Ok(())
}

#[test]
fn names(rt: HostRuntime) -> Result<(), Fail> {
    let at = A0 + 0x100;
    // The place of the name, how many bytes of names there are, and the name's length.
    let cases = [
        (0, 27, Some(0)),
        (1, 27, Some(5)),
        (3, 27, Some(3)),
        (6, 27, Some(0)),
        (26, 27, Some(0)),
        (27, 27, None),
        (u32::MAX, 27, None),
        (1, 7, Some(5)),
        (1, 6, None),
        (0, 1, Some(0)),
        (0, 0, None),
        (26, 1000, Some(0)),
        (27, 1000, None),
    ];
    for (place, strings, len) in cases {
        let memory = tables(rt.alloc(), &[Row(place, SECT, at)], NAMES)?;
        let want = match len {
            Some(len) => named(at, u64::from(place), len),
            None => None,
        };
        assert_eq!(rt;
            find(&memory, &image(1, strings), at),
            want,
            "{place} of {strings}"
        );
    }
    Ok(())
}

// So many letters, and a zero.
fn long_name(alloc: Global, len: u32) -> Result<Vec<u8>, AllocError> {
    let mut name = Vec::new(alloc);
    for _ in 0..len {
        name.push(b'x')?;
    }
    name.push(0)?;
    Ok(name)
}

#[test]
fn long_names(rt: HostRuntime) -> Result<(), Fail> {
    let at = A0 + 0x100;
    let cases = [
        (255, Some(255)),
        (256, Some(256)),
        (257, Some(257)),
        (1023, Some(1023)),
        (SYMBOL_NAME_BYTES, Some(1024)),
        (1025, None),
        (5000, None),
    ];
    for (len, want) in cases {
        let name = long_name(rt.alloc(), len)?;
        let memory = tables(rt.alloc(), &[Row(0, SECT, at)], name.as_slice())?;
        let want = match want {
            Some(len) => named(at, 0, len),
            None => None,
        };
        assert_eq!(rt; find(&memory, &image(1, 6000), at), want, "{len}");
        assert_eq!(rt;
            find(&memory, &image(1, len), at),
            None,
            "{len} and no zero"
        );
    }
    Ok(())
}

// A bad name leaves its addresses without a symbol: those below aren't tried.
#[test]
fn bad_name(rt: HostRuntime) -> Result<(), Fail> {
    let rows = [
        Row(1, SECT, A0 + 0x100),
        Row(99, SECT, A0 + 0x200),
        Row(7, SECT, A0 + 0x200),
        Row(20, SECT, A0 + 0x300),
    ];
    let memory = tables(rt.alloc(), &rows, NAMES)?;
    let low = named(A0 + 0x100, 1, 5);
    let high = named(A0 + 0x300, 20, 5);
    let addresses = [A0 + 0x1ff, A0 + 0x200, A0 + 0x250, A0 + 0x2ff, A0 + 0x300];
    let mut found = [None; 5];
    find_all(&memory, &image(4, 27), &addresses, &mut found);
    assert_eq!(rt; found, [low, None, None, None, high]);
    Ok(())
}
