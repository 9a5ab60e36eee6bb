use crate::fixtures::*;
use crate::{KnownSections, find};
use plcr_memory::{Memory, MemoryFault, Region};
use std::alloc::Global;
use std::test::*;

// A memory with the section of the compressed page in which some words, by their index, are others.
fn patched(alloc: Global, patches: &[(usize, u32); 2]) -> Result<Memory, MemoryFault> {
    let mut words = COMPRESSED;
    for (index, word) in patches {
        if *index < words.len() {
            words[*index] = *word;
        }
    }
    memory_with(alloc, &words)
}

// What the section says where some of its words are others, twice by what is kept, too.
fn bad_of(alloc: Global, patches: &[(usize, u32); 2], offset: u64) -> Result<u8, MemoryFault> {
    let memory = patched(alloc, patches)?;
    let image = image_with(84);
    let found = find(&memory, &image, offset);
    let mut known = KnownSections::new(&memory);
    let first = known.find(3, &image, offset);
    let second = known.find(3, &image, offset);
    match found {
        Err(bad) if first == found && second == found => Ok(bad),
        _ => Ok(0),
    }
}

// Words that are others, an offset, and the number of what is bad; 0 where the function is found.
const SECTIONS: [([(usize, u32); 2], u64, u8); 40] = [
    ([(0, 1), (0, 1)], 0x1105, 0),
    // The header.
    ([(0, 2), (0, 2)], 0x1105, 3),
    ([(0, 0), (0, 0)], 0x1105, 3),
    // The index passes the section, is too short, or its entries fall.
    ([(5, 61), (5, 61)], 0x1105, 2),
    ([(5, 0xffff_ffff), (6, 0xffff_ffff)], 0x1105, 2),
    ([(6, 0xffff_ffff), (0, 1)], 0x1105, 2),
    ([(6, 1), (6, 1)], 0x1105, 4),
    ([(6, 0), (6, 0)], 0x1105, 4),
    ([(6, 3), (6, 3)], 0x1105, 5),
    ([(12, 0xfff), (12, 0xfff)], 0x1105, 5),
    ([(12, 0x1000), (12, 0x1000)], 0x1105, 4),
    // A fall counts before what isn't found, and a word that is missing before a fall.
    ([(12, 0xfff), (10, 0)], 0x1105, 5),
    ([(12, 0xfff), (9, 0x2000)], 0x1105, 5),
    ([(6, 5), (12, 0xfff)], 0x1105, 2),
    ([(0, 3), (6, 5)], 0x1105, 3),
    // The sentinel, the entry and its page.
    ([(12, 0x1105), (12, 0x1105)], 0x1105, 4),
    ([(12, 0x1106), (12, 0x1106)], 0x1105, 0),
    ([(9, 0x1106), (20, 0x0300_0000)], 0x1105, 4),
    ([(9, 0x1105), (20, 0x0300_0000)], 0x1105, 0),
    ([(10, 0), (10, 0)], 0x1105, 4),
    ([(10, 81), (10, 81)], 0x1105, 2),
    ([(10, 0xffff_ffff), (0, 1)], 0x1105, 2),
    ([(15, 1), (15, 1)], 0x1105, 6),
    ([(15, 4), (16, 0xffff_ffff)], 0x1105, 6),
    // The page passes the section, has no entry at or below the offset, or no such encoding.
    ([(15, 2), (15, 2)], 0x1105, 2),
    ([(16, 0x2_0014), (16, 0x2_0014)], 0x1105, 2),
    ([(16, 0x1_0015), (16, 0x1_0015)], 0x1105, 2),
    ([(16, 0x0_0014), (16, 0x0_0014)], 0x1105, 4),
    ([(20, 0x0300_0106), (0, 1)], 0x1105, 4),
    ([(20, 0x0300_0105), (0, 1)], 0x1105, 0),
    ([(20, 0x0400_0100), (0, 1)], 0x1105, 7),
    ([(17, 0x1_000c), (17, 0x1_000c)], 0x1105, 7),
    ([(20, 0x0400_0106), (0, 1)], 0x1105, 4),
    ([(17, 0x2_0014), (17, 0x2_0014)], 0x1105, 2),
    ([(1, 0xffff_ffff), (20, 0x0000_0100)], 0x1105, 2),
    ([(1, 0xffff_ffff), (20, 0x0300_0100)], 0x1105, 0),
    ([(1, 0xffff_ffff), (20, 0x0200_0100)], 0x1105, 0),
    // Offsets have 32 bits.
    ([(0, 1), (0, 1)], 0x1_0000_0000, 4),
    ([(0, 2), (0, 2)], 0x1_0000_0000, 4),
    ([(0, 2), (0, 2)], 0xffff_ffff, 3),
];

// Each number from a section in which one word, or two, stand otherwise than in a lawful one.
#[test]
fn each_number_has_its_reason(rt: HostRuntime) -> Result<(), Fail> {
    let alloc = rt.alloc();
    for (patches, offset, bad) in SECTIONS {
        assert_eq!(rt; bad_of(alloc, &patches, offset)?, bad, "{offset} {bad}");
    }
    Ok(())
}

// A section that is cut at each of its bytes, by its size and by what is mapped of it.
#[test]
fn sections_are_cut(rt: HostRuntime) -> Result<(), Fail> {
    let alloc = rt.alloc();
    let whole = memory_with(alloc, &COMPRESSED)?;
    for size in 0..84u64 {
        let want = if size < 28 { Err(1) } else { Err(2) };
        assert_eq!(rt; find(&whole, &image_with(size), 0x1105), want, "{size}");
        let mut file = Vec::new(alloc);
        add_words(&mut file, &COMPRESSED)?;
        let mapped = memory_of(alloc, file, &[bytes(SECTION, 0, size.max(1) as usize)])?;
        assert_eq!(rt; find(&mapped, &image_with(84), 0x1105), Err(2), "{size}");
    }
    assert!(rt; find(&whole, &image_with(84), 0x1105).is_ok());
    let mut without = image_with(84);
    without.unwind = None;
    assert_eq!(rt; find(&whole, &without, 0x1105), Err(1));
    assert!(rt; find(&whole, &image_with(u64::MAX), 0x1105).is_ok());
    Ok(())
}

// The same with a regular page.
#[test]
fn regular_pages_are_cut(rt: HostRuntime) -> Result<(), Fail> {
    let alloc = rt.alloc();
    let words = one_function(0x0101_0000);
    let whole = memory_with(alloc, &words)?;
    for size in 28..68u64 {
        assert_eq!(rt; find(&whole, &image_with(size), 0x100), Err(2), "{size}");
        let mut file = Vec::new(alloc);
        add_words(&mut file, &words)?;
        let mapped = memory_of(alloc, file, &[bytes(SECTION, 0, size as usize)])?;
        assert_eq!(rt; find(&mapped, &image_with(68), 0x100), Err(2), "{size}");
    }
    assert!(rt; find(&whole, &image_with(68), 0x100).is_ok());
    Ok(())
}

// A section in two regions, which is then read word by word.
#[test]
fn sections_in_pieces(rt: HostRuntime) -> Result<(), Fail> {
    for cut in 1..84u64 {
        let mut file = Vec::new(rt.alloc());
        add_words(&mut file, &COMPRESSED)?;
        let low = cut as usize;
        let high = 84usize.saturating_sub(low);
        let regions = [bytes(SECTION, 0, low), bytes(SECTION + cut, low, high)];
        let memory = memory_of(rt.alloc(), file, &regions)?;
        let Ok(found) = find(&memory, &image_with(84), 0x1105) else {
            return Err(Fail::from("not found"));
        };
        assert_eq!(rt;
            (found.function, found.encoding),
            (0x1100, 0x0303_2000),
            "{cut}"
        );
    }
    Ok(())
}

// An index of billions of entries, of which the file has the first at most; all others are zeros.
#[test]
fn indexes_of_zeros(rt: HostRuntime) -> Result<(), Fail> {
    for (first, bad) in [(0, 4), (1, 5)] {
        let mut file = Vec::new(rt.alloc());
        add_words(&mut file, &[1, 28, 0, 0, 0, 28, u32::MAX, first])?;
        let zeros = Region {
            start: SECTION,
            size: 1 << 40,
            from: 0,
            len: 32,
        };
        let memory = memory_of(rt.alloc(), file, &[zeros])?;
        assert_eq!(rt; find(&memory, &image_with(1 << 40), 0x1105), Err(bad));
        assert_eq!(rt; find(&memory, &image_with(1 << 32), 0x1105), Err(2));
    }
    Ok(())
}
