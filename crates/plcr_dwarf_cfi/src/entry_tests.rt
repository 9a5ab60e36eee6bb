use crate::cases::{COMMONS, ENCODINGS};
use crate::fixtures::*;
use crate::{step, the_first_is_found};
use plcr_macho::{Image, Part};
use plcr_memory::{Memory, MemoryFault, Region, are_backed};
use plcr_regs::{Arch, Step};
use std::alloc::Global;
use std::test::*;

const X86: Arch = Arch::X86_64;

const KNOWN: &[(usize, u64)] = &[(7, 0x7100)];

// The caller where nothing but the return address is saved.
fn plain_caller(exact: bool) -> Step {
    Step::Frame(frame(X86, exact, &[(7, 0x7108), (16, WORD + 0x7100)]))
}

// The answer at the function's start, by the fields of its common information entry and what stands
// behind its range.
fn by_common(alloc: Global, common: &[u8], rest: &[u8]) -> Result<Step, Fail> {
    let section = function(alloc, common, rest)?;
    Ok(answer(alloc, section.as_slice(), X86, F, KNOWN)?)
}

// A signal frame: the caller stands at its pc itself, where it is looked up.
#[test]
fn the_caller_of_a_signal_frame_is_exact(rt: HostRuntime) -> Result<(), Fail> {
    let common = &[1, b'z', b'S', 0, 1, 0x78, 16, 0, 0x0c, 7, 8, 0x90, 1];
    let found = by_common(rt.alloc(), common, &[0])?;
    assert!(rt; found == plain_caller(true));
    if let Step::Frame(caller) = found {
        assert_eq!(rt; caller.lookup(), Some(WORD + 0x7100));
    }
    let plain = by_common(rt.alloc(), COMMON, &[])?;
    assert!(rt; plain == plain_caller(false));
    if let Step::Frame(caller) = plain {
        assert_eq!(rt; caller.lookup(), Some(WORD + 0x70ff));
    }
    Ok(())
}

#[test]
fn common_information_is_read_in_its_order(rt: HostRuntime) -> Result<(), Fail> {
    for (common, rest, number) in COMMONS {
        let found = by_common(rt.alloc(), common, rest)?;
        if number == 0 {
            let exact = common.contains(&b'S');
            assert!(rt; found == plain_caller(exact), "{common:?}");
        } else {
            assert!(rt; found == Step::Bad(number), "{common:?}");
        }
    }
    Ok(())
}

// Rows that the common information entry's instructions remember count with those of the
// description.
#[test]
fn remembered_rows_carry_over(rt: HostRuntime) -> Result<(), Fail> {
    let common = &[1, 0, 1, 0x78, 16, 0x0c, 7, 8, 0x90, 1, 0x0a, 0x0e, 16];
    assert!(rt; by_common(rt.alloc(), common, &[0x0b])? == plain_caller(false));
    assert!(rt; by_common(rt.alloc(), common, &[0x0b, 0x0b])? == Step::Bad(8));
    assert!(rt; by_common(rt.alloc(), common, &[0x0a; 16])? == Step::Bad(8));
    // Without instructions there is no canonical frame address.
    assert!(rt; by_common(rt.alloc(), &[1, 0, 1, 0x78, 16], &[])? == Step::Bad(10));
    assert!(rt; by_common(rt.alloc(), &[1, 0, 1, 0x78, 16, 0x0c, 7, 8], &[])? == Step::Bad(13));
    Ok(())
}

// The common information entry with this encoding of pointers.
fn encoded(alloc: Global, encoding: u8, pointers: &[u8]) -> Result<Vec<u8>, Fail> {
    let common = [
        1, b'z', b'R', 0, 1, 0x78, 16, 1, encoding, 0x0c, 7, 8, 0x90, 1,
    ];
    Ok(two_entries(alloc, &common, pointers)?)
}

#[test]
fn pointers_in_each_encoding(rt: HostRuntime) -> Result<(), Fail> {
    for (encoding, pointers, start, end) in ENCODINGS {
        let section = encoded(rt.alloc(), encoding, pointers)?;
        let memory = memory_with(rt.alloc(), section.as_slice())?;
        let size = section.len() as u64;
        for inside in [start, end.wrapping_sub(1)] {
            let found = answer_in(&memory, size, X86, inside, KNOWN);
            assert!(rt; found == plain_caller(false), "{encoding} {inside}");
        }
        for outside in [start.wrapping_sub(1), end] {
            let found = answer_in(&memory, size, X86, outside, KNOWN);
            assert!(rt; found == Step::Bad(3), "{encoding} {outside}");
        }
    }
    // Other formats, other bases, none, and a pointer that isn't mapped.
    for (encoding, number) in [
        (0x05, 6),
        (0x08, 6),
        (0x0d, 6),
        (0x0f, 6),
        (0x20, 6),
        (0x30, 6),
        (0x40, 6),
        (0x50, 6),
        (0x60, 6),
        (0x70, 6),
        (0xff, 6),
        (0xa3, 6),
        (0x80, 2),
    ] {
        let pointers = [0, 0x30, 0, 0, 1, 0, 0, 0, 0x20, 0, 0, 0, 0, 0, 0, 0, 0];
        let section = encoded(rt.alloc(), encoding, &pointers)?;
        let found = answer(rt.alloc(), section.as_slice(), X86, 0x3000, KNOWN)?;
        assert!(rt; found == Step::Bad(number), "{encoding}");
    }
    Ok(())
}

#[test]
fn the_first_description_counts(rt: HostRuntime) -> Result<(), Fail> {
    the_first_is_found();
    // Two descriptions of the same code, a third that is cut short, and one of other code.
    let mut section = function(rt.alloc(), COMMON, &[])?;
    let mut fields = F.to_le_bytes().to_vec(rt.alloc())?;
    fields.extend_from_slice(&64u64.to_le_bytes())?;
    fields.extend_from_slice(&[0x0e, 16])?;
    let id = size_of(section.as_slice()).wrapping_add(4);
    put_entry(&mut section, id, fields.as_slice())?;
    let first = answer(rt.alloc(), section.as_slice(), X86, F + 31, KNOWN)?;
    assert!(rt; first == plain_caller(false));
    let second = answer(rt.alloc(), section.as_slice(), X86, F + 32, KNOWN)?;
    let caller = [(7, 0x7110), (16, WORD + 0x7108)];
    assert!(rt; second == Step::Frame(frame(X86, false, &caller)));
    // A bad entry hides those behind it, and none before it.
    put_entry(&mut section, 0, &[9])?;
    let bad = answer(rt.alloc(), section.as_slice(), X86, F + 64, KNOWN)?;
    assert!(rt; bad == Step::Bad(4));
    let before = answer(rt.alloc(), section.as_slice(), X86, F + 31, KNOWN)?;
    assert!(rt; before == plain_caller(false));
    Ok(())
}

#[test]
fn entries_end_where_they_say(rt: HostRuntime) -> Result<(), Fail> {
    let whole = function(rt.alloc(), COMMON, &[])?;
    let without = Image {
        eh_frame: None,
        ..image(8)
    };
    let memory = memory_with(rt.alloc(), whole.as_slice())?;
    let state = frame(X86, true, &[(7, 0x7100), (16, F)]);
    let Some(_) = state.lookup() else {
        return Err(Fail::from("no lookup"));
    };
    assert!(rt; step(&memory, &without, &state) == Step::Bad(1));
    assert!(rt; answer_in(&memory, 0, X86, F, KNOWN) == Step::Bad(3));
    // A length of 0 ends the list before the entries, in the long form too.
    for end in [
        [0, 0, 0, 0].as_slice(),
        &[0xff, 0xff, 0xff, 0xff, 0, 0, 0, 0, 0, 0, 0, 0],
    ] {
        let mut section = end.to_vec(rt.alloc())?;
        section.extend_from_slice(whole.as_slice())?;
        let found = answer(rt.alloc(), section.as_slice(), X86, F, KNOWN)?;
        assert!(rt; found == Step::Bad(3));
    }
    // The long form.
    let mut section = [0xff, 0xff, 0xff, 0xff, 14, 0, 0, 0, 0, 0, 0, 0, 0, 0, 0, 0].to_vec(
        rt.alloc(),
    )?;
    section.extend_from_slice(COMMON)?;
    section.extend_from_slice(&[0xff, 0xff, 0xff, 0xff, 20, 0, 0, 0, 0, 0, 0, 0, 38, 0, 0, 0])?;
    section.extend_from_slice(&F.to_le_bytes())?;
    section.extend_from_slice(&32u64.to_le_bytes())?;
    let found = answer(rt.alloc(), section.as_slice(), X86, F, KNOWN)?;
    assert!(rt; found == plain_caller(false));
    // An entry that passes the section ends where the section does, and its instructions don't.
    let whole = function(rt.alloc(), COMMON, &[])?;
    let mut section = whole.as_slice().to_vec(rt.alloc())?;
    if let Some(length) = section.get_mut(18) {
        *length = 0xff;
    }
    let found = answer(rt.alloc(), section.as_slice(), X86, F, KNOWN)?;
    assert!(rt; found == Step::Bad(2));
    section.push(0x42)?;
    section.push(0x42)?;
    let found = answer(rt.alloc(), section.as_slice(), X86, F + 3, KNOWN)?;
    assert!(rt; found == plain_caller(false));
    Ok(())
}

#[test]
fn a_common_information_entry_may_be_anywhere_in_the_section(rt: HostRuntime) -> Result<(), Fail> {
    // The id of a description at 18, whose id stands at 22, and the answer.
    let cases = [
        (22, plain_caller(false)),
        // The description itself: its version would be the first byte of its start.
        (4, Step::Bad(4)),
        // Before the section, and far before it.
        (23, Step::Bad(2)),
        (u32::MAX, Step::Bad(2)),
        // Bytes that are no entry: the version would be a byte of the start, and a part of an
        // instruction.
        (1, Step::Bad(4)),
        (14, Step::Bad(4)),
    ];
    for (id, want) in cases {
        let mut section = Vec::new(rt.alloc());
        put_entry(&mut section, 0, COMMON)?;
        let mut fields = F.to_le_bytes().to_vec(rt.alloc())?;
        fields.extend_from_slice(&32u64.to_le_bytes())?;
        put_entry(&mut section, id, fields.as_slice())?;
        let found = answer(rt.alloc(), section.as_slice(), X86, F, KNOWN)?;
        assert!(rt; found == want, "{id}");
    }
    Ok(())
}

// A section of which a front is mapped, at the end of a region.
fn front_mapped(alloc: Global, section: &[u8], front: usize) -> Result<Memory, MemoryFault> {
    if front <= section.len() {
        memory_with(alloc, &section[..front])
    } else {
        Err(MemoryFault::Memory)
    }
}

#[test]
fn a_section_that_is_cut_has_no_caller(rt: HostRuntime) -> Result<(), Fail> {
    let instructions = [
        0x41, 0x0e, 0x10, 0x86, 2, 0x43, 0x0d, 6, 0x0a, 0x48, 0x0c, 7, 8, 0xc6, 0x41, 0x0b,
    ];
    let section = function(rt.alloc(), COMMON, &instructions)?;
    // The first entry ends behind 18 bytes, and its fields behind 13. What is read ends with the
    // instruction that sets the location above the address, the last but one.
    let needed = section.len().saturating_sub(1);
    for cut in 0..section.len() {
        let size = cut as u64;
        let memory = front_mapped(rt.alloc(), section.as_slice(), cut)?;
        let found = answer_in(&memory, size, X86, F + 12, KNOWN);
        let want = if cut >= needed {
            plain_caller(false)
        } else if cut == 0 || (13..=18).contains(&cut) {
            Step::Bad(3)
        } else {
            Step::Bad(2)
        };
        assert!(rt; found == want, "{cut}");
        // The section says more than is mapped.
        let found = answer_in(&memory, section.len() as u64, X86, F + 12, KNOWN);
        let want = if cut >= needed {
            plain_caller(false)
        } else {
            Step::Bad(2)
        };
        assert!(rt; found == want, "{cut}");
    }
    Ok(())
}

// A block's bytes belong to its instruction: one that isn't mapped is a fault, whether the
// expression is carried out or not.
#[test]
fn all_bytes_of_a_block_are_there(rt: HostRuntime) -> Result<(), Fail> {
    let section = function(
        rt.alloc(),
        COMMON,
        &[0x16, 3, 3, 0x30, 0x30, 0x22, 0x07, 3, 0x41],
    )?;
    let size = section.len() as u64;
    let whole = memory_with(rt.alloc(), section.as_slice())?;
    assert!(rt; answer_in(&whole, size, X86, F, KNOWN) == plain_caller(false));
    let front = front_mapped(
        rt.alloc(),
        section.as_slice(),
        section.len().saturating_sub(4),
    )?;
    assert!(rt; answer_in(&front, size, X86, F, KNOWN) == Step::Bad(2));
    Ok(())
}

// The section's first bytes at the last addresses of all, and the others from address 0 on.
#[test]
fn a_section_may_pass_the_last_address(rt: HostRuntime) -> Result<(), Fail> {
    let section = function(rt.alloc(), COMMON, &[])?;
    let size = section.len() as u64;
    let front = 18;
    let start = 0u64.wrapping_sub(front);
    let mut file = section.as_slice().to_vec(rt.alloc())?;
    let word = (WORD + 0x7100).to_le_bytes();
    file.extend_from_slice(&word)?;
    let regions = [
        Region {
            start,
            size: front,
            from: 0,
            len: 18,
        },
        Region {
            start: 0,
            size: size.wrapping_sub(front),
            from: 18,
            len: section.len().saturating_sub(18),
        },
        Region {
            start: 0x7100,
            size: 8,
            from: section.len(),
            len: 8,
        },
    ]
    .to_vec(rt.alloc())?;
    if !are_backed(file.as_slice(), regions.as_slice()) {
        return Err(Fail::from("not backed"));
    }
    let memory = Memory::new(rt.alloc(), file, regions)?;
    let image = Image {
        eh_frame: Some(Part { at: start, size }),
        ..image(0)
    };
    let state = frame(X86, true, &[(7, 0x7100), (16, F)]);
    let Some(_) = state.lookup() else {
        return Err(Fail::from("no lookup"));
    };
    assert!(rt; step(&memory, &image, &state) == plain_caller(false));
    Ok(())
}
