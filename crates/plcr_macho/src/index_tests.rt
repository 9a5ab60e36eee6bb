use crate::fixtures::*;
use crate::{Images, ListImages, PlainImage, containing, indexes_tell};
use arrayvec::ArrayVec;
use plcr_memory::{Memory, MemoryFault};
use plcr_regs::Arch;
use std::alloc::Global;
use std::test::*;

fn nameless(header: u64) -> PlainImage {
    PlainImage {
        header,
        name: ArrayVec::new(),
    }
}

// What an index tells, and what going through the list does.
fn places(headers: &[PlainImage], memory: &Memory, address: u64) -> (Option<usize>, Option<usize>) {
    let mut room = [NO_SPOT; 8];
    if headers.len() > room.len() {
        return (None, None);
    }
    let mut images = ListImages::new(headers, &mut room);
    images.index(memory, Arch::X86_64);
    let told = images.locate(address);
    match containing(&mut images, memory, Arch::X86_64, address) {
        Some((index, _)) => (told, Some(index)),
        None => (told, None),
    }
}

// A memory with an image of each size at each address.
fn memory_with(alloc: Global, images: &[(u64, u64)]) -> Result<Memory, MemoryFault> {
    let mut file = Vec::new(alloc);
    let mut regions = Vec::new(alloc);
    for (header, size) in images {
        regions.push(bytes(*header, file.len(), 128))?;
        file.extend_from_slice(small_image(alloc, *header, *size, 1)?.as_slice())?;
    }
    memory_of(alloc, file, regions.as_slice())
}

// Images at 0x1000 of 0x3000 bytes and at 0x2000 of 0x1000.
#[test]
fn the_least_position_counts(rt: HostRuntime) -> Result<(), Fail> {
    let memory = memory_with(rt.alloc(), &[(0x1000, 0x3000), (0x2000, 0x1000)])?;
    let wide_first = [nameless(0x1000), nameless(0x2000)];
    let wide_last = [nameless(0x2000), nameless(0x1000)];
    // An address, and where it is in either list.
    let cases = [
        (0xfff, None, None),
        (0x1000, Some(0), Some(1)),
        (0x1fff, Some(0), Some(1)),
        (0x2000, Some(0), Some(0)),
        (0x2800, Some(0), Some(0)),
        (0x2fff, Some(0), Some(0)),
        (0x3000, Some(0), Some(1)),
        (0x3fff, Some(0), Some(1)),
        (0x4000, None, None),
    ];
    for (address, first, last) in cases {
        assert_eq!(rt;
            places(&wide_first, &memory, address),
            (first, first),
            "{address}"
        );
        assert_eq!(rt;
            places(&wide_last, &memory, address),
            (last, last),
            "{address}"
        );
    }
    indexes_tell();
    Ok(())
}

// The widest image begins first and stands last in the list; one is empty, one isn't there, and one
// is listed twice.
#[test]
fn some_images_are_wide_and_some_empty(rt: HostRuntime) -> Result<(), Fail> {
    let (wide, low, empty, high) = (A0, A0 + 0x1000, A0 + 0x2000, A0 + 0x3000);
    let memory = memory_with(
        rt.alloc(),
        &[(wide, 0x1_0000), (low, 0x100), (empty, 0), (high, 0x100)],
    )?;
    let images = [
        nameless(empty),
        nameless(5),
        nameless(high),
        nameless(low),
        nameless(high),
        nameless(wide),
    ];
    let cases = [
        (A0 - 1, None),
        (wide, Some(5)),
        (low, Some(3)),
        (low + 0xff, Some(3)),
        (low + 0x100, Some(5)),
        (empty, Some(5)),
        (high, Some(2)),
        (high + 0xff, Some(2)),
        (high + 0x100, Some(5)),
        (A0 + 0xffff, Some(5)),
        (A0 + 0x1_0000, None),
        (5, None),
        (u64::MAX, None),
    ];
    for (address, place) in cases {
        assert_eq!(rt;
            places(&images, &memory, address),
            (place, place),
            "{address}"
        );
    }
    assert_eq!(rt; places(&[], &memory, A0), (None, None));
    Ok(())
}

// A range that passes 2^64 ends there, and doesn't begin again at 0.
#[test]
fn a_range_past_the_last_address(rt: HostRuntime) -> Result<(), Fail> {
    let top = 0xffff_ffff_ffff_f000;
    let memory = memory_with(
        rt.alloc(),
        &[(0, 0x1000), (top, 0x4000), (top + 0x800, 0x100)],
    )?;
    let images = [nameless(top + 0x800), nameless(top), nameless(0)];
    let cases = [
        (0, Some(2)),
        (0xfff, Some(2)),
        (0x1000, None),
        (0x2fff, None),
        (top - 1, None),
        (top, Some(1)),
        (top + 0x800, Some(0)),
        (top + 0x900, Some(1)),
        (u64::MAX, Some(1)),
    ];
    for (address, place) in cases {
        assert_eq!(rt;
            places(&images, &memory, address),
            (place, place),
            "{address}"
        );
    }
    Ok(())
}

// An index is for one memory and architecture, and a later one takes its place.
#[test]
fn a_later_index(rt: HostRuntime) -> Result<(), Fail> {
    let low = memory_with(rt.alloc(), &[(0x1000, 0x1000)])?;
    let both = memory_with(rt.alloc(), &[(0x1000, 0x1000), (0x3000, 0x1000)])?;
    let images = [nameless(0x3000), nameless(0x1000)];
    let mut room = [NO_SPOT; 3];
    let mut list = ListImages::new(&images, &mut room);
    list.index(&low, Arch::X86_64);
    assert_eq!(rt; (list.locate(0x1800), list.locate(0x3800)), (Some(1), None));
    list.index(&both, Arch::X86_64);
    assert_eq!(rt;
        (list.locate(0x1800), list.locate(0x3800)),
        (Some(1), Some(0))
    );
    assert_eq!(rt; (list.count(), list.header(0)), (2, 0x3000));
    assert_eq!(rt; list.locate(0x3800), Some(0));
    list.index(&both, Arch::Arm64);
    assert_eq!(rt; (list.locate(0x1800), list.locate(0x3800)), (None, None));
    Ok(())
}
