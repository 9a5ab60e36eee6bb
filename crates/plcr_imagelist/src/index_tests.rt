//! The index of a walk.
ghost use Rattle.std.specs.Prelude.{◌≡◌};

use crate::tests::{load, unload, walk};
use crate::{Hold, ImageList, Pass, Writer};
use plcr_macho::Images;
use plcr_memory::{Memory, MemoryFault, Region, are_backed};
use plcr_regs::Arch;
use std::alloc::{AllocError, Global};
use std::process::Abort;
use std::test::Fail;

// An x86-64 image of one segment, `__TEXT`, of so many bytes at an address.
fn add_image(file: &mut Vec<u8>, start: u64, size: u64) -> Result<(), AllocError> {
    for word in [0xfeed_facfu32, 0x0100_0007, 3, 6, 1, 72, 0, 0, 0x19, 72] {
        file.extend_from_slice(&word.to_le_bytes())?;
    }
    file.extend_from_slice(b"__TEXT\0\0\0\0\0\0\0\0\0\0")?;
    for number in [start, size, 0, size, 5 * 0x1_0000_0001, 0] {
        file.extend_from_slice(&number.to_le_bytes())?;
    }
    Ok(())
}

const IMAGE: usize = 104;

// Images at 0x1000 of 0x3000 bytes and at 0x2000 of 0x1000.
fn memory(alloc: Global) -> Result<Memory, MemoryFault> {
    let mut file = Vec::new(alloc);
    add_image(&mut file, 0x1000, 0x3000)?;
    add_image(&mut file, 0x2000, 0x1000)?;
    let mut regions = Vec::new(alloc);
    for (start, from) in [(0x1000, 0), (0x2000, IMAGE)] {
        regions.push(Region {
            start,
            size: IMAGE as u64,
            from,
            len: IMAGE,
        })?;
    }
    if are_backed(file.as_slice(), regions.as_slice()) {
        Memory::new(alloc, file, regions)
    } else {
        Err(MemoryFault::Memory)
    }
}

// Where the images met so far have an address.
fn place(hold: &mut Hold, list: &ImageList, memory: &Memory, address: u64) -> Option<usize>
    requires { hold.old.walker.table ≡ list.now }
    ensures { hold.new.walker.table ≡ list.now }
{
    let mut images = hold.images(list);
    images.index(memory, Arch::X86_64);
    images.locate(address)
}

// The image met first isn't readable, and the small one is met before the wide one, and unloaded
// meanwhile.
fn tells_places(
    rt: &impl Abort,
    list: &ImageList,
    writer: Writer,
    pass: Pass,
    memory: &Memory,
) -> Pass
    requires writer { writer.table ≡ list.now }
    requires pass { pass.table ≡ list.now }
    ensures { result.table ≡ list.now }
{
    let writer = load(rt, list, writer, 0x7000, b"none", 1);
    let writer = load(rt, list, writer, 0x2000, b"small", 2);
    let writer = load(rt, list, writer, 0x1000, b"wide", 3);
    let mut hold = pass.enter(list);
    assert_eq!(rt; place(&mut hold, list, memory, 0x2800), None);
    assert_eq!(rt; walk(&mut hold, list, 2), (2, false));
    unload(rt, list, writer, 0x2000, 2);
    assert_eq!(rt; place(&mut hold, list, memory, 0x2800), Some(1));
    assert_eq!(rt; place(&mut hold, list, memory, 0x3000), None);
    assert_eq!(rt; walk(&mut hold, list, 2), (1, true));
    assert_eq!(rt; place(&mut hold, list, memory, 0x2800), Some(1));
    assert_eq!(rt; place(&mut hold, list, memory, 0x3000), Some(2));
    assert_eq!(rt; place(&mut hold, list, memory, 0x4000), None);
    let (pass, _) = hold.leave(list);
    pass
}

#[test]
fn a_walk_has_an_index(rt: HostRuntime) -> Result<(), Fail> {
    let memory = memory(rt.alloc())?;
    let Ok((list, writer, mut passes)) = ImageList::open(rt.alloc(), 3, 1) else {
        panic!(rt; "no memory")
    };
    let Some(pass) = passes.pop() else {
        panic!(rt; "no pass")
    };
    let pass = tells_places(&rt, &list, writer, pass, &memory);
    let mut hold = pass.enter(&list);
    assert_eq!(rt; place(&mut hold, &list, &memory, 0x2800), None);
    assert_eq!(rt; walk(&mut hold, &list, 3), (2, true));
    assert_eq!(rt; place(&mut hold, &list, &memory, 0x2800), Some(1));
    let _ = hold.leave(&list);
    Ok(())
}
