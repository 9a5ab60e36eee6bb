use crate::{find, step_from};
use plcr_macho::{Image, Part};
use plcr_memory::{Memory, MemoryFault, Region, are_backed};
use plcr_regs::{Arch, Frame, MOST_REGISTERS, Registers, Step, pc_place};
use std::alloc::{AllocError, Global};

/// Where the image of the tests lies, its section `__unwind_info`, and the stack.
pub const HEADER: u64 = 0x1_0000_0000;

pub const SECTION: u64 = HEADER + 0x2000;

pub const STACK: u64 = 0x7000;

/// The places of registers of x86-64.
pub const RAX: usize = 0;

pub const RBX: usize = 1;

pub const RBP: usize = 6;

pub const RSP: usize = 7;

pub const R12: usize = 12;

pub const R13: usize = 13;

pub const R14: usize = 14;

pub const R15: usize = 15;

pub const RIP: usize = 16;

/// The places of registers of arm64.
pub const FP: usize = 29;

pub const LR: usize = 30;

pub const SP: usize = 31;

pub const PC: usize = 32;

/// A section with one function, whose encoding stands in a regular page.
pub const fn one_function(encoding: u32) -> [u32; 17] {
    [
        1, 28, 0, 0, 0, 28, 2, // the header
        0, 52, 0, 0x4000, 0, 0, // the index and its sentinel
        2, 0x1_0008, // the page
        0, encoding,
    ]
}

/// A section with two common encodings and a compressed page with two of its own, of which the one
/// function at 0x1100 has the last.
pub const COMPRESSED: [u32; 21] = [
    1,
    28,
    2,
    0,
    0,
    36,
    2, // the header
    0,
    0, // common encodings
    0x1000,
    60,
    0,
    0x4000,
    0,
    0, // the index and its sentinel
    3,
    0x1_0014,
    0x2_000c, // the page
    0,
    0x0303_2000, // its own encodings
    0x0300_0100,
];

/// A region of the file's bytes.
pub const fn bytes(start: u64, from: usize, len: usize) -> Region {
    Region {
        start,
        size: len as u64,
        from,
        len,
    }
}

pub fn add_words(file: &mut Vec<u8>, words: &[u32]) -> Result<(), AllocError> {
    for word in words {
        file.extend_from_slice(&word.to_le_bytes())?;
    }
    Ok(())
}

pub fn memory_of(alloc: Global, file: Vec<u8>, regions: &[Region]) -> Result<Memory, MemoryFault> {
    let regions = regions.to_vec(alloc)?;
    if are_backed(file.as_slice(), regions.as_slice()) {
        Memory::new(alloc, file, regions)
    } else {
        Err(MemoryFault::Memory)
    }
}

/// A memory with a section, the word 0x1000 in the code, and 64 words of stack, each of which is
/// its own address.
pub fn memory_with(alloc: Global, section: &[u32]) -> Result<Memory, MemoryFault> {
    let mut file = Vec::new(alloc);
    add_words(&mut file, section)?;
    let code = file.len();
    file.extend_from_slice(&0x1000u32.to_le_bytes())?;
    let stack = file.len();
    for index in 0..64u64 {
        file.extend_from_slice(&(STACK + 8 * index).to_le_bytes())?;
    }
    // The word that the size in the code leads to.
    file.extend_from_slice(&0x8100u64.to_le_bytes())?;
    let regions = [
        bytes(SECTION, 0, code),
        bytes(HEADER + 0x1103, code, 4),
        bytes(STACK, stack, 512),
        bytes(0x8100, stack.saturating_add(512), 8),
    ];
    memory_of(alloc, file, &regions)
}

/// The image, with so many bytes of its section.
pub const fn image_with(size: u64) -> Image {
    Image {
        header: HEADER,
        cpu: 0x0100_0007,
        subtype: 3,
        slide: 0,
        text_size: 0x4000,
        uuid: None,
        symtab: None,
        unwind: Some(Part { at: SECTION, size }),
        eh_frame: None,
    }
}

/// A frame that is stopped at an offset of the image, of which some registers are known, by their
/// places.
pub fn frame_at(arch: Arch, bits: u8, offset: u64, known: &[(usize, u64)]) -> Frame {
    let mut value = registers(known);
    value[pc_place(arch)] = Some(HEADER.wrapping_add(offset));
    Frame {
        registers: Registers { arch, value },
        exact: true,
        bits,
    }
}

/// Registers of which some are known.
pub fn registers(known: &[(usize, u64)]) -> [Option<u64>; MOST_REGISTERS] {
    let mut value = [None; MOST_REGISTERS];
    for (place, number) in known {
        if *place < MOST_REGISTERS {
            value[*place] = Some(*number);
        }
    }
    value
}

/// What the reader says of a frame at an offset, by its two halves.
pub fn stepped(memory: &Memory, image: &Image, frame: &Frame, offset: u64) -> Step {
    match find(memory, image, offset) {
        Ok(found) => step_from(memory, image, frame, &found),
        Err(bad) => Step::Bad(bad),
    }
}

/// The caller of which these registers are known.
pub fn caller(arch: Arch, bits: u8, known: &[(usize, u64)]) -> Step {
    let value = registers(known);
    Step::Frame(Frame {
        registers: Registers { arch, value },
        exact: false,
        bits,
    })
}

/// What the reader says of a function with this encoding and a frame of which these registers are
/// known.
pub fn said(
    alloc: Global,
    arch: Arch,
    encoding: u32,
    known: &[(usize, u64)],
) -> Result<Step, MemoryFault> {
    let memory = memory_with(alloc, &one_function(encoding))?;
    let frame = frame_at(arch, 64, 0x100, known);
    Ok(stepped(&memory, &image_with(68), &frame, 0x100))
}
