//! Sections, stacks and frames for tests.
ghost use Rattle.std.specs.Prelude.{◌≡◌, IsSome};
ghost use Rattle.plcr_regs.specs.Frames.{frame_lookup};

use crate::step;
use plcr_macho::{Image, Part};
use plcr_memory::{Memory, MemoryFault, Region, are_backed};
use plcr_regs::{Arch, Frame, MOST_REGISTERS, Registers, Step, pc_place};
use std::alloc::{AllocError, Global};

/// Where sections stand.
pub const SECTION: u64 = 0x2000;

/// Where the function of most frame description entries stands, of 32 bytes.
pub const F: u64 = 0x1_0000_1000;

/// Where the stack stands, of 512 bytes.
pub const STACK: u64 = 0x7000;

/// What a word of the stack holds above its own address.
pub const WORD: u64 = 0x5500_0000;

/// The bits of an address of code in most tests.
pub const BITS: u8 = 47;

/// The fields of a common information entry behind its id: code factor 1, data factor -8, return
/// column 16; the canonical frame address is rsp + 8, and rip stands 8 bytes before it.
pub const COMMON: &[u8] = &[1, 0, 1, 0x78, 16, 0x0c, 7, 8, 0x90, 1];

/// How many bytes there are, which are few.
pub fn size_of(bytes: &[u8]) -> u32 {
    u32::try_from(bytes.len()).unwrap_or(0)
}

/// An entry with an id.
pub fn put_entry(into: &mut Vec<u8>, id: u32, fields: &[u8]) -> Result<(), AllocError> {
    let length = size_of(fields).wrapping_add(4);
    into.extend_from_slice(&length.to_le_bytes())?;
    into.extend_from_slice(&id.to_le_bytes())?;
    into.extend_from_slice(fields)
}

/// A common information entry, and a frame description entry behind it with these fields.
pub fn two_entries(alloc: Global, common: &[u8], fields: &[u8]) -> Result<Vec<u8>, AllocError> {
    let mut section = Vec::new(alloc);
    put_entry(&mut section, 0, common)?;
    let id = size_of(section.as_slice()).wrapping_add(4);
    put_entry(&mut section, id, fields)?;
    Ok(section)
}

/// The same with a frame description entry of the function, whose pointers have 8 bytes.
pub fn function(alloc: Global, common: &[u8], rest: &[u8]) -> Result<Vec<u8>, AllocError> {
    let mut fields = Vec::new(alloc);
    fields.extend_from_slice(&F.to_le_bytes())?;
    fields.extend_from_slice(&32u64.to_le_bytes())?;
    fields.extend_from_slice(rest)?;
    two_entries(alloc, common, fields.as_slice())
}

/// A memory of a section and the stack.
pub fn memory_with(alloc: Global, section: &[u8]) -> Result<Memory, MemoryFault> {
    let mut file = Vec::new(alloc);
    for i in 0..64u64 {
        let word = WORD + STACK + 8 * i;
        file.extend_from_slice(&word.to_le_bytes())?;
    }
    let mut regions = Vec::new(alloc);
    regions.push(Region {
        start: STACK,
        size: file.len() as u64,
        from: 0,
        len: file.len(),
    })?;
    if !section.is_empty() {
        regions.push(Region {
            start: SECTION,
            size: section.len() as u64,
            from: file.len(),
            len: section.len(),
        })?;
    }
    file.extend_from_slice(section)?;
    if are_backed(file.as_slice(), regions.as_slice()) {
        Memory::new(alloc, file, regions)
    } else {
        Err(MemoryFault::Memory)
    }
}

/// An image with a section of so many bytes.
pub fn image(size: u64) -> Image {
    Image {
        header: 0x1_0000_0000,
        cpu: 0x0100_0007,
        subtype: 3,
        slide: 0,
        text_size: 0x4000,
        uuid: None,
        symtab: None,
        unwind: None,
        eh_frame: Some(Part { at: SECTION, size }),
    }
}

/// Registers by their places; all others are unknown.
pub fn registers(arch: Arch, known: &[(usize, u64)]) -> Registers {
    let mut value = [None; MOST_REGISTERS];
    for (place, number) in known {
        if *place < MOST_REGISTERS {
            value[*place] = Some(*number);
        }
    }
    Registers { arch, value }
}

/// A frame of which these registers are known.
pub fn frame(arch: Arch, exact: bool, known: &[(usize, u64)]) -> Frame {
    Frame {
        registers: registers(arch, known),
        exact,
        bits: BITS,
    }
}

/// The answer for an exact frame at an address, of which these registers are known, by the section.
pub fn answer(
    alloc: Global,
    section: &[u8],
    arch: Arch,
    pc: u64,
    known: &[(usize, u64)],
) -> Result<Step, MemoryFault> {
    let memory = memory_with(alloc, section)?;
    Ok(answer_in(&memory, section.len() as u64, arch, pc, known))
}

/// The same in a memory.
pub fn answer_in(memory: &Memory, size: u64, arch: Arch, pc: u64, known: &[(usize, u64)]) -> Step {
    let mut frame = frame(arch, true, known);
    frame.registers.value[pc_place(arch)] = Some(pc);
    if frame.lookup().is_some() {
        step(memory, &image(size), &frame)
    } else {
        // No reader has this number.
        Step::Bad(0)
    }
}
