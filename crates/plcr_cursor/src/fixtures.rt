//! An image with both tables, and what lies on the stack, for the tests.
use plcr_memory::{Memory, MemoryFault, Region, are_backed};
use std::alloc::{AllocError, Global};

/// Where the header of the image lies. Its `__TEXT` has 0x800 bytes.
pub const IMAGE: u64 = 0x1_0000;

/// Where the stack lies.
pub const STACK: u64 = 0x7000;

// The header of an image for x86-64, and its segment `__TEXT`.
const SEGMENT: [u32; 26] = [
    0xfeed_facf,
    0x0100_0007,
    3,
    6,
    1,
    232,
    0,
    0,
    0x19,
    232,
    0x4554_5f5f,
    0x5458,
    0,
    0,
    0x1_0000,
    0,
    0x800,
    0,
    0,
    0,
    0x800,
    0,
    5,
    5,
    2,
    0,
];

// The name of a section, and that of its segment.
const UNWIND_INFO: [u32; 8] = [
    0x6e75_5f5f,
    0x646e_6977,
    0x666e_695f,
    0x6f,
    0x4554_5f5f,
    0x5458,
    0,
    0,
];

const EH_FRAME: [u32; 8] = [
    0x6865_5f5f,
    0x6172_665f,
    0x656d,
    0,
    0x4554_5f5f,
    0x5458,
    0,
    0,
];

// Compact unwind information, which lies at 0x10108: a header, an index of one page with its
// sentinel, and the functions of the page. That at 0x400 keeps its frame in rbp; those at 0x500 and
// 0x700 are told by call frame information; the encoding of that at 0x600 has no mode.
const COMPACT: [u32; 23] = [
    1,
    28,
    0,
    28,
    0,
    28,
    2,
    0x400,
    52,
    0,
    0x800,
    0,
    0,
    2,
    0x4_0008,
    0x400,
    0x0100_0000,
    0x500,
    0x0400_0000,
    0x600,
    0,
    0x700,
    0x0400_0000,
];

/// How many bytes it has.
pub const COMPACT_BYTES: u32 = 92;

// Call frame information, which lies at 0x10164. A common information entry, by which the canonical
// frame address is rsp + 8 and the return address stands below it, and the functions at 0x400,
// 0x500, 0x600 and 0x700: the canonical frame address of that at 0x600, of 0x80 bytes, is an
// expression that goes back by its own length for ever, and the last has no return address; then
// the same entry of signal frames, and the function at 0x780, of 0x80 bytes.
const CALL_FRAMES: [u32; 45] = [
    16,
    0,
    0x7801_0001,
    0x0807_0c10,
    0x190,
    20,
    24,
    0x1_0400,
    0,
    0x100,
    0,
    20,
    48,
    0x1_0500,
    0,
    0x100,
    0,
    28,
    72,
    0x1_0600,
    0,
    0x80,
    0,
    0xfd2f_030f,
    0xff,
    24,
    104,
    0x1_0700,
    0,
    0x80,
    0,
    0x1007,
    20,
    0,
    0x0053_7a01,
    0x0010_7801,
    0x9008_070c,
    1,
    24,
    28,
    0x1_0780,
    0,
    0x80,
    0,
    0,
];

/// How many bytes it has.
pub const CALL_FRAME_BYTES: u32 = 180;

/// How many bytes its header and commands have.
pub const IMAGE_HEADER: usize = 264;

/// How many bytes the image has.
pub const IMAGE_BYTES: usize = 536;

// What lies on the stack.
const WORDS: [u64; 20] = [
    0, 0x9000, 0xa000, 0x1_0500, 0xb000, 0x7038, 0x1_0500, 0, 0xc000, 0x7060, 0x1_0800, 0xd000, 0,
    0xe000, 0x7080, 0x2_0411, 0x7090, 0x1_0411, 0, 0x2_0511,
];

fn add_words(file: &mut Vec<u8>, words: &[u32]) -> Result<(), AllocError> {
    for word in words {
        file.extend_from_slice(&word.to_le_bytes())?;
    }
    Ok(())
}

fn add_section(
    file: &mut Vec<u8>,
    names: &[u32],
    address: u32,
    size: u32,
) -> Result<(), AllocError> {
    add_words(file, names)?;
    add_words(file, &[address, 0, size, 0, 0, 0, 0, 0, 0, 0, 0, 0])
}

// The image, whose sections are said to have so many bytes.
fn image_file(alloc: Global, compact: u32, call_frames: u32) -> Result<Vec<u8>, AllocError> {
    let mut file = Vec::new(alloc);
    add_words(&mut file, &SEGMENT)?;
    add_section(&mut file, &UNWIND_INFO, 0x1_0108, compact)?;
    add_section(&mut file, &EH_FRAME, 0x1_0164, call_frames)?;
    add_words(&mut file, &COMPACT)?;
    add_words(&mut file, &CALL_FRAMES)?;
    Ok(file)
}

/// A memory of the regions of a file.
pub fn memory_of(alloc: Global, file: Vec<u8>, regions: &[Region]) -> Result<Memory, MemoryFault> {
    let mut all = Vec::new(alloc);
    for region in regions {
        all.push(*region)?;
    }
    if are_backed(file.as_slice(), all.as_slice()) {
        Memory::new(alloc, file, all)
    } else {
        Err(MemoryFault::Memory)
    }
}

/// A region of the file's bytes.
pub fn bytes(start: u64, from: usize, len: usize) -> Region {
    Region {
        start,
        size: len as u64,
        from,
        len,
    }
}

/// How far the image reaches in a memory, and how many bytes its sections are said to have.
#[derive(Clone, Copy)]
pub struct Cut {
    pub image: usize,
    pub compact: u32,
    pub call_frames: u32,
}

/// All of it.
pub const WHOLE: Cut = Cut {
    image: IMAGE_BYTES,
    compact: COMPACT_BYTES,
    call_frames: CALL_FRAME_BYTES,
};

/// A memory with the stack and the image, also 0x10000 bytes above.
pub fn memory_with_image(alloc: Global, cut: Cut) -> Result<Memory, MemoryFault> {
    let mut file = image_file(alloc, cut.compact, cut.call_frames)?;
    for word in WORDS {
        file.extend_from_slice(&word.to_le_bytes())?;
    }
    let regions = [
        bytes(STACK, IMAGE_BYTES, 160),
        bytes(IMAGE, 0, cut.image),
        bytes(IMAGE + 0x1_0000, 0, cut.image),
    ];
    memory_of(alloc, file, &regions)
}
