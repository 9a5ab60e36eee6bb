use crate::Spot;
use plcr_memory::{Memory, MemoryFault, Region, are_backed};
use std::alloc::{AllocError, Global};

pub const A0: u64 = 0x1_0000_0000;

pub const X86_64: u32 = 0x0100_0007;

pub const ARM64: u32 = 0x0100_000c;

pub const TEXT: &[u8; 16] = b"__TEXT\0\0\0\0\0\0\0\0\0\0";

pub const DATA: &[u8; 16] = b"__DATA\0\0\0\0\0\0\0\0\0\0";

pub const LINKEDIT: &[u8; 16] = b"__LINKEDIT\0\0\0\0\0\0";

pub const UNWIND_INFO: &[u8; 16] = b"__unwind_info\0\0\0";

pub const EH_FRAME: &[u8; 16] = b"__eh_frame\0\0\0\0\0\0";

pub const NO_SPOT: Spot = Spot {
    start: 0,
    size: 0,
    reach: 0,
    position: 0,
};

pub fn add_words(file: &mut Vec<u8>, words: &[u32]) -> Result<(), AllocError> {
    for word in words {
        file.extend_from_slice(&word.to_le_bytes())?;
    }
    Ok(())
}

pub fn add_numbers(file: &mut Vec<u8>, numbers: &[u64]) -> Result<(), AllocError> {
    for number in numbers {
        file.extend_from_slice(&number.to_le_bytes())?;
    }
    Ok(())
}

pub fn add_header(file: &mut Vec<u8>, commands: u32, size: u32) -> Result<(), AllocError> {
    add_words(file, &[0xfeed_facf, X86_64, 3, 6, commands, size, 0, 0])
}

// A segment with so many sections, which are to follow; `numbers` are vmaddr, vmsize, fileoff and
// filesize.
pub fn add_segment(
    file: &mut Vec<u8>,
    name: &[u8; 16],
    numbers: [u64; 4],
    size: u32,
    sections: u32,
) -> Result<(), AllocError> {
    add_words(file, &[0x19, size])?;
    file.extend_from_slice(name)?;
    add_numbers(file, &numbers)?;
    add_words(file, &[5, 5, sections, 0])
}

pub fn add_section(
    file: &mut Vec<u8>,
    name: &[u8; 16],
    at: u64,
    size: u64,
) -> Result<(), AllocError> {
    file.extend_from_slice(name)?;
    file.extend_from_slice(DATA)?;
    add_numbers(file, &[at, size, 0, 0, 0, 0])
}

// The 128 bytes of a small image: `__TEXT` and an id that ends in k.
pub fn small_image(alloc: Global, vmaddr: u64, vmsize: u64, k: u8) -> Result<Vec<u8>, AllocError> {
    let mut file = Vec::new(alloc);
    add_header(&mut file, 2, 96)?;
    add_segment(&mut file, TEXT, [vmaddr, vmsize, 0, vmsize], 72, 0)?;
    add_words(&mut file, &[0x1b, 24, 0, 0, 0])?;
    file.extend_from_slice(&[0, 0, 0, k])?;
    Ok(file)
}

pub fn memory_of(alloc: Global, file: Vec<u8>, regions: &[Region]) -> Result<Memory, MemoryFault> {
    let regions = regions.to_vec(alloc)?;
    if are_backed(file.as_slice(), regions.as_slice()) {
        Memory::new(alloc, file, regions)
    } else {
        Err(MemoryFault::Memory)
    }
}

// So many bytes of memory, of which the first `len` stand in the file and the rest are zero.
pub const fn padded(start: u64, size: u64, from: usize, len: usize) -> Region {
    Region {
        start,
        size,
        from,
        len,
    }
}

// Bytes of the file, as many as they are.
pub const fn bytes(start: u64, from: usize, len: usize) -> Region {
    padded(start, len as u64, from, len)
}

pub fn set_word(file: &mut Vec<u8>, place: usize, word: u32) {
    for (i, byte) in word.to_le_bytes().iter().enumerate() {
        if let Some(cell) = file.get_mut(place.saturating_add(i)) {
            *cell = *byte;
        }
    }
}

// The first `len` bytes of the small image at A0, with one of its 4-byte words changed.
pub fn changed_image(
    alloc: Global,
    place: usize,
    word: u32,
    len: usize,
) -> Result<Memory, MemoryFault> {
    let mut file = small_image(alloc, A0, 0x4000, 7)?;
    set_word(&mut file, place, word);
    memory_of(alloc, file, &[bytes(A0, 0, len)])
}
