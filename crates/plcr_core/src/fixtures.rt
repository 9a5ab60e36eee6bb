//! Cores that tests read.

use crate::{CoreFault, read_core};
use std::alloc::{AllocError, Global};

pub(crate) const MAGIC: u32 = 0xfeed_facf;

pub(crate) const X86_64: u32 = 0x0100_0007;

pub(crate) const ARM64: u32 = 0x0100_000c;

// Appends 4-byte words.
pub(crate) fn add_words(file: &mut Vec<u8>, words: &[u32]) -> Result<(), AllocError> {
    for word in words {
        file.extend_from_slice(&word.to_le_bytes())?;
    }
    Ok(())
}

// A segment without bytes in the file but those at `offset`.
pub(crate) fn add_segment(file: &mut Vec<u8>, numbers: [u64; 4]) -> Result<(), AllocError> {
    add_words(file, &[0x19, 72, 0, 0, 0, 0])?;
    for number in numbers {
        file.extend_from_slice(&number.to_le_bytes())?;
    }
    add_words(file, &[3, 3, 0, 0])
}

// A core of that processor, whose header tells so many commands of so many bytes, and these words
// behind it.
pub(crate) fn words_file(
    alloc: Global,
    cputype: u32,
    commands: u32,
    size: u32,
    words: &[u32],
) -> Result<Vec<u8>, AllocError> {
    let mut file = Vec::new(alloc);
    add_words(&mut file, &[MAGIC, cputype, 3, 4, commands, size, 0, 0])?;
    add_words(&mut file, words)?;
    Ok(file)
}

pub(crate) fn fault_in(alloc: Global, file: Vec<u8>) -> Option<CoreFault> {
    read_core(alloc, file).err()
}
