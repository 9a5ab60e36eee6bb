use crate::symbol::SymbolAt;
use plcr_macho::{Image, Symtab};
use plcr_memory::{Memory, MemoryFault, Region, are_backed};
use std::alloc::{AllocError, Global};

/// Where the image of the tests lies, and the tables of its symbols.
pub const A0: u64 = 0x1_0000_0000;

pub const ROWS: u64 = 0x1_0001_0000;

pub const STRINGS: u64 = 0x1_0002_0000;

/// Types of rows: defined in a section, the same and seen by other images, undefined, absolute, and
/// a debugger's.
pub const SECT: u8 = 0x0e;

pub const EXTERNAL: u8 = 0x0f;

pub const UNDEFINED: u8 = 0x01;

pub const ABSOLUTE: u8 = 0x02;

pub const STAB: u8 = 0x2e;

/// A row: the place of its name, its type, and its value.
#[derive(Clone, Copy)]
pub struct Row(pub u32, pub u8, pub u64);

pub fn add_rows(file: &mut Vec<u8>, rows: &[Row]) -> Result<(), AllocError> {
    for Row(name, kind, value) in rows {
        file.extend_from_slice(&name.to_le_bytes())?;
        file.extend_from_slice(&[*kind, 1, 0, 0])?;
        file.extend_from_slice(&value.to_le_bytes())?;
    }
    Ok(())
}

pub fn memory_of(alloc: Global, file: Vec<u8>, regions: &[Region]) -> Result<Memory, MemoryFault> {
    let regions = regions.to_vec(alloc)?;
    if are_backed(file.as_slice(), regions.as_slice()) {
        Memory::new(alloc, file, regions)
    } else {
        Err(MemoryFault::Memory)
    }
}

/// So many bytes of memory, of which the first `len` stand in the file and the rest are zero.
pub const fn padded(start: u64, size: u64, from: usize, len: usize) -> Region {
    Region {
        start,
        size,
        from,
        len,
    }
}

/// Bytes of the file, as many as they are.
pub const fn bytes(start: u64, from: usize, len: usize) -> Region {
    padded(start, len as u64, from, len)
}

/// A memory of the rows and the names alone.
pub fn tables(alloc: Global, rows: &[Row], strings: &[u8]) -> Result<Memory, MemoryFault> {
    let mut file = Vec::new(alloc);
    add_rows(&mut file, rows)?;
    let end = file.len();
    file.extend_from_slice(strings)?;
    memory_of(
        alloc,
        file,
        &[bytes(ROWS, 0, end), bytes(STRINGS, end, strings.len())],
    )
}

/// The image at A0 that has these tables, of 0x4000 bytes.
pub const fn image_with(table: Symtab) -> Image {
    Image {
        header: A0,
        cpu: 0x0100_0007,
        subtype: 3,
        slide: 0,
        text_size: 0x4000,
        uuid: None,
        symtab: Some(table),
        unwind: None,
        eh_frame: None,
    }
}

/// The image with so many rows, and so many bytes of names.
pub const fn image(rows: u32, strings: u32) -> Image {
    image_with(Symtab {
        rows_at: ROWS,
        rows,
        strings_at: STRINGS,
        strings,
    })
}

/// The symbol whose name stands at this place of the names.
pub const fn named(value: u64, place: u64, name_len: u32) -> Option<SymbolAt> {
    Some(SymbolAt {
        value,
        name_at: STRINGS.wrapping_add(place),
        name_len,
    })
}
