//! The header of a 64-bit Mach-O file (loader.h): its length in bytes, and its fields. Load
//! commands follow it.

use crate::field::Field;

pub const LENGTH: usize = 32;

pub const MAGIC: Field = Field { at: 0, size: 4 };

pub const CPUTYPE: Field = Field { at: 4, size: 4 };

pub const CPUSUBTYPE: Field = Field { at: 8, size: 4 };

pub const FILETYPE: Field = Field { at: 12, size: 4 };

pub const NCMDS: Field = Field { at: 16, size: 4 };

pub const SIZEOFCMDS: Field = Field { at: 20, size: 4 };

pub const FLAGS: Field = Field { at: 24, size: 4 };

pub const RESERVED: Field = Field { at: 28, size: 4 };
