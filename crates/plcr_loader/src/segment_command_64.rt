//! LC_SEGMENT_64 (loader.h): its length in bytes, and its fields. Its sections follow these within
//! the command.

use crate::field::Field;

pub const LENGTH: usize = 72;

pub const CMD: Field = Field { at: 0, size: 4 };

pub const CMDSIZE: Field = Field { at: 4, size: 4 };

pub const SEGNAME: Field = Field { at: 8, size: 16 };

pub const VMADDR: Field = Field { at: 24, size: 8 };

pub const VMSIZE: Field = Field { at: 32, size: 8 };

pub const FILEOFF: Field = Field { at: 40, size: 8 };

pub const FILESIZE: Field = Field { at: 48, size: 8 };

pub const MAXPROT: Field = Field { at: 56, size: 4 };

pub const INITPROT: Field = Field { at: 60, size: 4 };

pub const NSECTS: Field = Field { at: 64, size: 4 };

pub const FLAGS: Field = Field { at: 68, size: 4 };
