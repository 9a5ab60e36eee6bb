//! LC_SYMTAB (loader.h): its length in bytes, and its fields.

use crate::field::Field;

pub const LENGTH: usize = 24;

pub const CMD: Field = Field { at: 0, size: 4 };

pub const CMDSIZE: Field = Field { at: 4, size: 4 };

pub const SYMOFF: Field = Field { at: 8, size: 4 };

pub const NSYMS: Field = Field { at: 12, size: 4 };

pub const STROFF: Field = Field { at: 16, size: 4 };

pub const STRSIZE: Field = Field { at: 20, size: 4 };
