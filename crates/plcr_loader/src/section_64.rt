//! A section of an LC_SEGMENT_64 (loader.h): its length in bytes, and its fields.

use crate::field::Field;

pub const LENGTH: usize = 80;

pub const SECTNAME: Field = Field { at: 0, size: 16 };

pub const SEGNAME: Field = Field { at: 16, size: 16 };

pub const ADDR: Field = Field { at: 32, size: 8 };

pub const SIZE: Field = Field { at: 40, size: 8 };

pub const OFFSET: Field = Field { at: 48, size: 4 };

pub const ALIGN: Field = Field { at: 52, size: 4 };

pub const RELOFF: Field = Field { at: 56, size: 4 };

pub const NRELOC: Field = Field { at: 60, size: 4 };

pub const FLAGS: Field = Field { at: 64, size: 4 };

pub const RESERVED1: Field = Field { at: 68, size: 4 };

pub const RESERVED2: Field = Field { at: 72, size: 4 };

pub const RESERVED3: Field = Field { at: 76, size: 4 };
