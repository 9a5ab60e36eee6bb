//! LC_UUID (loader.h): its length in bytes, and its fields.

use crate::field::Field;

pub const LENGTH: usize = 24;

pub const CMD: Field = Field { at: 0, size: 4 };

pub const CMDSIZE: Field = Field { at: 4, size: 4 };

pub const UUID: Field = Field { at: 8, size: 16 };
