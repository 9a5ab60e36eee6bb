//! A row of a table of symbols (nlist.h): its length in bytes, and its fields.

use crate::field::Field;

pub const LENGTH: usize = 16;

pub const N_STRX: Field = Field { at: 0, size: 4 };

/// What kind of symbol it is, under the masks `N_STAB` and `N_TYPE` of the header.
pub const N_TYPE: Field = Field { at: 4, size: 1 };

/// The number of the section that the symbol stands in, where its type is the `N_SECT` of the
/// header.
pub const N_SECT: Field = Field { at: 5, size: 1 };

pub const N_DESC: Field = Field { at: 6, size: 2 };

pub const N_VALUE: Field = Field { at: 8, size: 8 };
