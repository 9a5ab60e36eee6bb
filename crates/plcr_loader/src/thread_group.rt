//! What follows the front of an LC_THREAD or LC_UNIXTHREAD (loader.h): groups, each of these fields
//! and then of as many words as its count says.

use crate::field::Field;

pub const LENGTH: usize = 8;

pub const FLAVOR: Field = Field { at: 0, size: 4 };

pub const COUNT: Field = Field { at: 4, size: 4 };

/// The bytes of a word.
pub const WORD: usize = 4;
