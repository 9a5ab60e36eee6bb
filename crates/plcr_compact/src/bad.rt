//! Why the caller can't be found by compact unwind information, as numbers of `Step::Bad`.

/// The image has no section `__unwind_info`, or one without room for its header.
pub const NO_UNWIND_INFO: u8 = 1;

/// A word of the section that is needed passes its end, or isn't mapped.
pub const MISSING_WORD: u8 = 2;

/// The section is of another version.
pub const OTHER_VERSION: u8 = 3;

/// No entry of the index or of the page is the address's.
pub const NO_ENTRY: u8 = 4;

/// An entry of the index or of the page has an offset below that of the one before it.
pub const FALLING_OFFSETS: u8 = 5;

/// The page is neither a regular nor a compressed one.
pub const OTHER_PAGE: u8 = 6;

/// The number of the encoding is past both lists of encodings.
pub const NO_ENCODING: u8 = 7;

/// The mode of the encoding isn't known.
pub const UNKNOWN_MODE: u8 = 8;

/// The mode of the encoding refers to call frame information.
pub const DWARF_MODE: u8 = 9;

/// The encoding names no registers, or a stack that has no room for what was saved.
pub const NO_REGISTERS: u8 = 10;

/// A register that is needed isn't known, or the stack passes the addresses of 64 bits.
pub const OUT_OF_RANGE: u8 = 11;

/// A word of the stack or of the code that is needed isn't mapped.
pub const NOT_MAPPED: u8 = 12;
