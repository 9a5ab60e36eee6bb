//! Limits, and how much is read at a time.

/// The name of a symbol has at most so many bytes.
pub const SYMBOL_NAME_BYTES: u32 = 1024;

/// A name is looked through in pieces of at most so many bytes.
pub const NAME_PIECE: usize = 256;

/// A table is read in pieces of at most so many rows.
pub const PIECE_ROWS: usize = 64;
