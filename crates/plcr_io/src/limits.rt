//! Limits that several crates share.

/// The name of a file, in a script and on a desk in memory, has at most so many bytes.
pub const FILE_NAME_BYTES: usize = 255;

/// A number of 64 bits has at most so many decimal digits.
pub const DECIMAL_DIGITS: usize = 20;
