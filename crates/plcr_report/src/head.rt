//! What a report file begins with.

/// Its magic text.
pub const MAGIC: [u8; 7] = *b"plcrash";

/// The version of the format. It follows the magic text as one byte.
pub const VERSION: u8 = 1;
