//! Limits that several crates share.

/// The name of an image has at most so many bytes.
pub const IMAGE_NAME_BYTES: usize = 1024;
