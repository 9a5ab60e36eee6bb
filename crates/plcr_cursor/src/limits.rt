//! Limits that contracts cite.

/// A thread has at most so many frames.
pub const MOST_FRAMES: usize = 512;

/// No code stands in the page at address 0, nor at the first address behind it, which is this: a pc
/// at or below it ends the frames.
pub const NULL_PAGE: u64 = 4_096;
