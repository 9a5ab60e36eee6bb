//! Why the caller can't be found by the frame pointer, as numbers of `Step::Bad`.

/// The frame pointer isn't known.
pub const NO_FRAME_POINTER: u8 = 1;

/// The words at the frame pointer aren't mapped.
pub const NOT_MAPPED: u8 = 2;

/// The frame pointer that was saved is neither 0 nor above the one that leads to it.
pub const DOES_NOT_RISE: u8 = 3;
