//! The sizes of an image list where a script names none.

/// The nodes of the list.
pub const DEFAULT_NODES: u32 = 1024;

/// The passes over the list.
pub const DEFAULT_PASSES: u32 = 16;
