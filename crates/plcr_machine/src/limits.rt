//! The limits of an image list.

/// A list has at most so many nodes.
pub const MOST_NODES: u32 = 4096;

/// A list has at most so many passes.
pub const MOST_PASSES: u32 = 1024;

/// At most so many changes are made to a list, and counted.
pub const MOST_CHANGES: u32 = 4_294_967_295;

/// What a full list tells has the number of changes above this unit and the number of announced
/// passes below it.
pub const COUNT_UNIT: u64 = 4_294_967_296;
