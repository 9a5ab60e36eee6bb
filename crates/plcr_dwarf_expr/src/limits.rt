//! Limits that contracts cite.

/// An expression has at most so many values on its stack.
pub const MOST_VALUES: usize = 64;

/// An expression carries out at most so many operations.
pub const MOST_OPERATIONS: u32 = 1000;
