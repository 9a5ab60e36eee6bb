//! Limits that contracts cite.

/// A thread state has at most so many registers: those of arm64.
pub const MOST_REGISTERS: usize = 34;
