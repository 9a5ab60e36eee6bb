//! Limits that contracts cite.

/// At most so many rows are remembered at once.
pub const MOST_REMEMBERED: usize = 16;

/// A row has rules for so many register numbers, from 0 on: those of arm64's general registers.
pub const MOST_RULES: usize = 32;

/// The number of arm64's link register, whose present value stands for a return address without a
/// rule.
pub const LINK_REGISTER: u64 = 30;
