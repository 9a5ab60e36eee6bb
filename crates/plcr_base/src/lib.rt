//! Definitions and small readers that the crates of the workspace share: what it is for a count of
//! failures to rise, what is said of lists that are told or not told, and little-endian numbers in
//! bytes.
#![tactic(auto)]

mod limits;
mod numbers;
mod rows;

pub use limits::IMAGE_NAME_BYTES;
pub use numbers::{read_padded_u64, read_u16, read_u32, read_u64};
pub use rows::{Bytes, Rows};

#[cfg(test)]
mod tests;
