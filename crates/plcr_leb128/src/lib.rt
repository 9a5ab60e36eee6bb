//! Numbers in bytes at places, as DWARF sections hold them: LEB128 numbers (DWARF 4, section 7.6)
//! and little-endian numbers of a fixed size, read from a piece of memory or from a slice.
#![tactic(auto)]

mod cells;
mod constants;
mod fault;
mod laws;
mod leb128;
mod piece;
mod stored;

pub use cells::Cells;
pub use constants::MOST_BYTES;
pub use fault::Leb128Fault;
pub use laws::{leb128_is_read, slices_are_pieces};
pub use leb128::{Number, read_signed, read_unsigned};
pub use piece::Piece;
pub use stored::Stored;

#[cfg(test)]
mod tests;
