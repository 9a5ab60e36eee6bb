//! The Protocol Buffers wire format: varints, tags and fields, written and read without memory.
//!
//! `Put` takes bytes and says at once that one failed. `Ink` takes whole fields and remembers a
//! failure to the end, so that the writer of a message has no error exits.
#![tactic(auto)]

mod buffered;
mod counter;
mod fields;
mod held;
mod ink;
mod put;
mod reading;
mod slices;
mod varint;
mod wires;

pub use buffered::{Buffered, BufferedText, PIECE, Pieces, TEXT_PIECE};
pub use counter::Counter;
pub use fields::{Field, Value, WireFault};
pub use ink::Ink;
pub use put::{Put, put_tag, put_varint, tag_len};
pub use reading::{field_of, next_field, reads_again, reads_fields, reads_varints};
pub use slices::{FieldSlice, ValueSlice};
pub use varint::{VARINT_BYTES, shortest_varint, varint_len};
pub use wires::Wire;

#[cfg(test)]
mod tests;
