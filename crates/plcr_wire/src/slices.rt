//! Fields as they lie in memory.

/// A field whose bytes are where they were read.
#[derive(Clone, Copy)]
pub struct FieldSlice<'a> {
    /// Its number, 1 to 2^29 - 1.
    pub number: u32,
    /// Its value.
    pub value: ValueSlice<'a>,
    /// What is left of the message.
    pub rest: &'a [u8],
}

/// The value of a field, by its wire type.
#[derive(Clone, Copy)]
pub enum ValueSlice<'a> {
    /// A varint.
    Number(u64),
    /// Eight bytes.
    Fixed64(u64),
    /// A text, a run of bytes or a message.
    Bytes(&'a [u8]),
    /// Four bytes.
    Fixed32(u32),
}
