//! What is found when a message is read: fields, with places in it, and faults.

/// A field, and the place after it.
#[derive(Clone, Copy, Debug, Drop, PartialEq, Eq)]
pub struct Field {
    /// Its number, 1 to 2^29 - 1.
    pub number: u32,
    /// Its value.
    pub value: Value,
    /// The place after it.
    pub next: usize,
}

/// A value, by its wire type.
#[derive(Clone, Copy, Debug, Drop, PartialEq, Eq)]
pub enum Value {
    /// A varint.
    Varint(u64),
    /// Eight bytes.
    Fixed64(u64),
    /// The places from the first byte up to the one after the last.
    Span { from: usize, to: usize },
    /// Four bytes.
    Fixed32(u32),
}

/// Why there is no field.
#[derive(Clone, Copy, Debug, Drop, PartialEq, Eq)]
pub enum WireFault {
    /// It passes the end of its message, which is at this place.
    Truncated { at: usize },
    /// The varint at this place has more than 64 bits.
    BadVarint { at: usize },
    /// The tag at this place has no field's number, or no wire type in use.
    BadTag { at: usize },
}
