//! Tags: the number of a field and its wire type in one number.
ghost use Rattle.std.specs.Prelude.{◌≡◌, ◌+◌, ◌*◌, ◌<◌};
ghost use Rattle.plcr_wire.specs.Reading as spec;
ghost use Rattle.plcr_wire.specs.Wires.{wire_number};
ghost use Rattle.plcr_wire.specs.declared.wires.TheConstants.{WIRE_TYPES};

/// The lowest bits of a tag tell the wire type, as one of so many numbers.
pub const WIRE_TYPES: u64 = 8;

// The number of the wire type of varints.
const NUMBER: u64 = 0;

// That of eight bytes.
const FIXED64: u64 = 1;

// That of a length and so many bytes.
const BYTES: u64 = 2;

// That of four bytes.
const FIXED32: u64 = 5;

/// A wire type in use.
#[derive(Clone, Copy)]
pub enum Wire {
    /// A varint.
    Number,
    /// Eight bytes.
    Fixed64,
    /// A length and so many bytes.
    Bytes,
    /// Four bytes.
    Fixed32,
}

impl Wire {
    // Its number in a tag.
    pub(crate) fn number(self) -> u64
        ensures number { result ≡ wire_number self }
        ensures within { result < WIRE_TYPES }
    {
        match self {
            Wire::Number => NUMBER,
            Wire::Fixed64 => FIXED64,
            Wire::Bytes => BYTES,
            Wire::Fixed32 => FIXED32,
        }
    }
}

// The number that is written as the tag of a field.
pub(crate) fn tag_number(field: u32, wire: u64) -> u64
    requires { wire < WIRE_TYPES }
    ensures { result ≡ field * WIRE_TYPES + wire }
{
    u64::from(field) * WIRE_TYPES + wire
}

// The wire type that a tag names, where it is the tag of a field that may be.
#[inline(always)]
pub(crate) fn tag_wire(tag: u64) -> Option<Wire>
    ensures { result ≡ spec.tag_wire tag }
{
    if tag < WIRE_TYPES || tag > u32::MAX as u64 {
        return None;
    }
    match tag % WIRE_TYPES {
        NUMBER => Some(Wire::Number),
        FIXED64 => Some(Wire::Fixed64),
        BYTES => Some(Wire::Bytes),
        FIXED32 => Some(Wire::Fixed32),
        _ => None,
    }
}
