//! Writers of whole fields that remember a failure to the end.
ghost use Rattle.std.specs.Prelude.{◌≡◌, ◌+◌, ◌*◌, ◌^◌, ◌<◌, ◌≤◌};
ghost use Rattle.plcr_wire.specs.Message.{number_field, bytes_field, field_spelling, message_head};
ghost use Rattle.plcr_wire.specs.Pen.{Wrote};
ghost use Rattle.plcr_wire.specs.Varint.{varint, tag};
ghost use Rattle.plcr_wire.specs.Wires.{wire_number};

use crate::Put;
use crate::wires::{Wire, tag_number};

/// A writer whose calls can't fail. Once a byte is lost it takes nothing any more, and its owner
/// hears of that at the end.
pub trait Ink: Put {
    /// Writes these bytes as they are.
    fn raw(&mut self, bytes: &[u8])
        ensures { Wrote (Self.pen self.old) (Self.pen self.new) bytes.now };

    /// Writes a number as its shortest varint.
    fn varint(&mut self, value: u64)
        ensures { Wrote (Self.pen self.old) (Self.pen self.new) (varint value) };

    /// Writes the tag of a field with this number and wire type.
    #[tactic(auto, unfolding(crate::specs::Varint::tag))]
    fn tag(&mut self, field: u32, wire: Wire)
        requires some { 0 < field }
        requires within { field < 2 ^ 29 }
        ensures { Wrote (Self.pen self.old) (Self.pen self.new) (tag field (wire_number wire)) }
    {
        self.varint(tag_number(field, wire.number()))
    }

    /// Writes a field that is a varint.
    #[tactic(auto, using(crate::proofs::Writing::wrote_twice), unfolding(crate::specs::Message::field_spelling))]
    fn number(&mut self, field: u32, value: u64)
        requires some { 0 < field }
        requires within { field < 2 ^ 29 }
        ensures { Wrote (Self.pen self.old) (Self.pen self.new)
            (field_spelling (number_field field value)) }
    {
        self.tag(field, Wire::Number);
        self.varint(value)
    }

    /// Writes what stands before a submessage of so many bytes: its tag and its length.
    #[tactic(auto, using(crate::proofs::Writing::wrote_twice))]
    fn head(&mut self, field: u32, len: u64)
        requires some { 0 < field }
        requires within { field < 2 ^ 29 }
        ensures { Wrote (Self.pen self.old) (Self.pen self.new) (message_head field len) }
    {
        self.tag(field, Wire::Bytes);
        self.varint(len)
    }

    /// Writes a field that is a text or a run of bytes.
    fn text(&mut self, field: u32, bytes: &[u8])
        requires some { 0 < field }
        requires within { field < 2 ^ 29 }
        ensures { Wrote (Self.pen self.old) (Self.pen self.new)
            (field_spelling (bytes_field field bytes.now)) }
    {
        self.head(field, bytes.len() as u64);
        self.raw(bytes)
    }
}
