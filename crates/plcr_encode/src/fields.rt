//! Messages and their fields: what is written to ink, and how long it is.
ghost use Rattle.std.specs.Prelude.{◌≡◌, ℕ, ◌+◌, ◌*◌, ◌^◌, ◌<◌, ◌≤◌, List, length, if◌then◌else◌};
ghost use Rattle.plcr_wire.specs.Message.{Field, spelling, field_spelling, number_field, bytes_field};
ghost use Rattle.plcr_wire.specs.Pen.{Wrote};
ghost use Rattle.plcr_encode.specs.declared.limits.TheConstants.{FIELD_BYTES};
ghost use Rattle.plcr_encode.specs.inner.Rows.{message_field};

use plcr_wire::{Ink, Wire, tag_len, varint_len};

/// A message that can be sized and written any number of times, each time with the same bytes.
pub(crate) trait Message {
    /// Its fields, in rising order.
    ghost fields: { Self → List Field };

    /// What it meets where it can be written.
    ghost fits: { Self → Type 0 };

    /// The greatest length of its spelling.
    ghost most: { ℕ };

    /// The length of its spelling.
    fn len(&self) -> u64
        requires { fits self.now }
        ensures size { result ≡ length (spelling (fields self.now)) }
        ensures short { result ≤ most };

    /// Writes its fields.
    fn put<W: Ink>(&self, ink: &mut W)
        requires { fits self.now }
        ensures { Wrote (W.pen ink.old) (W.pen ink.new) (spelling (fields self.now)) };

    ghost moderate: { most < 2 ^ 63 };
}

/// The length of a field that is a number.
#[tactic(auto, using(crate::proofs::Lengths::number_length))]
pub(crate) fn number_len(field: u32, value: u64) -> u64
    ensures size { result ≡ length (field_spelling (number_field field value)) }
    ensures short { result ≤ FIELD_BYTES }
{
    tag_len(field, Wire::Number) + varint_len(value)
}

/// Writes a field that is a number.
pub(crate) fn put_number<W: Ink>(ink: &mut W, field: u32, value: u64)
    requires some { 0 < field }
    requires within { field < 2 ^ 29 }
    ensures { Wrote (W.pen ink.old) (W.pen ink.new) (field_spelling (number_field field value)) }
{
    ink.number(field, value);
}

/// The length of a field that is a bool.
pub(crate) fn flag_len(field: u32, value: bool) -> u64
    ensures size { result ≡ length (field_spelling (number_field field (if value then 1 else 0))) }
    ensures short { result ≤ FIELD_BYTES }
{
    number_len(field, if value { 1 } else { 0 })
}

/// Writes a field that is a bool.
pub(crate) fn put_flag<W: Ink>(ink: &mut W, field: u32, value: bool)
    requires some { 0 < field }
    requires within { field < 2 ^ 29 }
    ensures { Wrote (W.pen ink.old) (W.pen ink.new)
        (field_spelling (number_field field (if value then 1 else 0))) }
{
    put_number(ink, field, if value { 1 } else { 0 });
}

/// The length of a field that has so many bytes, as a text or a message.
#[tactic(auto, using(crate::proofs::Lengths::bytes_length))]
pub(crate) fn bytes_len(field: u32, count: u64) -> u64
    requires { count < 2 ^ 63 }
    ensures size { (bytes : List ℕ) → length bytes ≡ count →
        result ≡ length (field_spelling (bytes_field field bytes)) }
    ensures short { result ≤ FIELD_BYTES + count }
{
    tag_len(field, Wire::Bytes) + varint_len(count) + count
}

/// The length of a field that is a text.
pub(crate) fn text_len(field: u32, text: &[u8]) -> u64
    requires { length text.now < 2 ^ 63 }
    ensures size { result ≡ length (field_spelling (bytes_field field text.now)) }
    ensures short { result ≤ FIELD_BYTES + length text.now }
{
    bytes_len(field, text.len() as u64)
}

/// Writes a field that is a text.
pub(crate) fn put_text<W: Ink>(ink: &mut W, field: u32, text: &[u8])
    requires some { 0 < field }
    requires within { field < 2 ^ 29 }
    ensures { Wrote (W.pen ink.old) (W.pen ink.new) (field_spelling (bytes_field field text.now)) }
{
    ink.text(field, text);
}

/// The length of a field that is a message.
pub(crate) fn message_len<M: Message>(field: u32, message: &M) -> u64
    requires { M.fits message.now }
    ensures size { result ≡ length (field_spelling (message_field field (M.fields message.now))) }
    ensures short { result ≤ FIELD_BYTES + M.most }
{
    bytes_len(field, message.len())
}

/// Writes a field that is a message, and gives the length of what was written.
pub(crate) fn put_message<M: Message, W: Ink>(ink: &mut W, field: u32, message: &M) -> u64
    requires some { 0 < field }
    requires within { field < 2 ^ 29 }
    requires fits { M.fits message.now }
    ensures wrote { Wrote (W.pen ink.old) (W.pen ink.new)
        (field_spelling (message_field field (M.fields message.now))) }
    ensures size { result ≡ length (field_spelling (message_field field (M.fields message.now))) }
    ensures short { result ≤ FIELD_BYTES + M.most }
{
    let length = message.len();
    ink.head(field, length);
    message.put(ink);
    bytes_len(field, length)
}
