//! The fields of a message, whose parts may stand in several places.
ghost use Rattle.std.specs.Prelude.{◌≡◌, ◌∷◌, [], ◌+◌, ◌<◌, ◌≤◌, ◌==◌, length, IfSome, MatchOption, if◌then◌else◌};
ghost use Rattle.plcr_wire.specs.Message.{value_bytes};
ghost use Rattle.plcr_wire.specs.Reading.{field_slice, value_slice, value_slice_len};
ghost use Rattle.plcr_decode.specs.Fields.{fields_of, messages_in, joined, last_or, last_value, has, number_in, text_in, or_zero, or_empty};
ghost use Rattle.plcr_decode.specs.inner.Views.{told};
ghost use Rattle.plcr_decode.specs.Fields as spec;
ghost use Rattle.plcr_decode.specs.inner.Views.{left, size};

use crate::scanning::value_bytes;
use plcr_wire::{FieldSlice, field_of};

/// The fields that are left of a message: those of its present part, and those of the parts that
/// stand in the fields of one number of the message around it.
#[derive(Clone, Copy)]
pub(crate) struct Fields<'a> {
    part: &'a [u8],
    outer: &'a [u8],
    number: u32,
}

/// The field that these bytes begin with; none at a fault.
#[inline(always)]
#[tactic(auto, using(crate::proofs::Listed::fields_step))]
pub(crate) fn first(bytes: &[u8]) -> Option<FieldSlice<'_>>
    ensures first { MatchOption result (fields_of bytes.now ≡ [])
        (λ p. fields_of bytes.now ≡ (field_slice p).0 ∷ fields_of p.rest.now) }
    ensures shorter { IfSome result (λ p. value_slice_len p.value + length p.rest.now
        < length bytes.now) }
{
    match field_of(bytes, bytes.len()) {
        Ok(field) => Some(field),
        Err(_) => None,
    }
}

/// What stands in a field, if it is of this number.
#[inline(always)]
fn part_of<'a>(field: FieldSlice<'a>, number: u32) -> &'a [u8]
    ensures part { result.now ≡ (if field.entry.number == number
        then value_bytes (value_slice field.entry.value) else []) }
    ensures within { length result.now ≤ value_slice_len field.entry.value }
{
    if field.number == number {
        value_bytes(field.value)
    } else {
        &[]
    }
}

/// What is left of a message from its first field of this number on.
#[inline(never)]
#[tactic(auto, using(crate::proofs::Listed::messages_step))]
fn from_first(bytes: &[u8], number: u32) -> &[u8]
    ensures { joined number (fields_of result.now) ≡ joined number (fields_of bytes.now) }
{
    let mut rest = bytes;
    while let Some(field) = first(rest) {
        if field.number == number {
            return rest;
        }
        rest = field.rest;
    }
    rest
}

impl<'a> Fields<'a> {
    /// The fields of a message that stands in one place.
    #[tactic(auto, using(crate::proofs::Listed::fields_alone))]
    pub(crate) fn of(bytes: &'a [u8]) -> Fields<'a>
        ensures fields { left result ≡ fields_of bytes.now }
        ensures size { size result ≡ length bytes.now }
    {
        Fields {
            part: bytes,
            outer: &[],
            number: 0,
        }
    }

    /// The fields of the one message whose parts stand in these fields of the message around it.
    #[tactic(auto, using(crate::proofs::Listed::fields_none))]
    pub(crate) fn joined(outer: &'a [u8], number: u32) -> Fields<'a>
        ensures { left result ≡ joined number (fields_of outer.now) }
    {
        Fields {
            part: &[],
            outer: from_first(outer, number),
            number,
        }
    }

    /// The next field.
    #[inline(always)]
    pub(crate) fn next(&mut self) -> Option<FieldSlice<'a>>
        ensures next { MatchOption result (left self.old ≡ [])
            (λ p. left self.old ≡ (field_slice p).0 ∷ left self.new) }
        ensures smaller { IfSome result (λ p. size self.new < size self.old) }
    {
        loop {
            match first(self.part) {
                Some(field) => {
                    self.part = field.rest;
                    return Some(field);
                }
                None => {
                    let field = first(self.outer)?;
                    self.outer = field.rest;
                    self.part = part_of(field, self.number);
                }
            }
        }
    }
}
