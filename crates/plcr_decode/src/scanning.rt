//! One field of a message, by the table of fields.
ghost use Rattle.std.specs.Prelude.{◌≡◌, ◌≢◌, ◌+◌, ◌<◌, ◌≤◌, ◌∷◌, length, IfOk, IfErr};
ghost use Rattle.plcr_wire.specs.Reading.{Returns, field_at, field_slice, value_slice, value_slice_len};
ghost use Rattle.plcr_report.specs.Schema.{rule};
ghost use Rattle.plcr_wire.specs.Message as message;
ghost use Rattle.plcr_decode.specs.Fields.{fields_of};
ghost use Rattle.plcr_decode.specs.Scan as spec;
ghost use Rattle.plcr_decode.specs.inner.Views.{step_view};

use crate::faults::{DecodeFault, fault_of};
use crate::table::held;
use plcr_report::{Holds, Kind};
use plcr_wire::{FieldSlice, ValueSlice, field_of};

/// A field, and what its message's table says that it holds; nothing where it isn't known.
#[derive(Clone, Copy)]
pub(crate) struct Step<'a> {
    pub(crate) field: FieldSlice<'a>,
    pub(crate) holds: Option<Holds>,
}

/// Whether a value has the wire type of its field.
#[inline(always)]
fn fits(holds: Option<Holds>, value: ValueSlice<'_>) -> bool
    ensures { result ≡ spec.fits holds (value_slice value.entry) }
{
    match holds {
        None => true,
        Some(Holds::Number) => matches!(value, ValueSlice::Number(_)),
        Some(Holds::Text) => matches!(value, ValueSlice::Bytes(_)),
        Some(Holds::Message(_)) => matches!(value, ValueSlice::Bytes(_)),
    }
}

/// The bytes that may hold a message, none in a number.
#[inline(always)]
pub(crate) fn value_bytes(value: ValueSlice<'_>) -> &[u8]
    ensures bytes { result.now ≡ message.value_bytes (value_slice value.entry) }
    ensures within { length result.now ≤ value_slice_len value.entry }
{
    match value {
        ValueSlice::Bytes(text) => text,
        _ => &[],
    }
}

/// The field that these bytes, the last of a message that ends at `end`, begin with.
#[inline(always)]
#[tactic(auto, using(crate::proofs::Listed::fields_any))]
fn field_at(bytes: &[u8], end: usize) -> Result<FieldSlice<'_>, DecodeFault>
    requires { length bytes.now ≤ end }
    ensures reads { Returns field_slice result (spec.lifted (field_at end bytes.now)) }
    ensures field { IfOk result (λ p. fields_of bytes.now ≡ (field_slice p).0
        ∷ fields_of p.rest.now) }
    ensures shorter { IfOk result (λ p. value_slice_len p.value + length p.rest.now
        < length bytes.now) }
    ensures real { IfErr result (λ e. e ≢ DecodeFault.Memory) }
{
    match field_of(bytes, end) {
        Ok(field) => Ok(field),
        Err(fault) => Err(fault_of(fault)),
    }
}

/// The same, with what its message's table says of it.
#[inline(always)]
#[tactic(auto, unfolding(crate::specs::Scan::step_at))]
pub(crate) fn step_of(kind: Kind, bytes: &[u8], end: usize) -> Result<Step<'_>, DecodeFault>
    requires { length bytes.now ≤ end }
    ensures reads { Returns (step_view kind) result (spec.step_at kind end bytes.now) }
    ensures known { IfOk result (λ s. s.holds ≡ rule kind s.field.number) }
    ensures field { IfOk result (λ s. fields_of bytes.now ≡ (field_slice s.field).0
        ∷ fields_of s.field.rest.now) }
    ensures shorter { IfOk result (λ s. value_slice_len s.field.value + length s.field.rest.now
        < length bytes.now) }
    ensures real { IfErr result (λ e. e ≢ DecodeFault.Memory) }
{
    let field = field_at(bytes, end)?;
    let holds = held(kind, field.number);
    if !fits(holds, field.value) {
        return Err(DecodeFault::WrongWire {
            field: field.number,
            at: end - bytes.len(),
        });
    }
    Ok(Step { field, holds })
}
