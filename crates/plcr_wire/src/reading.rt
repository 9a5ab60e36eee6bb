//! Reading of fields.
ghost use Rattle.std.specs.Prelude.{◌≡◌, ℕ, List, ◌++◌, Ok, ◌+◌, ◌*◌, ◌^◌, ◌<◌, ◌≤◌, length, slice_range, [], ◌∷◌, MatchOption, IfOk};
ghost use Rattle.std.specs.Int.{w32, w64};
ghost use Rattle.plcr_base.specs.Bytes.{IsBytes};
ghost use Rattle.plcr_wire.specs.Reading.{Returns, varint_at, number_at, fixed_at, text_at, field_at, value_at, found_at, Stands, field_slice, value_slice, value_slice_len};
ghost use Rattle.plcr_wire.specs.Spelled.{StartsWithNumber, StartsWithField};
ghost use Rattle.plcr_wire.specs.declared.varint.TheConstants.{VARINT_BYTES};
ghost use Rattle.plcr_wire.specs.Varint.{IsVarint};
ghost use Rattle.plcr_wire.specs.Message as message;
ghost use Rattle.plcr_wire.specs.Message.{FitsField, field_spelling};
ghost use Rattle.plcr_wire.specs.Reading as spec;

use crate::fields::{Field, Value, WireFault};
use crate::slices::{FieldSlice, ValueSlice};
use crate::varint::{BASE, VARINT_BYTES};
use crate::wires::{WIRE_TYPES, Wire, tag_wire};

// A varint whose first byte isn't its last, and what is left.
#[inline(always)]
#[tactic(auto, unfolding(crate::specs::Reading::number_at))]
fn long_number_of(bytes: &[u8], end: usize) -> Result<(u64, &[u8]), WireFault>
    requires { length bytes.now ≤ end }
    ensures reads { Returns (λ x. (x.0, x.1.now)) result (number_at end bytes.now) }
    ensures shorter { IfOk result (λ x. length x.1.now < length bytes.now) }
{
    let mut rest = bytes;
    let mut value: u64 = 0;
    let mut scale: u64 = 1;
    for _group in 0..VARINT_BYTES - 1 {
        let Some((byte, after)) = first_of(rest) else {
            return Err(WireFault::Truncated { at: end });
        };
        if byte < BASE {
            return Ok((value + byte * scale, after));
        }
        value += (byte - BASE) * scale;
        scale *= BASE;
        rest = after;
    }
    let Some((byte, after)) = first_of(rest) else {
        return Err(WireFault::Truncated { at: end });
    };
    if byte < 2 {
        Ok((value + byte * scale, after))
    } else {
        Err(WireFault::BadVarint {
            at: end - bytes.len(),
        })
    }
}

// The first byte, and what is left.
#[inline(always)]
fn first_of(bytes: &[u8]) -> Option<(u64, &[u8])>
    ensures { MatchOption result (bytes.now ≡ []) (λ x. (bytes.now ≡ x.0 ∷ x.1.now) × (x.0 < 256)) }
{
    let (byte, rest) = bytes.split_first()?;
    Some((*byte as u64, rest))
}

// A varint, and what is left. Most have one byte.
#[inline(always)]
#[tactic(auto, unfolding(crate::specs::Reading::number_at))]
fn number_of(bytes: &[u8], end: usize) -> Result<(u64, &[u8]), WireFault>
    requires { length bytes.now ≤ end }
    ensures reads { Returns (λ x. (x.0, x.1.now)) result (number_at end bytes.now) }
    ensures shorter { IfOk result (λ x. length x.1.now < length bytes.now) }
{
    let Some((byte, rest)) = bytes.split_first() else {
        return Err(WireFault::Truncated { at: end });
    };
    if u64::from(*byte) < BASE {
        return Ok((u64::from(*byte), rest));
    }
    long_number_of(bytes, end)
}

// Eight bytes as a number, and what is left.
#[inline(always)]
#[tactic(auto, unfolding(crate::specs::Reading::fixed_at))]
fn fixed64_of(bytes: &[u8], end: usize) -> Result<(u64, &[u8]), WireFault>
    ensures reads { Returns (λ x. (x.0, x.1.now)) result (fixed_at w64 end bytes.now) }
    ensures shorter { IfOk result (λ x. length x.1.now < length bytes.now) }
{
    if bytes.len() < 8 {
        return Err(WireFault::Truncated { at: end });
    }
    let (front, rest) = bytes.split_at(8);
    let number = u64::from_le_bytes([
        front[0], front[1], front[2], front[3], front[4], front[5], front[6], front[7],
    ]);
    Ok((number, rest))
}

// Four bytes as a number, and what is left.
#[inline(always)]
#[tactic(auto, unfolding(crate::specs::Reading::fixed_at))]
fn fixed32_of(bytes: &[u8], end: usize) -> Result<(u32, &[u8]), WireFault>
    ensures reads { Returns (λ x. (x.0, x.1.now)) result (fixed_at w32 end bytes.now) }
    ensures shorter { IfOk result (λ x. length x.1.now < length bytes.now) }
{
    if bytes.len() < 4 {
        return Err(WireFault::Truncated { at: end });
    }
    let (front, rest) = bytes.split_at(4);
    let number = u32::from_le_bytes([front[0], front[1], front[2], front[3]]);
    Ok((number, rest))
}

// A length and so many bytes, and what is left.
#[inline(always)]
#[tactic(auto, unfolding(crate::specs::Reading::text_at))]
fn text_of(bytes: &[u8], end: usize) -> Result<(&[u8], &[u8]), WireFault>
    requires { length bytes.now ≤ end }
    ensures reads { Returns (λ x. (x.0.now, x.1.now)) result (text_at end bytes.now) }
    ensures shorter { IfOk result (λ x. length x.0.now + length x.1.now < length bytes.now) }
{
    let (len, rest) = number_of(bytes, end)?;
    if (rest.len() as u64) < len {
        return Err(WireFault::Truncated { at: end });
    }
    Ok(rest.split_at(len as usize))
}

// A value of this wire type, and what is left.
#[inline(always)]
#[tactic(auto, unfolding(crate::specs::Reading::value_at))]
fn value_of(bytes: &[u8], end: usize, wire: Wire) -> Result<(ValueSlice<'_>, &[u8]), WireFault>
    requires { length bytes.now ≤ end }
    ensures reads { Returns (λ x. (value_slice x.0, x.1.now)) result (value_at end wire bytes.now) }
    ensures shorter { IfOk result (λ x. value_slice_len x.0 + length x.1.now < length bytes.now) }
{
    match wire {
        Wire::Number => {
            let (number, rest) = number_of(bytes, end)?;
            Ok((ValueSlice::Number(number), rest))
        }
        Wire::Fixed64 => {
            let (number, rest) = fixed64_of(bytes, end)?;
            Ok((ValueSlice::Fixed64(number), rest))
        }
        Wire::Bytes => {
            let (text, rest) = text_of(bytes, end)?;
            Ok((ValueSlice::Bytes(text), rest))
        }
        Wire::Fixed32 => {
            let (number, rest) = fixed32_of(bytes, end)?;
            Ok((ValueSlice::Fixed32(number), rest))
        }
    }
}

/// The field that these bytes, the last of a message that ends at `end`, begin with. Its faults
/// have places in the message. Needs no memory.
#[inline(always)]
#[tactic(auto, unfolding(crate::specs::Reading::field_at))]
pub fn field_of(bytes: &[u8], end: usize) -> Result<FieldSlice<'_>, WireFault>
    requires { length bytes.now ≤ end }
    ensures reads { Returns field_slice result (field_at end bytes.now) }
    ensures shorter { IfOk result (λ p. value_slice_len p.value + length p.rest.now
        < length bytes.now) }
{
    let (tag, rest) = number_of(bytes, end)?;
    let Some(wire) = tag_wire(tag) else {
        return Err(WireFault::BadTag {
            at: end - bytes.len(),
        });
    };
    let (value, rest) = value_of(rest, end, wire)?;
    Ok(FieldSlice {
        number: (tag / WIRE_TYPES) as u32,
        value,
        rest,
    })
}

/// The field that stands at a place of a message, which ends at `end`.
#[tactic(auto, unfolding(crate::specs::Reading::found_at))]
pub fn next_field(bytes: &[u8], at: usize, end: usize) -> Result<Field, WireFault>
    requires begins { at < end }
    requires within { end ≤ length bytes.now }
    ensures exact { result ≡ found_at end (slice_range bytes.now at end) }
    ensures stands { IfOk result (Stands bytes.now at end) }
    ensures next { IfOk result (λ f. (at < f.next) × (f.next ≤ end)) }
{
    let piece = field_of(&bytes[at..end], end)?;
    let next = end - piece.rest.len();
    Ok(Field {
        number: piece.number,
        value: placed(piece.value, next),
        next,
    })
}

// A value that ends at this place.
fn placed(value: ValueSlice<'_>, to: usize) -> Value
    requires { value_slice_len value ≤ to }
    ensures { result ≡ spec.placed to (value_slice value.entry) }
{
    match value {
        ValueSlice::Number(number) => Value::Varint(number),
        ValueSlice::Fixed64(number) => Value::Fixed64(number),
        ValueSlice::Bytes(text) => Value::Span {
            from: to - text.len(),
            to,
        },
        ValueSlice::Fixed32(number) => Value::Fixed32(number),
    }
}

/// A field that was spelled is read again, whatever follows it.
#[tactic(auto, using(crate::proofs::ReadAgain::field_again))]
pub fn reads_again()
    ensures { (end : ℕ) (f : message.Field) (rest : List ℕ) → FitsField f →
        field_at end (field_spelling f ++ rest) ≡ Ok (f, rest) }
{}

/// What is read as a number is a varint of it, of ten bytes at most; and each such varint of 64
/// bits is read, the shortest or not.
#[tactic(auto, using(crate::proofs::ReadVarints::number_was, crate::proofs::ReadVarints::number_reads))]
pub fn reads_varints()
    ensures found { (end n : ℕ) (bytes rest : List ℕ) → IsBytes bytes →
        number_at end bytes ≡ Ok (n, rest) → StartsWithNumber bytes n rest VARINT_BYTES }
    ensures all { (end n : ℕ) (front rest : List ℕ) → IsVarint front n →
        length front ≤ VARINT_BYTES → n < 2 ^ 64 → number_at end (front ++ rest) ≡ Ok (n, rest) }
{}

/// What is read as a field is a varint of its number and wire type, in some length, then its value,
/// in some length, and then what is left; and whatever is spelled so is read as that field.
pub fn reads_fields()
    ensures found { (end : ℕ) (bytes : List ℕ) (f : message.Field) (rest : List ℕ) → IsBytes bytes →
        field_at end bytes ≡ Ok (f, rest) → StartsWithField bytes f rest }
    ensures all { (end : ℕ) (bytes : List ℕ) (f : message.Field) (rest : List ℕ) → FitsField f →
        StartsWithField bytes f rest → field_at end bytes ≡ Ok (f, rest) }
{}
