//! The values of a report's messages.
ghost use Rattle.std.specs.Prelude.{◌≡◌, ◌+◌, ◌<◌, ◌≤◌, List, [], ◌∷◌, ◌++◌, length, map, IfOk, vec_len, vec_capacity};
ghost use Rattle.plcr_decode.specs.declared.found.TheConstants.{NUMBERS};
ghost use Rattle.plcr_wire.specs.Message.{Field};
ghost use Rattle.plcr_wire.specs.Reading.{field_slice};
ghost use Rattle.plcr_decode.specs.Fields.{fields_of, messages_in};
ghost use Rattle.plcr_decode.specs.Values.{one_in};
ghost use Rattle.plcr_decode.specs.inner.Views.{left};

use crate::fields::{Fields, first};
use crate::found::Found;
use crate::scanning::value_bytes;
use plcr_report::Rows;
use plcr_wire::FieldSlice;
use std::alloc::{AllocError, Global};

/// A message whose parts may stand in several places.
pub(crate) trait Part: Sized {
    /// Its value, once no field lacks.
    ghost value: { List Field → Self };

    fn build(alloc: Global, fields: Fields<'_>) -> Result<Self, AllocError>
        ensures { IfOk result (λ x. x ≡ value (left fields.entry)) };
}

/// A message that stands in one place, each in one of its own.
pub(crate) trait Row: Sized {
    /// Its value, once no field lacks.
    ghost value: { List Field → Self };

    fn build(alloc: Global, bytes: &[u8]) -> Result<Self, AllocError>
        ensures { IfOk result (λ x. x ≡ value (fields_of bytes.now)) };
}

/// The one message in the fields of this number, where there is one. What was found are the fields
/// of these bytes.
#[inline(always)]
pub(crate) fn build_one<'a, T: Part>(
    alloc: Global,
    found: &Found<'a>,
    bytes: &'a [u8],
    number: u32,
) -> Result<Option<T>, AllocError>
    requires within { number < NUMBERS }
    requires whole { found.now ≡ fields_of bytes.now }
    ensures { IfOk result (λ x. x ≡ one_in T.value number (fields_of bytes.now)) }
{
    if !found.has(number) {
        return Ok(None);
    }
    Ok(Some(T::build(alloc, found.message(bytes, number))?))
}

/// Builds the message in this field, where it is of this number, behind those built.
#[inline(always)]
#[tactic(auto, using(crate::proofs::Rowed::row_here, crate::proofs::Rowed::row_other))]
fn build_row<T: Row + Drop>(
    alloc: Global,
    rows: &mut Vec<T>,
    number: u32,
    field: FieldSlice<'_>,
) -> Result<(), AllocError>
    requires { vec_len rows.old + length (messages_in number ((field_slice field).0 ∷ []))
        ≤ vec_capacity rows.old }
    ensures rows { IfOk result (λ u. rows.new.items ≡ rows.old.items
        ++ map T.value (messages_in number ((field_slice field.entry).0 ∷ []))) }
    ensures len { IfOk result (λ u. vec_len rows.new
        ≡ vec_len rows.old + length (messages_in number ((field_slice field.entry).0 ∷ []))) }
    ensures room { IfOk result (λ u. vec_capacity rows.new ≡ vec_capacity rows.old) }
{
    if field.number == number {
        let row = T::build(alloc, value_bytes(field.value))?;
        rows.push_reserved(row);
    }
    Ok(())
}

/// The messages in the fields of two numbers, whose counts are known: takes the room of so many,
/// and goes through the fields once.
#[tactic(auto, using(crate::proofs::Rowed::rows_more, crate::proofs::Rowed::room_now, crate::proofs::Rowed::room_more))]
fn build_each<A: Row + Drop, B: Row + Drop>(
    alloc: Global,
    bytes: &[u8],
    counts: (usize, usize),
    numbers: (u32, u32),
) -> Result<(Rows<A>, Rows<B>), AllocError>
    requires first { counts.0 ≡ length (messages_in numbers.0 (fields_of bytes.now)) }
    requires second { counts.1 ≡ length (messages_in numbers.1 (fields_of bytes.now)) }
    ensures first { IfOk result
        (λ r. r.0 ≡ map A.value (messages_in numbers.0 (fields_of bytes.now))) }
    ensures second { IfOk result
        (λ r. r.1 ≡ map B.value (messages_in numbers.1 (fields_of bytes.now))) }
{
    let mut ones = Vec::with_capacity(alloc, counts.0)?;
    let mut others = Vec::with_capacity(alloc, counts.1)?;
    let mut rest = bytes;
    while let Some(field) = first(rest) {
        build_row::<A>(alloc, &mut ones, numbers.0, field)?;
        build_row::<B>(alloc, &mut others, numbers.1, field)?;
        rest = field.rest;
    }
    Ok((Rows::new(ones), Rows::new(others)))
}

/// The messages in the fields of two numbers. What was found are the fields of these bytes.
#[tactic(auto, using(crate::proofs::Rowed::none_counted))]
pub(crate) fn build_rows<A: Row + Drop, B: Row + Drop>(
    alloc: Global,
    found: &Found<'_>,
    bytes: &[u8],
    numbers: (u32, u32),
) -> Result<(Rows<A>, Rows<B>), AllocError>
    requires within { (numbers.0 < NUMBERS) × (numbers.1 < NUMBERS) }
    requires whole { found.now ≡ fields_of bytes.now }
    ensures first { IfOk result
        (λ r. r.0 ≡ map A.value (messages_in numbers.0 (fields_of bytes.now))) }
    ensures second { IfOk result
        (λ r. r.1 ≡ map B.value (messages_in numbers.1 (fields_of bytes.now))) }
{
    let counts = (found.count(numbers.0), found.count(numbers.1));
    if counts.0 == 0 && counts.1 == 0 {
        return Ok((Rows::new(Vec::new(alloc)), Rows::new(Vec::new(alloc))));
    }
    build_each(alloc, bytes, counts, numbers)
}
