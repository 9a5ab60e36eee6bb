ghost use Rattle.std.specs.Prelude.{◌≡◌, ◌<◌, ◌+◌, ◌^◌, IfOk};
ghost use Rattle.plcr_base.specs.Chains.{result_map};
ghost use Rattle.plcr_leb128.specs.Cells.{bytes_of};
ghost use Rattle.plcr_leb128.specs.Leb128.{bytes_within, signed_at, unsigned_at};
ghost use Rattle.plcr_leb128.specs.declared.constants.TheConstants.{MOST_BYTES};
ghost use Rattle.plcr_leb128.specs.inner.Forms.{last_group, number_of, with_group};

use crate::cells::Cells;
use crate::constants::{HIGH_BIT, MOST_BYTES, SIGN_BIT};
use crate::fault::Leb128Fault;

/// A number of 64 bits, and the place behind its bytes.
#[derive(Clone, Copy, Debug, PartialEq, Eq)]
pub struct Number {
    pub value: u64,
    pub next: u64,
}

// How the last group of a number is read.
#[derive(Clone, Copy)]
enum Form {
    Unsigned,
    Signed,
}

// The last group, modulo 2^64.
fn last_group(form: Form, byte: u8) -> u64
    requires { byte < HIGH_BIT }
    ensures { result ≡ last_group form byte }
{
    match form {
        Form::Signed if byte >= SIGN_BIT => u64::from(byte).wrapping_sub(u64::from(HIGH_BIT)),
        _ => u64::from(byte),
    }
}

// A byte that goes on, before what the bytes behind it stand for, modulo 2^64.
fn with_group(byte: u8, high: u64) -> u64
    ensures { result ≡ with_group byte high }
{
    u64::from(byte % HIGH_BIT).wrapping_add(high.wrapping_mul(u64::from(HIGH_BIT)))
}

// The number that ends with the byte at a place.
fn ending(form: Form, byte: u8, place: u64) -> Number
    requires byte { byte < HIGH_BIT }
    requires place { place + 1 < 2 ^ 64 }
    ensures value { result.value ≡ last_group form byte }
    ensures next { result.next ≡ place + 1 }
{
    Number {
        value: last_group(form, byte),
        next: place + 1,
    }
}

// The number at a place, of so many bytes at most.
#[tactic(auto, using(crate::proofs::Forms::ends, crate::proofs::Forms::is_absent, crate::proofs::Forms::is_long, crate::proofs::Forms::goes_on, crate::proofs::Forms::fails_on))]
fn read<C: Cells>(cells: &C, form: Form, left: u32, place: u64) -> Result<Number, Leb128Fault>
    ensures number { result ≡ result_map (number_of form place)
        (bytes_within left (bytes_of (C.cells cells.now)) place) }
    ensures behind { IfOk result (λ number. place < number.next) }
{
    if left == 0 {
        return Err(Leb128Fault::Long);
    }
    let Some(byte) = cells.read_u8(place) else {
        return Err(Leb128Fault::Absent);
    };
    if byte < HIGH_BIT {
        return Ok(ending(form, byte, place));
    }
    let high = read(cells, form, left - 1, place + 1)?;
    Ok(Number {
        value: with_group(byte, high.value),
        next: high.next,
    })
}

// The number at a place, most of which have one byte.
#[tactic(auto, using(crate::proofs::Forms::ends))]
fn read_number<C: Cells>(cells: &C, form: Form, place: u64) -> Result<Number, Leb128Fault>
    ensures number { result ≡ result_map (number_of form place)
        (bytes_within MOST_BYTES (bytes_of (C.cells cells.now)) place) }
    ensures behind { IfOk result (λ number. place < number.next) }
{
    if let Some(byte) = cells.read_u8(place) {
        if byte < HIGH_BIT {
            return Ok(ending(form, byte, place));
        }
    }
    read(cells, form, MOST_BYTES, place)
}

/// The unsigned LEB128 number at a place, modulo 2^64 (DWARF 4, section 7.6).
#[tactic(auto, unfolding(crate::specs::Leb128::leb128_bytes))]
pub fn read_unsigned<C: Cells>(cells: &C, place: u64) -> Result<Number, Leb128Fault>
    ensures number { result ≡ unsigned_at (bytes_of (C.cells cells.now)) place }
    ensures behind { IfOk result (λ number. place < number.next) }
{
    read_number(cells, Form::Unsigned, place)
}

/// The signed LEB128 number at a place, in two's complement modulo 2^64 (DWARF 4, section 7.6).
#[tactic(auto, unfolding(crate::specs::Leb128::leb128_bytes))]
pub fn read_signed<C: Cells>(cells: &C, place: u64) -> Result<Number, Leb128Fault>
    ensures number { result ≡ signed_at (bytes_of (C.cells cells.now)) place }
    ensures behind { IfOk result (λ number. place < number.next) }
{
    read_number(cells, Form::Signed, place)
}
