//! Words of 64 bits, read as numbers without a sign and in two's complement.
ghost use Rattle.std.specs.Prelude.{◌≡◌};
ghost use Rattle.plcr_dwarf_expr.specs.Words.{quotient, rest, shifted_left, shifted_right, shifted_signed, signed, truth, word};

use crate::fault::ExprFault;

// The bits of a word: a shift by so many or more leaves none of them.
const BITS: u64 = 64;

/// The word in two's complement.
pub fn signed(word: u64) -> i64
    ensures { result ≡ signed word }
{
    word.cast_signed()
}

/// A comparison's answer: 1 or 0.
pub fn truth(holds: bool) -> u64
    ensures { result ≡ truth holds }
{
    u64::from(holds)
}

/// The signed quotient, towards 0. That of -2^63 by -1 is -2^63.
pub fn quotient(left: u64, right: u64) -> Result<u64, ExprFault>
    ensures { result ≡ quotient left right }
{
    if right == 0 {
        return Err(ExprFault::DivideByZero);
    }
    Ok(signed(left).wrapping_div(signed(right)).cast_unsigned())
}

/// The unsigned rest.
pub fn rest(left: u64, right: u64) -> Result<u64, ExprFault>
    ensures { result ≡ rest left right }
{
    if right == 0 {
        return Err(ExprFault::DivideByZero);
    }
    Ok(left % right)
}

/// The word shifted to the left.
pub fn shifted_left(left: u64, right: u64) -> u64
    ensures { result ≡ shifted_left left right }
{
    if right < BITS { left << right } else { 0 }
}

/// The word shifted to the right, with zeros from the left.
pub fn shifted_right(left: u64, right: u64) -> u64
    ensures { result ≡ shifted_right left right }
{
    if right < BITS { left >> right } else { 0 }
}

/// The word shifted to the right, with its sign from the left.
pub fn shifted_signed(left: u64, right: u64) -> u64
    ensures { result ≡ shifted_signed left right }
{
    if right < BITS {
        (signed(left) >> right).cast_unsigned()
    } else if signed(left) < 0 {
        u64::MAX
    } else {
        0
    }
}
