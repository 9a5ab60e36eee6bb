//! Operands of operations, at places of the code.
ghost use Rattle.std.specs.Prelude.{◌≡◌, ◌+◌, ◌<◌, ◌^◌, OnOk};
ghost use Rattle.plcr_dwarf_expr.specs.Decoding.{byte, fixed, whole};
ghost use Rattle.plcr_leb128.specs.Cells.{bytes_of};
ghost use Rattle.plcr_leb128.specs.Leb128.{signed_at, unsigned_at};

use crate::fault::ExprFault;
use plcr_leb128::{Cells, Number, read_signed, read_unsigned};

/// The byte at a place.
pub fn byte<C: Cells>(code: &C, at: u64) -> Result<u8, ExprFault>
    ensures operand { result ≡ byte (C.cells code.now) at }
    ensures within { OnOk result (at + 1 < 2 ^ 64) }
{
    code.read_u8(at).ok_or(ExprFault::Truncated)
}

/// The number of 2 bytes at a place.
pub fn two_bytes<C: Cells>(code: &C, at: u64) -> Result<u16, ExprFault>
    ensures operand { result ≡ fixed 2 (C.cells code.now) at }
    ensures within { OnOk result (at + 2 < 2 ^ 64) }
{
    code.read_u16(at).ok_or(ExprFault::Truncated)
}

/// The number of 4 bytes at a place.
pub fn four_bytes<C: Cells>(code: &C, at: u64) -> Result<u32, ExprFault>
    ensures operand { result ≡ fixed 4 (C.cells code.now) at }
    ensures within { OnOk result (at + 4 < 2 ^ 64) }
{
    code.read_u32(at).ok_or(ExprFault::Truncated)
}

/// The number of 8 bytes at a place.
pub fn eight_bytes<C: Cells>(code: &C, at: u64) -> Result<u64, ExprFault>
    ensures operand { result ≡ fixed 8 (C.cells code.now) at }
    ensures within { OnOk result (at + 8 < 2 ^ 64) }
{
    code.read_u64(at).ok_or(ExprFault::Truncated)
}

/// The unsigned LEB128 number at a place.
pub fn unsigned<C: Cells>(code: &C, at: u64) -> Result<Number, ExprFault>
    ensures { result ≡ whole (unsigned_at (bytes_of (C.cells code.now)) at) }
{
    match read_unsigned(code, at) {
        Ok(number) => Ok(number),
        Err(_) => Err(ExprFault::Truncated),
    }
}

/// The signed LEB128 number at a place.
pub fn signed<C: Cells>(code: &C, at: u64) -> Result<Number, ExprFault>
    ensures { result ≡ whole (signed_at (bytes_of (C.cells code.now)) at) }
{
    match read_signed(code, at) {
        Ok(number) => Ok(number),
        Err(_) => Err(ExprFault::Truncated),
    }
}
