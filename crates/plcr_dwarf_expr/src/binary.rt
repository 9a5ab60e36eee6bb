ghost use Rattle.std.specs.Prelude.{◌≡◌};
ghost use Rattle.plcr_dwarf_expr.specs.Words.{binary_value};

use crate::fault::ExprFault;
use crate::operation::BinaryOperation;
use crate::words::{quotient, rest, shifted_left, shifted_right, shifted_signed, signed, truth};

/// The value in the place of the two at the top of the stack. The left one was pushed first.
pub fn combined(operation: BinaryOperation, left: u64, right: u64) -> Result<u64, ExprFault>
    ensures { result ≡ binary_value operation left right }
{
    match operation {
        BinaryOperation::And => Ok(left & right),
        BinaryOperation::Div => quotient(left, right),
        BinaryOperation::Minus => Ok(left.wrapping_sub(right)),
        BinaryOperation::Mod => rest(left, right),
        BinaryOperation::Mul => Ok(left.wrapping_mul(right)),
        BinaryOperation::Or => Ok(left | right),
        BinaryOperation::Plus => Ok(left.wrapping_add(right)),
        BinaryOperation::Shl => Ok(shifted_left(left, right)),
        BinaryOperation::Shr => Ok(shifted_right(left, right)),
        BinaryOperation::Shra => Ok(shifted_signed(left, right)),
        BinaryOperation::Xor => Ok(left ^ right),
        BinaryOperation::Eq => Ok(truth(left == right)),
        BinaryOperation::Ge => Ok(truth(signed(left) >= signed(right))),
        BinaryOperation::Gt => Ok(truth(signed(left) > signed(right))),
        BinaryOperation::Le => Ok(truth(signed(left) <= signed(right))),
        BinaryOperation::Lt => Ok(truth(signed(left) < signed(right))),
        BinaryOperation::Ne => Ok(truth(left != right)),
    }
}
