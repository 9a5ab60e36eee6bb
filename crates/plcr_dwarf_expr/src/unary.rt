ghost use Rattle.std.specs.Prelude.{◌≡◌};
ghost use Rattle.plcr_dwarf_expr.specs.Words.{unary_value};

use crate::operation::UnaryOperation;
use crate::words::signed;

/// The value in the place of the top of the stack.
pub fn changed(operation: UnaryOperation, value: u64) -> u64
    ensures { result ≡ unary_value operation value }
{
    match operation {
        UnaryOperation::Abs => signed(value).unsigned_abs(),
        UnaryOperation::Neg => value.wrapping_neg(),
        UnaryOperation::Not => !value,
        UnaryOperation::PlusUconst(addend) => value.wrapping_add(addend),
    }
}
