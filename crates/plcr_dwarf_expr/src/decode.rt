ghost use Rattle.std.specs.Prelude.{◌≡◌, unwrap_or};
ghost use Rattle.plcr_dwarf_expr.specs.Decoding.{among, operand_rows, operands_of, operation_at, plain_rows, unknown, width_of};

use crate::fault::ExprFault;
use crate::opcodes::*;
use crate::operands::{byte, eight_bytes, four_bytes, signed, two_bytes, unsigned};
use crate::operation::{
    BinaryOperation, Constant, ControlFlow, Decoded, Dereference, Operation, RegisterValue,
    StackOperation, UnaryOperation, Width,
};
use plcr_leb128::Cells;

// How many bytes DW_OP_deref_size reads.
fn width_of(size: u8) -> Option<Width>
    ensures { result ≡ width_of size }
{
    match size {
        1 => Some(Width::One),
        2 => Some(Width::Two),
        4 => Some(Width::Four),
        8 => Some(Width::Eight),
        _ => None,
    }
}

// An operation without operands.
fn plain(opcode: u8) -> Option<Operation>
    ensures { result ≡ among opcode plain_rows }
{
    match opcode {
        DW_OP_deref => Some(Operation::Memory(Dereference::Deref)),
        DW_OP_dup => Some(Operation::Stack(StackOperation::Dup)),
        DW_OP_drop => Some(Operation::Stack(StackOperation::Drop)),
        DW_OP_over => Some(Operation::Stack(StackOperation::Over)),
        DW_OP_swap => Some(Operation::Stack(StackOperation::Swap)),
        DW_OP_rot => Some(Operation::Stack(StackOperation::Rot)),
        DW_OP_abs => Some(Operation::Unary(UnaryOperation::Abs)),
        DW_OP_and => Some(Operation::Binary(BinaryOperation::And)),
        DW_OP_div => Some(Operation::Binary(BinaryOperation::Div)),
        DW_OP_minus => Some(Operation::Binary(BinaryOperation::Minus)),
        DW_OP_mod => Some(Operation::Binary(BinaryOperation::Mod)),
        DW_OP_mul => Some(Operation::Binary(BinaryOperation::Mul)),
        DW_OP_neg => Some(Operation::Unary(UnaryOperation::Neg)),
        DW_OP_not => Some(Operation::Unary(UnaryOperation::Not)),
        DW_OP_or => Some(Operation::Binary(BinaryOperation::Or)),
        DW_OP_plus => Some(Operation::Binary(BinaryOperation::Plus)),
        DW_OP_shl => Some(Operation::Binary(BinaryOperation::Shl)),
        DW_OP_shr => Some(Operation::Binary(BinaryOperation::Shr)),
        DW_OP_shra => Some(Operation::Binary(BinaryOperation::Shra)),
        DW_OP_xor => Some(Operation::Binary(BinaryOperation::Xor)),
        DW_OP_eq => Some(Operation::Binary(BinaryOperation::Eq)),
        DW_OP_ge => Some(Operation::Binary(BinaryOperation::Ge)),
        DW_OP_gt => Some(Operation::Binary(BinaryOperation::Gt)),
        DW_OP_le => Some(Operation::Binary(BinaryOperation::Le)),
        DW_OP_lt => Some(Operation::Binary(BinaryOperation::Lt)),
        DW_OP_ne => Some(Operation::Binary(BinaryOperation::Ne)),
        DW_OP_nop => Some(Operation::Control(ControlFlow::Nop)),
        _ => None,
    }
}

impl Operation {
    // The operation with the place behind its operands.
    fn until(self, next: u64) -> Decoded
        ensures operation { result.operation ≡ self }
        ensures next { result.next ≡ next }
    {
        Decoded {
            operation: self,
            next,
        }
    }
}

// A constant.
fn constant<C: Cells>(code: &C, opcode: u8, at: u64) -> Result<Decoded, ExprFault>
    ensures { result ≡ operands_of opcode (C.cells code.now) at }
{
    let (constant, next) = match opcode {
        DW_OP_addr => (Constant::Addr(eight_bytes(code, at)?), at + 8),
        DW_OP_const1u => (Constant::Const1u(byte(code, at)?), at + 1),
        DW_OP_const1s => (Constant::Const1s(byte(code, at)?.cast_signed()), at + 1),
        DW_OP_const2u => (Constant::Const2u(two_bytes(code, at)?), at + 2),
        DW_OP_const2s => (
            Constant::Const2s(two_bytes(code, at)?.cast_signed()),
            at + 2,
        ),
        DW_OP_const4u => (Constant::Const4u(four_bytes(code, at)?), at + 4),
        DW_OP_const4s => (
            Constant::Const4s(four_bytes(code, at)?.cast_signed()),
            at + 4,
        ),
        DW_OP_const8u => (Constant::Const8u(eight_bytes(code, at)?), at + 8),
        DW_OP_const8s => (
            Constant::Const8s(eight_bytes(code, at)?.cast_signed()),
            at + 8,
        ),
        DW_OP_constu => {
            let number = unsigned(code, at)?;
            (Constant::Constu(number.value), number.next)
        }
        DW_OP_consts => {
            let number = signed(code, at)?;
            (Constant::Consts(number.value), number.next)
        }
        _ => return with_operands(code, opcode, at),
    };
    Ok(Operation::Literal(constant).until(next))
}

// Another operation with operands.
fn with_operands<C: Cells>(code: &C, opcode: u8, at: u64) -> Result<Decoded, ExprFault>
    ensures { result ≡ unwrap_or (among opcode operand_rows) (unknown opcode) (C.cells code.now)
        at }
{
    match opcode {
        DW_OP_pick => {
            let depth = byte(code, at)?;
            Ok(Operation::Stack(StackOperation::Pick(depth)).until(at + 1))
        }
        DW_OP_plus_uconst => {
            let addend = unsigned(code, at)?;
            Ok(Operation::Unary(UnaryOperation::PlusUconst(addend.value)).until(addend.next))
        }
        DW_OP_bra => {
            let by = two_bytes(code, at)?.cast_signed();
            Ok(Operation::Control(ControlFlow::Bra(by)).until(at + 2))
        }
        DW_OP_skip => {
            let by = two_bytes(code, at)?.cast_signed();
            Ok(Operation::Control(ControlFlow::Skip(by)).until(at + 2))
        }
        DW_OP_regx => {
            let number = unsigned(code, at)?;
            Ok(Operation::Register(RegisterValue::Regx(number.value)).until(number.next))
        }
        DW_OP_bregx => {
            let number = unsigned(code, at)?;
            let offset = signed(code, number.next)?;
            let value = RegisterValue::Bregx(number.value, offset.value);
            Ok(Operation::Register(value).until(offset.next))
        }
        DW_OP_deref_size => {
            let width = width_of(byte(code, at)?).ok_or(ExprFault::Unknown { op: opcode })?;
            Ok(Operation::Memory(Dereference::DerefSize(width)).until(at + 1))
        }
        _ => Err(ExprFault::Unknown { op: opcode }),
    }
}

/// The operation at a place, and the place behind it.
#[tactic(auto, unfolding(crate::specs::Decoding::reading_of))]
pub fn decode<C: Cells>(code: &C, place: u64) -> Result<Decoded, ExprFault>
    ensures { result ≡ operation_at (C.cells code.now) place }
{
    let opcode = byte(code, place)?;
    let at = place + 1;
    match opcode {
        DW_OP_lit0..=DW_OP_lit31 => {
            Ok(Operation::Literal(Constant::Lit(opcode - DW_OP_lit0)).until(at))
        }
        DW_OP_reg0..=DW_OP_reg31 => {
            Ok(Operation::Register(RegisterValue::Reg(opcode - DW_OP_reg0)).until(at))
        }
        DW_OP_breg0..=DW_OP_breg31 => {
            let offset = signed(code, at)?;
            let value = RegisterValue::Breg(opcode - DW_OP_breg0, offset.value);
            Ok(Operation::Register(value).until(offset.next))
        }
        _ => {
            let Some(operation) = plain(opcode) else {
                return constant(code, opcode, at);
            };
            Ok(operation.until(at))
        }
    }
}
