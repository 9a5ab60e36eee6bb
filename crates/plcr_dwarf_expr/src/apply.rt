//! What operations make of the stack.
ghost use Rattle.std.specs.Prelude.{◌≡◌};
ghost use Rattle.plcr_base.specs.Chains.{result_map};
ghost use Rattle.plcr_dwarf_expr.specs.Effects.{applied, changed_top, combined_top, dereferenced, jumped, moment, moved, register_sum, register_value, shuffled, with_register, word_at};

use crate::binary::combined;
use crate::constant::value_of;
use crate::fault::ExprFault;
use crate::operation::{
    BinaryOperation, ControlFlow, Decoded, Dereference, Operation, RegisterValue, StackOperation,
    UnaryOperation, Width,
};
use crate::stack::Stack;
use crate::unary::changed;
use plcr_memory::Memory;
use plcr_regs::Registers;

/// What an expression is evaluated over, beside its code: the memory, the registers, and how many
/// bytes the code has.
#[derive(Clone, Copy)]
pub struct Surroundings<'a> {
    pub memory: &'a Memory,
    pub registers: &'a Registers,
    pub size: u64,
}

fn shuffle(stack: &mut Stack, operation: StackOperation) -> Result<(), ExprFault>
    ensures { result_map (λ _. stack.new) result ≡ shuffled operation stack.old }
{
    match operation {
        StackOperation::Dup => stack.copy(0),
        StackOperation::Over => stack.copy(1),
        StackOperation::Pick(depth) => stack.copy(u64::from(depth)),
        StackOperation::Drop => {
            stack.pop()?;
            Ok(())
        }
        StackOperation::Swap => {
            let top = stack.pop()?;
            let next = stack.pop()?;
            stack.push(top);
            stack.push(next);
            Ok(())
        }
        StackOperation::Rot => {
            let first = stack.pop()?;
            let second = stack.pop()?;
            let third = stack.pop()?;
            stack.push(first);
            stack.push(third);
            stack.push(second);
            Ok(())
        }
    }
}

fn register_sum(registers: &Registers, number: u64, offset: u64) -> Result<u64, ExprFault>
    ensures { result ≡ register_sum registers.now number offset }
{
    let value = registers.dwarf(number).ok_or(ExprFault::NoRegister)?;
    Ok(value.wrapping_add(offset))
}

fn register_value(registers: &Registers, value: RegisterValue) -> Result<u64, ExprFault>
    ensures { result ≡ register_value registers.now value }
{
    match value {
        RegisterValue::Reg(number) => register_sum(registers, u64::from(number), 0),
        RegisterValue::Breg(number, offset) => {
            register_sum(registers, u64::from(number), offset)
        }
        RegisterValue::Regx(number) => register_sum(registers, number, 0),
        RegisterValue::Bregx(number, offset) => register_sum(registers, number, offset),
    }
}

fn push_register(
    stack: &mut Stack,
    registers: &Registers,
    value: RegisterValue,
) -> Result<(), ExprFault>
    ensures { result_map (λ _. stack.new) result ≡ with_register registers.now value stack.old }
{
    if stack.is_full() {
        return Err(ExprFault::Overflow);
    }
    let word = register_value(registers, value)?;
    stack.push(word);
    Ok(())
}

fn word_at(memory: &Memory, width: Dereference, at: u64) -> Option<u64>
    ensures { result ≡ word_at memory.now width at }
{
    match width {
        Dereference::Deref | Dereference::DerefSize(Width::Eight) => memory.read_u64(at),
        Dereference::DerefSize(Width::One) => memory.read_u8(at).map(u64::from),
        Dereference::DerefSize(Width::Two) => memory.read_u16(at).map(u64::from),
        Dereference::DerefSize(Width::Four) => memory.read_u32(at).map(u64::from),
    }
}

fn dereference(stack: &mut Stack, memory: &Memory, width: Dereference) -> Result<(), ExprFault>
    ensures { result_map (λ _. stack.new) result ≡ dereferenced memory.now width stack.old }
{
    let at = stack.pop()?;
    let Some(value) = word_at(memory, width, at) else {
        return Err(ExprFault::Unmapped { at });
    };
    stack.push(value);
    Ok(())
}

fn change_top(stack: &mut Stack, operation: UnaryOperation) -> Result<(), ExprFault>
    ensures { result_map (λ _. stack.new) result ≡ changed_top operation stack.old }
{
    let value = stack.pop()?;
    stack.push(changed(operation, value));
    Ok(())
}

fn combine_top(stack: &mut Stack, operation: BinaryOperation) -> Result<(), ExprFault>
    ensures { result_map (λ _. stack.new) result ≡ combined_top operation stack.old }
{
    let right = stack.pop()?;
    let left = stack.pop()?;
    let value = combined(operation, left, right)?;
    stack.push(value);
    Ok(())
}

// The place so far from another, within the code or at its end.
fn jump(size: u64, place: u64, by: i16) -> Result<u64, ExprFault>
    ensures { result ≡ jumped size place by }
{
    let target = i128::from(place) + i128::from(by);
    if target < 0 || target > i128::from(size) {
        return Err(ExprFault::BadJump);
    }
    Ok(target as u64)
}

// The place of the next operation.
fn go_on(stack: &mut Stack, size: u64, next: u64, flow: ControlFlow) -> Result<u64, ExprFault>
    ensures { result_map (λ place. moment place stack.new) result ≡ moved size next flow stack.old }
{
    match flow {
        ControlFlow::Skip(by) => jump(size, next, by),
        ControlFlow::Bra(by) => {
            if stack.pop()? == 0 {
                Ok(next)
            } else {
                jump(size, next, by)
            }
        }
        ControlFlow::Nop => Ok(next),
    }
}

/// Carries out an operation on the stack. The answer is the place of the next one.
pub fn apply(
    around: &Surroundings<'_>,
    stack: &mut Stack,
    decoded: Decoded,
) -> Result<u64, ExprFault>
    ensures { result_map (λ place. moment place stack.new) result
        ≡ applied around.now.memory.now around.now.registers.now around.now.size decoded.next
        decoded.operation stack.old }
{
    match decoded.operation {
        Operation::Literal(constant) => stack.try_push(value_of(constant))?,
        Operation::Register(value) => push_register(stack, around.registers, value)?,
        Operation::Stack(operation) => shuffle(stack, operation)?,
        Operation::Memory(width) => dereference(stack, around.memory, width)?,
        Operation::Unary(operation) => change_top(stack, operation)?,
        Operation::Binary(operation) => combine_top(stack, operation)?,
        Operation::Control(flow) => return go_on(stack, around.size, decoded.next, flow),
    }
    Ok(decoded.next)
}
