//! DWARF expressions (DWARF 4, section 2.5), as call frame information has them: the value of an
//! expression over memory and registers, or the fault at which it stops.
#![tactic(auto)]

mod apply;
mod binary;
mod constant;
mod decode;
mod evaluate;
mod fault;
mod laws;
mod limits;
mod opcodes;
mod operands;
mod operation;
mod stack;
mod unary;
mod words;

pub use evaluate::eval;
pub use fault::ExprFault;
pub use laws::runs_have_values;
pub use limits::{MOST_OPERATIONS, MOST_VALUES};
pub use operation::{
    BinaryOperation, Constant, ControlFlow, Decoded, Dereference, Operation, RegisterValue,
    StackOperation, UnaryOperation, Width,
};

#[cfg(test)]
mod tests;
