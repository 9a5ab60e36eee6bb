//! Answers to expressions.
ghost use Rattle.std.specs.Prelude.{◌≡◌, IfOk};
ghost use Rattle.plcr_expressions.specs.Alone.{alone, filled_by, region};

use crate::line::{Expression, expression_of};
use plcr_dwarf_expr::{ExprFault, eval};
use plcr_memory::{Memory, MemoryFault, Region};
use std::alloc::{AllocError, Global};
use std::fmt;

/// What is told of a line.
#[derive(Clone, Copy, Debug, PartialEq, Eq)]
pub enum Answer {
    Value(u64),
    Fault(ExprFault),
    /// The line tells no expression.
    NoExpression,
}

impl fmt::Display for Answer {
    fn fmt<W: fmt::Write>(&self, f: &mut fmt::Formatter<W>) -> fmt::Result {
        match *self {
            Answer::Value(value) => write!(f, "{value}"),
            Answer::Fault(fault) => match fault {
                ExprFault::Truncated => write!(f, "Truncated"),
                ExprFault::Unknown { op } => write!(f, "Unknown {op}"),
                ExprFault::Underflow => write!(f, "Underflow"),
                ExprFault::Overflow => write!(f, "Overflow"),
                ExprFault::Unmapped { at } => write!(f, "Unmapped {at}"),
                ExprFault::NoRegister => write!(f, "NoRegister"),
                ExprFault::DivideByZero => write!(f, "DivideByZero"),
                ExprFault::Budget => write!(f, "Budget"),
                ExprFault::BadJump => write!(f, "BadJump"),
            },
            Answer::NoExpression => write!(f, "no expression"),
        }
    }
}

// The region that so many bytes of the code fill.
fn region(start: u64, from: usize, len: usize) -> Region
    ensures { result ≡ region start from len }
{
    Region {
        start,
        size: len as u64,
        from,
        len,
    }
}

// The regions that the code fills: two where it goes on at address 0 behind the last one.
fn regions_of(alloc: Global, at: u64, len: usize) -> Result<Vec<Region>, AllocError>
    ensures { IfOk result (λ regions. regions.items ≡ filled_by at len) }
{
    let mut regions = Vec::new(alloc);
    if len == 0 {
        return Ok(regions);
    }
    let last = u64::MAX - at;
    if (len - 1) as u64 <= last {
        regions.push(region(at, 0, len))?;
        return Ok(regions);
    }
    let front = last as usize + 1;
    regions.push(region(at, 0, front))?;
    regions.push(region(0, front, len - front))?;
    Ok(regions)
}

// The value of an expression over memory that has nothing but its code.
fn evaluate(alloc: Global, expression: Expression) -> Result<Result<u64, ExprFault>, MemoryFault>
    ensures { IfOk result (λ answer. answer ≡ alone expression) }
{
    let Expression {
        at,
        code,
        start,
        registers,
    } = expression;
    let size = code.len() as u64;
    let Ok(regions) = regions_of(alloc, at, code.len()) else {
        return Err(MemoryFault::Memory);
    };
    let memory = Memory::new(alloc, code, regions)?;
    Ok(eval(&memory, &registers, at, size, start))
}

/// The answer to a line.
pub fn answer_to(alloc: Global, line: &str) -> Result<Answer, AllocError> {
    let Some(expression) = expression_of(alloc, line) else {
        return Ok(Answer::NoExpression);
    };
    match evaluate(alloc, expression) {
        Ok(Ok(value)) => Ok(Answer::Value(value)),
        Ok(Err(fault)) => Ok(Answer::Fault(fault)),
        Err(MemoryFault::Memory) => Err(AllocError),
        Err(_) => Ok(Answer::NoExpression),
    }
}
