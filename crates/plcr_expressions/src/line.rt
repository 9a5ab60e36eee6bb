//! Lines that tell an expression.

use plcr_regs::{Arch, MOST_REGISTERS, Registers};
use std::alloc::Global;

/// An expression: its code and the address of it, what is on the stack at the start, and the
/// registers.
#[derive(Drop)]
pub struct Expression {
    pub at: u64,
    pub code: Vec<u8>,
    pub start: Option<u64>,
    pub registers: Registers,
}

fn arch_of(word: &str) -> Option<Arch> {
    match word {
        "x86_64" => Some(Arch::X86_64),
        "arm64" => Some(Arch::Arm64),
        _ => None,
    }
}

// The register that a word tells: its place and its value.
fn register_of(word: &str) -> Option<(usize, u64)> {
    let (place, value) = word.split_once('=')?;
    Some((place.parse().ok()?, value.parse().ok()?))
}

/// The expression of a line; None where the line is of another form, or there is no memory for its
/// code.
pub fn expression_of(alloc: Global, line: &str) -> Option<Expression> {
    let mut words = line.split(' ');
    let arch = arch_of(words.next()?)?;
    let at = words.next()?.parse().ok()?;
    let code = match words.next()? {
        "-" => Vec::new(alloc),
        digits => hex::decode(alloc, digits).ok()?,
    };
    let start = match words.next()? {
        "-" => None,
        number => Some(number.parse().ok()?),
    };
    let mut value = [None; MOST_REGISTERS];
    for word in words {
        let (place, number) = register_of(word)?;
        *value.get_mut(place)? = Some(number);
    }
    Some(Expression {
        at,
        code,
        start,
        registers: Registers { arch, value },
    })
}
