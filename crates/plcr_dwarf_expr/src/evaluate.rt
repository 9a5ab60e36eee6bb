ghost use Rattle.std.specs.Prelude.{◌≡◌};
ghost use Rattle.plcr_base.specs.Chains.{result_map};
ghost use Rattle.plcr_dwarf_expr.specs.Effects.{moment};
ghost use Rattle.plcr_dwarf_expr.specs.Runs.{setting_at, step_from, value_of};
ghost use Rattle.plcr_dwarf_expr.specs.inner.Settings.{setting};

use crate::apply::{Surroundings, apply};
use crate::decode::decode;
use crate::fault::ExprFault;
use crate::limits::MOST_OPERATIONS;
use crate::stack::Stack;
use plcr_leb128::{Cells, Piece, Stored};
use plcr_memory::Memory;
use plcr_regs::Registers;

// Carries out the operation at a place. The answer is the place of the next one.
fn step<C: Cells>(
    code: &C,
    around: &Surroundings<'_>,
    stack: &mut Stack,
    place: u64,
) -> Result<u64, ExprFault>
    ensures { result_map (λ place. moment place stack.new) result
        ≡ step_from (setting (C.cells code.now) around.now) (moment place stack.old) }
{
    let decoded = decode(code, place)?;
    apply(around, stack, decoded)
}

// The value of the code from its start.
#[tactic(auto, using(crate::proofs::Running::run_start, crate::proofs::Running::run_ends, crate::proofs::Running::run_goes, crate::proofs::Running::run_fails, crate::proofs::Running::run_out))]
fn run<C: Cells>(code: &C, around: &Surroundings<'_>, start: Option<u64>) -> Result<u64, ExprFault>
    ensures { result ≡ value_of (setting (C.cells code.now) around.now) start }
{
    let mut stack = Stack::of(start);
    let mut place = 0;
    for _done in 0..MOST_OPERATIONS {
        if place == around.size {
            return stack.top();
        }
        match step(code, around, &mut stack, place) {
            Ok(next) => place = next,
            Err(fault) => return Err(fault),
        }
    }
    if place == around.size {
        stack.top()
    } else {
        Err(ExprFault::Budget)
    }
}

/// The value of the expression whose code is the `code_len` bytes at `code_at`, with `start` on the
/// stack where it is given (DWARF 4, section 2.5): the top of the stack at the end of the code, or
/// the fault of the operation at which the run stops. It carries out at most 1,000 operations with
/// at most 64 values. Registers go by their DWARF numbers.
#[tactic(auto, using(crate::proofs::Running::stored_value))]
pub fn eval(
    memory: &Memory,
    registers: &Registers,
    code_at: u64,
    code_len: u64,
    start: Option<u64>,
) -> Result<u64, ExprFault>
    ensures { result ≡ value_of (setting_at memory.now registers.now code_at code_len) start }
{
    let around = Surroundings {
        memory,
        registers,
        size: code_len,
    };
    match memory.stored(code_at, code_len) {
        Some(bytes) => run(&Stored(bytes), &around, start),
        None => run(&Piece::new(memory, code_at, code_len), &around, start),
    }
}
