ghost use Rattle.std.specs.Prelude.{◌≡◌, ◌∷◌, [], ◌<◌, length, nat_le, slice_get, IfOk, IfErr, OnOk};
ghost use Rattle.plcr_base.specs.Chains.{result_map};
ghost use Rattle.plcr_dwarf_expr.specs.declared.fault.ExprFault.TheVariants.{Underflow};

use crate::fault::ExprFault;
use crate::limits::MOST_VALUES;
use arrayvec::ArrayVec;
use std::marker::Model;

/// A stack of words. Contracts see the list of its values, the top first.
#[derive(Drop)]
pub struct Stack {
    values: ArrayVec<u64, MOST_VALUES>,
}

impl Model for Stack {
    ghost use Rattle.std.specs.Prelude.{◌≤◌, List, ℕ, length, reverse};
    ghost use Rattle.plcr_dwarf_expr.specs.declared.limits.TheConstants.{MOST_VALUES};

    ghost Value = { List ℕ };

    ghost view = { λ s. reverse s.values.items };

    ghost invariant = { λ s. length s.values.items ≤ MOST_VALUES };
}

impl Stack {
    ghost use Rattle.plcr_dwarf_expr.specs.Effects.{copied, pushed};
    ghost use Rattle.plcr_dwarf_expr.specs.Runs.{started, top_of};
    ghost use Rattle.plcr_dwarf_expr.specs.declared.limits.TheConstants.{MOST_VALUES};

    /// The stack at the start of a run.
    pub fn of(start: Option<u64>) -> Stack
        ensures { result ≡ started start }
    {
        let mut values = ArrayVec::new();
        if let Some(value) = start {
            values.push(value);
        }
        Stack { values }
    }

    /// Puts a value on the top.
    #[tactic(auto, using(crate::proofs::Stacks::reverse_more, crate::proofs::Stacks::height))]
    pub fn push(&mut self, value: u64)
        requires { length self.old < MOST_VALUES }
        ensures { self.new ≡ value ∷ self.old }
    {
        self.values.push(value);
    }

    /// Whether there is no room for another value.
    #[tactic(auto, using(crate::proofs::Stacks::height))]
    pub fn is_full(&self) -> bool
        ensures full { result ≡ nat_le MOST_VALUES (length self.now) }
    {
        self.values.is_full()
    }

    /// Puts a value on the top, where there is room for it.
    pub fn try_push(&mut self, value: u64) -> Result<(), ExprFault>
        ensures { result_map (λ _. self.new) result ≡ pushed value self.old }
    {
        if self.is_full() {
            return Err(ExprFault::Overflow);
        }
        self.push(value);
        Ok(())
    }

    /// Takes the value from the top.
    #[tactic(auto, using(crate::proofs::Stacks::reverse_more, crate::proofs::Stacks::height))]
    pub fn pop(&mut self) -> Result<u64, ExprFault>
        ensures ok { IfOk result (λ value. self.old ≡ value ∷ self.new) }
        ensures room { OnOk result (length self.new < MOST_VALUES) }
        ensures empty { IfErr result (λ fault. (fault ≡ Underflow) × (self.old ≡ [])) }
    {
        self.values.pop().ok_or(ExprFault::Underflow)
    }

    /// The value that is so far from the top, where there is one.
    #[tactic(auto, using(crate::proofs::Stacks::from_top, crate::proofs::Stacks::past_bottom))]
    pub fn get(&self, depth: u64) -> Option<u64>
        ensures { result ≡ slice_get self.now depth }
    {
        let values = self.values.as_slice();
        if depth < values.len() as u64 {
            Some(values[values.len() - 1 - depth as usize])
        } else {
            None
        }
    }

    /// Puts a copy of the value that is so far from the top on the top.
    pub fn copy(&mut self, depth: u64) -> Result<(), ExprFault>
        ensures { result_map (λ _. self.new) result ≡ copied depth self.old }
    {
        let Some(value) = self.get(depth) else {
            return Err(ExprFault::Underflow);
        };
        self.try_push(value)
    }

    /// The value at the top.
    pub fn top(&self) -> Result<u64, ExprFault>
        ensures { result ≡ top_of self.now }
    {
        match self.get(0) {
            Some(value) => Ok(value),
            None => Err(ExprFault::Underflow),
        }
    }
}
