//! Rows of the table that instructions spell (DWARF 4, section 6.4.1).

ghost use Rattle.std.specs.Prelude.{◌≡◌};
ghost use Rattle.plcr_dwarf_cfi.specs.Rows.{address_at, factored, saved_at};

use crate::entries::CommonInformation;
use crate::fault::CallFrameFault;
use crate::instructions::{Block, RuleDefinition};
use crate::limits::MOST_RULES;

/// How the canonical frame address is found.
#[derive(Clone, Copy)]
pub enum CfaRule {
    /// The sum of a register and a number.
    RegisterOffset(u64, u64),
    Expression(Block),
}

/// How a register of the caller is found. Offsets are from the canonical frame address, modulo
/// 2^64.
#[derive(Clone, Copy)]
pub enum RegisterRule {
    Undefined,
    SameValue,
    /// Saved at an offset.
    Offset(u64),
    /// The address at an offset.
    ValOffset(u64),
    /// In another register.
    Register(u64),
    /// Saved at an expression's value.
    Expression(Block),
    /// An expression's value.
    ValExpression(Block),
}

/// A row: the rule of the canonical frame address, and those of registers by their DWARF numbers.
#[derive(Clone, Copy)]
pub struct Row {
    pub cfa: Option<CfaRule>,
    pub rules: [Option<RegisterRule>; MOST_RULES],
}

/// The product of a number and a factor, modulo 2^64. Both may be in two's complement.
pub fn factored(n: u64, factor: u64) -> u64
    ensures { result ≡ factored n factor }
{
    n.wrapping_mul(factor)
}

fn saved_at(common: &CommonInformation, offset: u64) -> RegisterRule
    ensures { result ≡ saved_at common.now offset }
{
    RegisterRule::Offset(factored(offset, common.data_alignment_factor))
}

fn address_at(common: &CommonInformation, offset: u64) -> RegisterRule
    ensures { result ≡ address_at common.now offset }
{
    RegisterRule::ValOffset(factored(offset, common.data_alignment_factor))
}

impl Default for Row {
    fn default() -> Row {
        Row::empty()
    }
}

impl Row {
    ghost use Rattle.std.specs.Prelude.{◌≡◌, ◌≤◌};
    ghost use Rattle.plcr_base.specs.Chains.{result_map};
    ghost use Rattle.plcr_dwarf_cfi.specs.Rows.{no_rules, restored, rule_at, ruled, with_rule};
    ghost use Rattle.plcr_dwarf_cfi.specs.declared.limits.TheConstants.{MOST_RULES};

    /// A row without rules.
    #[inline(always)]
    pub fn empty() -> Row
        ensures { result ≡ no_rules }
    {
        let rules = [None; MOST_RULES];
        Row { cfa: None, rules }
    }

    /// Takes all rules away.
    pub fn clear(&mut self)
        ensures { self.new ≡ no_rules }
    {
        self.cfa = None;
        self.rules = [None; MOST_RULES];
    }

    /// The rule of a register number.
    pub fn rule(&self, register: u64) -> Option<RegisterRule>
        ensures { result ≡ rule_at self.now register }
    {
        if register < MOST_RULES as u64 {
            self.rules[register as usize]
        } else {
            None
        }
    }

    // Sets the rule of a register number, of an architecture that has so many.
    fn set_rule(&mut self, count: u64, register: u64, rule: Option<RegisterRule>)
        requires { count ≤ MOST_RULES }
        ensures { self.new ≡ with_rule count register rule self.old }
    {
        if register < count {
            self.rules[register as usize] = rule;
        }
    }

    // Sets the rule of a register number to that of the initial row.
    fn restore(
        &mut self,
        count: u64,
        register: u64,
        initial: &Option<Row>,
    ) -> Result<(), CallFrameFault>
        requires { count ≤ MOST_RULES }
        ensures { result_map (λ _. self.new) result ≡ restored count register initial.now self.old }
    {
        let Some(row) = initial else {
            return Err(CallFrameFault::UnknownInstruction);
        };
        self.set_rule(count, register, row.rule(register));
        Ok(())
    }

    /// Sets a rule of a register as an instruction says.
    pub fn define_rule(
        &mut self,
        common: &CommonInformation,
        count: u64,
        definition: RuleDefinition,
        initial: &Option<Row>,
    ) -> Result<(), CallFrameFault>
        requires { count ≤ MOST_RULES }
        ensures { result_map (λ _. self.new) result ≡ ruled common.now count definition initial.now
            self.old }
    {
        let (register, rule) = match definition {
            RuleDefinition::Undefined(r) => (r, RegisterRule::Undefined),
            RuleDefinition::SameValue(r) => (r, RegisterRule::SameValue),
            RuleDefinition::Offset(r, offset) => (u64::from(r), saved_at(common, offset)),
            RuleDefinition::OffsetExtended(r, offset) => (r, saved_at(common, offset)),
            RuleDefinition::OffsetExtendedSf(r, offset) => (r, saved_at(common, offset)),
            RuleDefinition::ValOffset(r, offset) => (r, address_at(common, offset)),
            RuleDefinition::ValOffsetSf(r, offset) => (r, address_at(common, offset)),
            RuleDefinition::Register(r, other) => (r, RegisterRule::Register(other)),
            RuleDefinition::Expression(r, block) => (r, RegisterRule::Expression(block)),
            RuleDefinition::ValExpression(r, block) => (r, RegisterRule::ValExpression(block)),
            RuleDefinition::Restore(r) => return self.restore(count, u64::from(r), initial),
            RuleDefinition::RestoreExtended(r) => return self.restore(count, r, initial),
        };
        self.set_rule(count, register, Some(rule));
        Ok(())
    }
}
