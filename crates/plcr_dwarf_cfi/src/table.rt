//! The table of rows, as far as instructions have come (DWARF 4, sections 6.4.1 and 6.4.2).
ghost use Rattle.std.specs.Prelude.{◌≡◌, ◌≤◌};
ghost use Rattle.plcr_base.specs.Chains.{result_map};
ghost use Rattle.plcr_dwarf_cfi.specs.declared.limits.TheConstants.{MOST_RULES};

use crate::cfa::{created, defined};
use crate::entries::CommonInformation;
use crate::fault::CallFrameFault;
use crate::instructions::{CfaDefinition, Instruction, RowCreation, RowState, RuleDefinition};
use crate::limits::MOST_REMEMBERED;
use crate::row::Row;
use arrayvec::ArrayVec;
use std::marker::Model;

/// The row that holds from a location on, the initial row where there is one yet, and the rows that
/// are remembered.
#[derive(Drop)]
pub struct RowTable {
    row: Row,
    initial: Option<Row>,
    remembered: ArrayVec<Row, MOST_REMEMBERED>,
    location: u64,
}

impl Model for RowTable {
    ghost use Rattle.std.specs.Prelude.{◌≤◌, length, reverse};
    ghost use Rattle.plcr_dwarf_cfi.specs.Rows.{Table};
    ghost use Rattle.plcr_dwarf_cfi.specs.declared.limits.TheConstants.{MOST_REMEMBERED};

    ghost Value = { Table };

    ghost view = { λ t. record {
      row = t.row;
      initial = t.initial;
      remembered =
          reverse t.remembered.items;
      location = t.location;
    } };

    ghost invariant = { λ t. length t.remembered.items ≤ MOST_REMEMBERED };
}

impl RowTable {
    ghost use Rattle.plcr_dwarf_cfi.specs.Rows.{applied, at_first, begun, created, is_past, moved, remembered, taken_back, with_definition, with_ruling};

    /// Room for a table.
    #[inline(always)]
    pub fn new() -> RowTable
        ensures { result ≡ at_first 0 }
    {
        RowTable {
            row: Row::empty(),
            initial: None,
            remembered: ArrayVec::new(),
            location: 0,
        }
    }

    /// Makes it the table at a location, without rules.
    pub fn reset(&mut self, location: u64)
        ensures { self.new ≡ at_first location }
    {
        self.row.clear();
        self.initial = None;
        self.remembered.clear();
        self.location = location;
    }

    /// Takes the row as the initial one.
    pub fn begin(&mut self)
        ensures { self.new ≡ begun self.old }
    {
        self.initial = Some(self.row);
    }

    /// The row.
    pub fn row(&self) -> &Row
        ensures { result.now ≡ self.now.row }
    {
        &self.row
    }

    /// Whether the row holds from a location above the address on.
    pub fn is_past(&self, address: Option<u64>) -> bool
        ensures { result ≡ is_past address self.now }
    {
        match address {
            Some(address) => address < self.location,
            None => false,
        }
    }

    // Moves the location, but not before there is an initial row.
    fn create(&mut self, common: &CommonInformation, creation: RowCreation)
        ensures { self.new ≡ moved (created common.now creation self.old.location) self.old.initial
            self.old }
    {
        if self.initial.is_some() {
            self.location = created(common, creation, self.location);
        }
    }

    fn define(
        &mut self,
        common: &CommonInformation,
        definition: CfaDefinition,
    ) -> Result<(), CallFrameFault>
        ensures { result_map (λ _. self.new) result ≡ with_definition common.now definition
            self.old }
    {
        let cfa = defined(common, definition, self.row.cfa)?;
        self.row.cfa = Some(cfa);
        Ok(())
    }

    fn rule(
        &mut self,
        common: &CommonInformation,
        count: u64,
        definition: RuleDefinition,
    ) -> Result<(), CallFrameFault>
        requires { count ≤ MOST_RULES }
        ensures { result_map (λ _. self.new) result ≡ with_ruling common.now count definition
            self.old }
    {
        self.row
            .define_rule(common, count, definition, &self.initial)
    }

    #[tactic(auto, using(crate::proofs::Tables::reverse_more, crate::proofs::Tables::height))]
    fn remember(&mut self) -> Result<(), CallFrameFault>
        ensures { result_map (λ _. self.new) result ≡ remembered self.old }
    {
        if self.remembered.is_full() {
            return Err(CallFrameFault::RememberedRows);
        }
        self.remembered.push(self.row);
        Ok(())
    }

    #[tactic(auto, using(crate::proofs::Tables::reverse_more, crate::proofs::Tables::height))]
    fn take_back(&mut self) -> Result<(), CallFrameFault>
        ensures { result_map (λ _. self.new) result ≡ taken_back self.old.initial self.old.location
            self.old.remembered }
    {
        let Some(row) = self.remembered.pop() else {
            return Err(CallFrameFault::RememberedRows);
        };
        self.row = row;
        Ok(())
    }

    /// Carries out an instruction, of an architecture with so many register numbers.
    pub fn apply(
        &mut self,
        common: &CommonInformation,
        count: u64,
        instruction: Instruction,
    ) -> Result<(), CallFrameFault>
        requires { count ≤ MOST_RULES }
        ensures { result_map (λ _. self.new) result ≡ applied common.now count instruction
            self.old }
    {
        match instruction {
            Instruction::Creation(creation) => {
                self.create(common, creation);
                Ok(())
            }
            Instruction::Cfa(definition) => self.define(common, definition),
            Instruction::Rule(definition) => self.rule(common, count, definition),
            Instruction::State(RowState::RememberState) => self.remember(),
            Instruction::State(RowState::RestoreState) => self.take_back(),
            Instruction::Nop | Instruction::GnuArgsSize(_) => Ok(()),
        }
    }
}
