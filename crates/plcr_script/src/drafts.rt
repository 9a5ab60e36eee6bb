//! A script as far as it is read.
ghost use Rattle.std.specs.Prelude.{◌≡◌, IfOk, OnOk};

use crate::limits::{DEFAULT_NODES, DEFAULT_PASSES};
use crate::modes::Mode;
use crate::scripts::Script;
use crate::statements::{NumberedStatement, Statement};
use crate::values::DescriptiveValues;
use crate::wording::Wording;
use std::alloc::{AllocError, Global};
use std::marker::Model;

/// A script as far as it is read: what it is read for, the scripts before it, and whether a line
/// has said anything.
#[derive(Drop)]
pub(crate) struct Draft<'a> {
    mode: Mode,
    before: &'a [Script],
    statements: Vec<NumberedStatement>,
    nodes: u32,
    passes: u32,
    values: DescriptiveValues,
    begun: bool,
}

impl<'a> Model for Draft<'a> {
    ghost use Rattle.plcr_script.specs.Scripts.{script_value};
    ghost use Rattle.plcr_script.specs.Reading.{DraftValue, draft_value};

    ghost Value = { DraftValue };

    ghost view = { λ d. draft_value d.mode d.before.now
        (script_value d.statements.items d.nodes d.passes d.values) d.begun };
}

impl<'a> Draft<'a> {
    ghost use Rattle.std.specs.Prelude.{nat_lt, length, ◌||◌};
    ghost use Rattle.plcr_script.specs.Reading as reading;
    ghost use Rattle.plcr_script.specs.Reading.{no_lines, with_said, passes_of, is_later};
    ghost use Rattle.plcr_script.specs.Sayings.{States};
    ghost use Rattle.plcr_script.specs.Lawful.{IsLawful};
    ghost use Rattle.plcr_script.specs.inner.Fits.{IsFit};
    ghost use Rattle.plcr_script.specs.inner.Wording.{said};

    /// The script of no lines.
    pub(crate) fn new(
        alloc: Global,
        mode: Mode,
        before: &'a [Script],
    ) -> Result<Draft<'a>, AllocError>
        ensures { IfOk result (λ draft. draft ≡ no_lines mode before.now) }
    {
        Ok(Draft {
            mode,
            before,
            statements: Vec::new(alloc),
            nodes: DEFAULT_NODES,
            passes: DEFAULT_PASSES,
            values: DescriptiveValues::defaults(alloc)?,
            begun: false,
        })
    }

    /// The number of passes that statements may name.
    pub(crate) fn passes(&self) -> u32
        ensures { result ≡ passes_of self.now.mode self.now.script.passes }
    {
        match self.mode {
            Mode::Single => self.passes,
            Mode::Worker { first: _ } => 1,
        }
    }

    /// Whether sizes may be named no more.
    pub(crate) fn is_sized(&self) -> bool
        ensures { result ≡ (self.now.begun || is_later self.now.mode) }
    {
        self.begun || self.mode.is_later()
    }

    /// Whether descriptive values may be set no more.
    pub(crate) fn is_set(&self) -> bool
        ensures { result ≡ (nat_lt 0 (length self.now.script.statements)
            || is_later self.now.mode) }
    {
        !self.statements.is_empty() || self.mode.is_later()
    }

    /// Whether the script is a worker's.
    pub(crate) fn is_worker(&self) -> bool
        ensures { result ≡ reading.is_worker self.now.mode }
    {
        self.mode.is_worker()
    }

    /// Adds what a line says. At `Err` the draft is of no use.
    pub(crate) fn add(
        &mut self,
        alloc: Global,
        line: u32,
        wording: Wording<'_>,
    ) -> Result<(), AllocError>
        requires { IsFit (passes_of self.old.mode self.old.script.passes) (said wording) }
        ensures { OnOk result (self.new ≡ with_said self.old line (said wording.entry)) }
    {
        match wording {
            Wording::Sizes { nodes, passes } => {
                self.nodes = nodes;
                self.passes = passes;
            }
            Wording::Number { key, number } => self.values.set_number(key, number),
            Wording::Words { key, text } => self.values.set_text(alloc, key, text)?,
            Wording::States(stating) => self.state(line, stating.own(alloc)?)?,
        }
        self.begun = true;
        Ok(())
    }

    /// Adds a statement of the run.
    fn state(&mut self, line: u32, statement: Statement) -> Result<(), AllocError>
        ensures { OnOk result (self.new ≡ with_said self.old line (States statement)) }
    {
        self.statements.push(NumberedStatement { line, statement })?;
        self.begun = true;
        Ok(())
    }

    /// The script that was read.
    pub(crate) fn finish(self) -> Script
        requires { IsLawful self.script }
        ensures { result ≡ self.entry.script }
    {
        let Draft {
            mode: _,
            before: _,
            statements,
            nodes,
            passes,
            values,
            begun: _,
        } = self;
        Script {
            statements,
            nodes,
            passes,
            values,
        }
    }
}
