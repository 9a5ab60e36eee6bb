//! A script that was read.
ghost use Rattle.std.specs.Prelude.{◌≡◌, ◌<◌, ◌^◌, length, Some};

use crate::statements::{NumberedStatement, Statement};
use crate::values::DescriptiveValues;
use plcr_encode::Context;
use plcr_regs::Arch;
use std::marker::Model;

/// A script that was read: its statements with the numbers of their lines, the sizes of the image
/// list, and the descriptive values.
#[derive(Drop)]
pub struct Script {
    pub(crate) statements: Vec<NumberedStatement>,
    pub(crate) nodes: u32,
    pub(crate) passes: u32,
    pub(crate) values: DescriptiveValues,
}

impl Model for Script {
    ghost use Rattle.plcr_script.specs.Scripts.{ScriptValue, script_value};
    ghost use Rattle.plcr_script.specs.Lawful.{IsLawful};

    ghost Value = { ScriptValue };

    ghost view = { λ s. script_value s.statements.items s.nodes s.passes s.values };

    ghost invariant = { λ s. IsLawful (script_value s.statements.items s.nodes s.passes s.values) };
}

impl Script {
    ghost use Rattle.plcr_script.specs.Contexts.{SaysSame, context_of};
    ghost use Rattle.plcr_script.specs.Scripts.{statement_at, line_at};
    ghost use Rattle.plcr_script.specs.Lawful.{IsLawful};

    /// The number of nodes of the image list.
    pub fn nodes(&self) -> u32
        ensures nodes { result ≡ self.now.nodes }
        ensures lawful { IsLawful self.now }
    {
        self.nodes
    }

    /// The number of passes.
    pub fn passes(&self) -> u32
        ensures { result ≡ self.now.passes }
    {
        self.passes
    }

    /// The number of statements.
    pub fn len(&self) -> usize
        ensures { result ≡ length self.now.statements }
    {
        self.statements.len()
    }

    /// The number of the line of the i-th statement, from 1.
    pub fn line(&self, i: usize) -> u32
        requires { i < length self.now.statements }
        ensures { Some result ≡ line_at self.now i }
    {
        self.statements[i].line
    }

    /// The i-th statement, from 0.
    pub fn statement(&self, i: usize) -> &Statement
        requires { i < length self.now.statements }
        ensures { Some result.now ≡ statement_at self.now i }
    {
        &self.statements[i].statement
    }

    /// The statements, with the numbers of their lines.
    pub(crate) fn statements(&self) -> &[NumberedStatement]
        ensures { result.now ≡ self.now.statements }
    {
        self.statements.as_slice()
    }

    /// The context of reports of a process of this architecture, with the script's descriptive
    /// values.
    pub fn context<'a>(&'a self, arch: Arch) -> Context<'a>
        ensures same { SaysSame result (context_of self.now arch) }
        ensures fits { (result.address < 2 ^ 64) × (result.pid < 2 ^ 32) × (result.ppid < 2 ^ 32) }
    {
        let values = &self.values;
        let (address, pid, ppid) = (values.address, values.pid, values.ppid);
        Context {
            arch,
            os: values.os,
            os_version: values.os_version.as_slice(),
            timestamp: values.timestamp,
            identifier: values.identifier.as_slice(),
            version: values.version.as_slice(),
            signal: values.signal.as_slice(),
            code: values.code.as_slice(),
            address,
            process: values.process.as_slice(),
            pid,
            ppid,
            crashed: values.crashed,
            user: values.user,
            bits: values.bits,
        }
    }
}
