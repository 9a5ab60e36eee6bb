//! The descriptive values of reports, which a script may set.
ghost use Rattle.std.specs.Prelude.{◌≡◌, ◌<◌, IfOk, OnOk};

use crate::keys::{NumberKey, TextKey};
use crate::statements::{Text, text_of};
use std::alloc::{AllocError, Global};

/// What reports say of the system and the process beside what the core holds.
#[derive(Drop)]
pub struct DescriptiveValues {
    pub os: u32,
    pub os_version: Text,
    pub timestamp: u64,
    pub identifier: Text,
    pub version: Text,
    pub signal: Text,
    pub code: Text,
    pub address: u64,
    pub process: Text,
    pub pid: u32,
    pub ppid: u32,
    pub crashed: u32,
    pub user: bool,
    pub bits: u8,
}

impl DescriptiveValues {
    ghost use Rattle.plcr_script.specs.Keys.{with_number, with_text};
    ghost use Rattle.plcr_script.specs.Values.{default_values};
    ghost use Rattle.plcr_script.specs.inner.Keys.{IsAllowed};

    /// The values of a script that sets none.
    pub fn defaults(alloc: Global) -> Result<DescriptiveValues, AllocError>
        ensures { IfOk result (λ values. values ≡ default_values) }
    {
        Ok(DescriptiveValues {
            os: 0,
            os_version: text_of(alloc, b"0")?,
            timestamp: 0,
            identifier: text_of(alloc, b"app")?,
            version: text_of(alloc, b"1")?,
            signal: text_of(alloc, b"SIGABRT")?,
            code: text_of(alloc, b"#0")?,
            address: 0,
            process: text_of(alloc, b"app")?,
            pid: 0,
            ppid: 0,
            crashed: 0,
            user: false,
            bits: 64,
        })
    }

    /// Sets the number of a key.
    pub(crate) fn set_number(&mut self, key: NumberKey, number: u64)
        requires { IsAllowed key number }
        ensures { self.new ≡ with_number key number self.old }
    {
        match key {
            NumberKey::Os => self.os = number as u32,
            NumberKey::Timestamp => self.timestamp = number,
            NumberKey::Address => self.address = number,
            NumberKey::Pid => self.pid = number as u32,
            NumberKey::Ppid => self.ppid = number as u32,
            NumberKey::Crashed => self.crashed = number as u32,
            NumberKey::User => self.user = number == 1,
            NumberKey::Bits => self.bits = number as u8,
        }
    }

    /// Sets the text of a key.
    pub(crate) fn set_text(
        &mut self,
        alloc: Global,
        key: TextKey,
        text: &[u8],
    ) -> Result<(), AllocError>
        ensures { OnOk result (self.new ≡ with_text key text.now self.old) }
    {
        let text = text_of(alloc, text)?;
        match key {
            TextKey::OsVersion => self.os_version = text,
            TextKey::Identifier => self.identifier = text,
            TextKey::Version => self.version = text,
            TextKey::Signal => self.signal = text,
            TextKey::Code => self.code = text,
            TextKey::Process => self.process = text,
        }
        Ok(())
    }
}
