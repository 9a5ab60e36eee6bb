//! The words of a command that name files which it reads.
ghost use Rattle.std.specs.Prelude.{◌≡◌};
ghost use Rattle.plcr_command.specs.Files as spec;
ghost use Rattle.plcr_command.specs.Files.{named};

use crate::limits::{CORE_LIMIT, REPORT_LIMIT, SCRIPT_LIMIT};

/// A word of a command form that names a file: the name, and the most bytes that the file may have.
#[derive(Clone, Copy, Debug)]
pub struct FileWord<'a> {
    pub name: &'a str,
    pub limit: u64,
}

/// The core of this name.
pub(crate) fn core_file(name: &str) -> FileWord<'_>
    ensures { named result ≡ spec.core_file name.now }
{
    let limit = CORE_LIMIT;
    FileWord { name, limit }
}

/// The script of this name.
pub(crate) fn script_file(name: &str) -> FileWord<'_>
    ensures { named result ≡ spec.script_file name.now }
{
    let limit = SCRIPT_LIMIT;
    FileWord { name, limit }
}

/// The report of this name.
pub fn report_file(name: &str) -> FileWord<'_>
    ensures { named result ≡ spec.report_file name.now }
{
    let limit = REPORT_LIMIT;
    FileWord { name, limit }
}
