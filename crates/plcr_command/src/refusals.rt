//! Why a command stops before its run.
ghost use Rattle.std.specs.Prelude.{◌≡◌};

use crate::files::FileWord;
use plcr_core::CoreFault;
use plcr_decode::DecodeFault;
use std::alloc::{AllocError, AllocFailed};

/// What a command is refused for, before it makes an output.
#[derive(Clone, Copy, Debug)]
pub enum Refusal<'a> {
    /// A file couldn't be read.
    CannotRead { word: FileWord<'a> },
    /// A file has more bytes than its limit.
    TooLong { word: FileWord<'a> },
    /// The core has this fault.
    CoreRefused { fault: CoreFault },
    /// The number of the first refused script, from 1, its first refused line, from 1, and the
    /// number of that line's kind.
    ScriptRefused { script: u32, line: u32, kind: u8 },
    /// The report has this fault.
    ReportRefused { fault: DecodeFault },
    /// Memory ran out.
    OutOfMemory,
}

impl From<AllocError> for Refusal<'_> {
    ghost use Rattle.plcr_command.specs.declared.refusals.Refusal.TheVariants.{OutOfMemory};

    ghost from_gives = { λ _ refusal. refusal ≡ OutOfMemory };

    fn from(_: AllocError) -> Self {
        Refusal::OutOfMemory
    }
}

impl<T: Drop> From<AllocFailed<T>> for Refusal<'_> {
    ghost use Rattle.plcr_command.specs.declared.refusals.Refusal.TheVariants.{OutOfMemory};

    ghost from_gives = { λ _ refusal. refusal ≡ OutOfMemory };

    fn from(_: AllocFailed<T>) -> Self {
        Refusal::OutOfMemory
    }
}
