//! How a command ends.
ghost use Rattle.std.specs.Prelude.{◌≡◌};
ghost use Rattle.plcr_command.specs.Endings.{status_of};

use crate::refusals::Refusal;

/// How a command ends.
#[derive(Clone, Copy, Debug)]
pub enum Ending<'a> {
    /// The whole command was done.
    Done,
    /// The words fit no command form.
    Misused,
    /// It was refused before its run.
    Refused { refusal: Refusal<'a> },
    /// It stopped at a file that wasn't kept or at a line that wasn't printed.
    Stopped,
}

/// The status with which the program ends.
pub fn status(ending: Ending<'_>) -> u8
    ensures { result ≡ status_of ending.entry }
{
    match ending {
        Ending::Done => 0,
        Ending::Misused => 1,
        Ending::Refused { refusal } => refusal_status(refusal),
        Ending::Stopped => 5,
    }
}

/// The status of a refusal.
fn refusal_status(refusal: Refusal<'_>) -> u8
    ensures { result ≡ status_of (Ending.Refused refusal.entry) }
{
    match refusal {
        Refusal::CannotRead { .. } | Refusal::TooLong { .. } => 2,
        Refusal::CoreRefused { .. } => 3,
        Refusal::ScriptRefused { .. } => 4,
        Refusal::ReportRefused { .. } => 6,
        Refusal::OutOfMemory => 7,
    }
}
