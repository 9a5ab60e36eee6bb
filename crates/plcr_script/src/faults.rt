//! Why a script is refused.
ghost use Rattle.std.specs.Prelude.{◌≡◌};
ghost use Rattle.plcr_script.specs.Refusals.{kind_number};
ghost use Rattle.plcr_script.specs.declared.faults.ScriptFault.TheVariants.{Refused};

use std::alloc::{AllocError, AllocFailed};

/// What is wrong with a line of a script, in the order of the numbers that faults print.
#[derive(Clone, Copy, Debug, PartialEq, Eq)]
pub enum Kind {
    /// An unknown first word or key of `set`, or a file name that isn't one.
    BadWord,
    /// A word that isn't a number of its place.
    BadNumber,
    /// Words are missing.
    TooFew,
    /// There are words past the last that counts.
    TooMany,
    /// A pass that the sizes don't have.
    NoSuchPass,
    /// A statement that may not stand here.
    OutOfPlace,
}

impl Kind {
    /// The number that a fault prints.
    pub fn number(self) -> u8
        ensures { result ≡ kind_number self }
    {
        match self {
            Kind::BadWord => 1,
            Kind::BadNumber => 2,
            Kind::TooFew => 3,
            Kind::TooMany => 4,
            Kind::NoSuchPass => 5,
            Kind::OutOfPlace => 6,
        }
    }
}

/// Why a script isn't read.
#[derive(Debug, Drop)]
pub enum ScriptFault {
    /// The first refused line, from 1, and what is wrong with it: 1 for an unknown word or key, or
    /// a bad file name, 2 for a bad number, 3 for too few words, 4 for too many, 5 for a pass that
    /// the sizes don't have, 6 for a statement out of place.
    Refused { line: u32, kind: u8 },
    /// Want of memory.
    Memory,
}

/// The refusal of a line.
pub(crate) fn refused(line: u32, kind: Kind) -> ScriptFault
    ensures { result ≡ Refused line (kind_number kind) }
{
    ScriptFault::Refused {
        line,
        kind: kind.number(),
    }
}

impl From<AllocError> for ScriptFault {
    ghost use Rattle.plcr_script.specs.declared.faults.ScriptFault.TheVariants.{Memory};

    ghost from_gives = { λ _ e. e ≡ Memory };

    fn from(_error: AllocError) -> ScriptFault {
        ScriptFault::Memory
    }
}

impl<T: Drop> From<AllocFailed<T>> for ScriptFault {
    ghost use Rattle.plcr_script.specs.declared.faults.ScriptFault.TheVariants.{Memory};

    ghost from_gives = { λ _ e. e ≡ Memory };

    fn from(_error: AllocFailed<T>) -> ScriptFault {
        ScriptFault::Memory
    }
}
