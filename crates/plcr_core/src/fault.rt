ghost use Rattle.std.specs.Prelude.{◌≡◌};
ghost use Rattle.plcr_core.specs.declared.fault.CoreFault.TheVariants.{Memory};

use std::alloc::{AllocError, AllocFailed};

/// Why bytes are no core that can be read. Commands and regions are counted from 0.
#[derive(Clone, Copy, Debug, PartialEq, Eq)]
pub enum CoreFault {
    /// The file ends, at this length, before something that it says it has.
    Truncated { at: usize },
    /// Not a 64-bit little-endian Mach-O file of type MH_CORE.
    NotCore { magic: u32, filetype: u32 },
    /// A cputype that isn't read.
    OtherCpu { cpu: u32 },
    /// This load command is malformed.
    BadCommand { index: u32 },
    /// No thread has a state that can be read.
    NoThread,
    /// More than [`MOST_THREADS`](crate::MOST_THREADS) threads.
    TooManyThreads { count: u32 },
    /// `second` is the first region that shares an address with an earlier one, `first` the first
    /// such earlier one.
    Overlap { first: usize, second: usize },
    /// The first region that passes the last 64-bit address.
    Wraps { index: usize },
    /// Memory ran out.
    Memory,
}

impl From<AllocError> for CoreFault {
    ghost from_gives = { λ _ e. e ≡ Memory };

    fn from(_e: AllocError) -> CoreFault {
        CoreFault::Memory
    }
}

impl<T: Drop> From<AllocFailed<T>> for CoreFault {
    ghost from_gives = { λ _ e. e ≡ Memory };

    fn from(_e: AllocFailed<T>) -> CoreFault {
        CoreFault::Memory
    }
}
