ghost use Rattle.std.specs.Prelude.{◌≡◌};
ghost use Rattle.plcr_memory.specs.declared.fault.MemoryFault.TheVariants.{Memory};

use std::alloc::{AllocError, AllocFailed};

/// Why a list of regions is no memory. Indices count the regions from 0, in the order given.
#[derive(Clone, Copy, Debug, PartialEq, Eq)]
pub enum MemoryFault {
    /// `second` is the least index of a region that shares an address with an earlier one, and
    /// `first` the least index of such an earlier one.
    Overlap { first: usize, second: usize },
    /// The least index of a region that passes the last 64-bit address. It is told before an
    /// overlap.
    Wraps { index: usize },
    /// Memory ran out.
    Memory,
}

impl From<AllocError> for MemoryFault {
    ghost from_gives = { λ _ e. e ≡ Memory };

    fn from(_e: AllocError) -> MemoryFault {
        MemoryFault::Memory
    }
}

impl<T: Drop> From<AllocFailed<T>> for MemoryFault {
    ghost from_gives = { λ _ e. e ≡ Memory };

    fn from(_e: AllocFailed<T>) -> MemoryFault {
        MemoryFault::Memory
    }
}
