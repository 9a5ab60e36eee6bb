//! Desks: where files are taken, and named outputs made and kept.
ghost use Rattle.std.specs.Prelude.{◌≡◌};
ghost use Rattle.plcr_io.specs.declared.desks.TakeFault.TheVariants.{Memory};
ghost use Rattle.plcr_io.specs.Desk.{Told, Takes, Makes, Keeps, Abandons, Balances, HasOpen};

use crate::Sink;
use std::alloc::{AllocError, AllocFailed, Global};

/// A desk didn't make an output, or didn't keep it.
#[derive(Clone, Copy, Debug, Drop, PartialEq, Eq)]
pub struct MakeFailed;

/// Why a file wasn't taken.
#[derive(Clone, Copy, Debug, Drop, PartialEq, Eq)]
pub enum TakeFault {
    /// It couldn't be read.
    Failed,
    /// It has more bytes than the limit.
    TooLong { limit: u64 },
    /// Memory ran out.
    Memory,
}

impl From<AllocError> for TakeFault {
    ghost from_gives = { λ _ e. e ≡ Memory };

    fn from(_: AllocError) -> Self {
        TakeFault::Memory
    }
}

impl<T: Drop> From<AllocFailed<T>> for TakeFault {
    ghost from_gives = { λ _ e. e ≡ Memory };

    fn from(_: AllocFailed<T>) -> Self {
        TakeFault::Memory
    }
}

/// A place that has files, and where outputs are made under names. What it tells of that is a
/// `Told`.
pub trait Desk {
    /// An output that was made and is neither kept nor given up.
    type Out: Sink + Drop;

    /// What is known of the desk.
    ghost told: { Self → Told };

    /// The whole bytes of the file with this name, `limit` bytes at most.
    fn take(&mut self, alloc: Global, name: &str, limit: u64) -> Result<Vec<u8>, TakeFault>
        ensures { Takes name.now limit (told self.old) (told self.new) result };

    /// Begins an output that has written nothing.
    fn make(&mut self, name: &str) -> Result<Self::Out, MakeFailed>
        ensures { Makes Self.Out.written Self.Out.faults name.now (told self.old) (told self.new)
            result };

    /// Ends an output, and keeps what it has written as the file with this name.
    fn keep(&mut self, name: &str, out: Self::Out) -> Result<(), MakeFailed>
        requires { HasOpen (told self.old) }
        ensures { Keeps name.now (Self.Out.written out) (told self.old) (told self.new) result };

    /// Gives up an output and keeps nothing of it.
    fn abandon(&mut self, out: Self::Out)
        requires { HasOpen (told self.old) }
        ensures { Abandons (Self.Out.written out) (Self.Out.faults out) (told self.old)
            (told self.new) };

    /// No more outputs were kept and given up than were made.
    ghost balances: { (desk : Self) → Balances (told desk) };
}
