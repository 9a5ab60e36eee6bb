ghost use Rattle.std.specs.Prelude.{◌≡◌, IsSome, Some};
ghost use Rattle.plcr_memory.specs.Regions.{bytes_at};
ghost use Rattle.plcr_macho.specs.Sources.{memory_bytes, plus};

use crate::window::Window;
use plcr_loader::load_command::LENGTH;
use plcr_loader::{LoadCommand, Source};

/// The memory of a process as what load commands are read from. Places count from an address,
/// modulo 2^64.
#[derive(Clone, Copy)]
pub struct MemoryBytes<'a> {
    pub memory: &'a Window<'a>,
    pub start: u64,
}

impl MemoryBytes<'_> {
    /// The address of a place.
    pub fn address(&self, place: u64) -> u64
        ensures { result ≡ plus self.now.start place }
    {
        self.start.wrapping_add(place)
    }
}

/// The bytes from an address on, all of which are mapped.
pub fn mapped_bytes<const N: usize>(memory: &Window, at: u64) -> [u8; N]
    requires { IsSome (bytes_at memory.now at N) }
    ensures { bytes_at memory.now at N ≡ Some result }
{
    let Some(bytes) = memory.bytes_from(at) else {
        unreachable!()
    };
    bytes
}

impl Source for MemoryBytes<'_> {
    ghost found = { λ s. memory_bytes s.memory.now s.start };

    #[tactic(auto, unfolding(crate::specs::Sources::memory_bytes))]
    fn load_command(&self, at: u64) -> Option<LoadCommand> {
        let front = self.memory.bytes_from::<LENGTH>(self.address(at))?;
        Some(LoadCommand::read(&front))
    }

    #[tactic(auto, unfolding(crate::specs::Sources::memory_bytes))]
    fn has(&self, at: u64, size: u64) -> bool {
        self.memory.is_mapped(self.address(at), size)
    }
}
