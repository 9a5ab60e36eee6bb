ghost use Rattle.std.specs.Prelude.{◌≡◌, ◌≤◌, ◌+◌, take, IfOk};
ghost use Rattle.plcr_base.specs.Chains.{result_map};
ghost use Rattle.plcr_loader.specs.Commands.{framed_at};
ghost use Rattle.plcr_macho.specs.inner.Keeping.{Stands, command_of};
ghost use Rattle.plcr_macho.specs.Sources.{memory_bytes};

use crate::source::{MemoryBytes, mapped_bytes};
use crate::window::Window;
use plcr_loader::load_command::LENGTH;
use plcr_loader::{Trouble, frame_at};

/// A load command that stands in memory: which it is, its size in bytes, its place in the list, and
/// its address.
#[derive(Clone, Copy)]
pub struct Standing<'a> {
    pub memory: &'a Window<'a>,
    pub cmd: u32,
    pub cmdsize: u32,
    pub place: u64,
    pub address: u64,
}

/// The command at place `at`, which has the index `index` in a list that ends at place `end`.
pub fn standing_at<'a>(
    source: &MemoryBytes<'a>,
    end: u64,
    index: u32,
    at: u64,
) -> Result<Standing<'a>, Trouble>
    ensures frame { result_map command_of result
        ≡ framed_at (memory_bytes source.now.memory.now source.now.start) end index at }
    ensures stands { IfOk result (λ command. Stands command) }
    ensures least { IfOk result (λ command. LENGTH ≤ command.cmdsize) }
    ensures within { IfOk result (λ command. at + command.cmdsize ≤ end) }
{
    let said = frame_at(source, end, index, at)?;
    Ok(Standing {
        memory: source.memory,
        cmd: said.cmd,
        cmdsize: said.cmdsize,
        place: at,
        address: source.address(at),
    })
}

impl Standing<'_> {
    /// Its first bytes.
    #[tactic(auto, using(crate::proofs::Reading::front_mapped))]
    pub fn front<const N: usize>(&self) -> [u8; N]
        requires stands { Stands self.now }
        requires long { N ≤ self.now.cmdsize }
        ensures { result ≡ take N (command_of self.now).bytes }
    {
        mapped_bytes(self.memory, self.address)
    }
}
