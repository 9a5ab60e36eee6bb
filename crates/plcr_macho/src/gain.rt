ghost use Rattle.std.specs.Prelude.{◌≡◌, ◌≢◌, ◌≤◌, ◌+◌, IfOk};
ghost use Rattle.plcr_base.specs.Chains.{result_map};
ghost use Rattle.plcr_loader.specs.Commands.{command_at};
ghost use Rattle.plcr_macho.specs.inner.Keeping.{Stands, command_of, first_kept, gain_with, kept_in};
ghost use Rattle.plcr_macho.specs.Loading.{image_trouble};
ghost use Rattle.plcr_macho.specs.Sources.{memory_bytes};

use crate::kept::Kept;
use crate::segment::segment_kept;
use crate::source::MemoryBytes;
use crate::standing::{Standing, standing_at};
use crate::tables::{symtab_kept, uuid_kept};
use plcr_loader::load_command::LENGTH;
use plcr_loader::{LC_SEGMENT_64, LC_SYMTAB, LC_UUID, Trouble};

/// What is kept with one load command more, and its size in bytes.
#[derive(Clone, Copy)]
pub struct Gain {
    pub kept: Kept,
    pub size: u32,
}

// What is kept of a command that is no segment.
fn other_kept(command: &Standing, index: u32) -> Result<Kept, Trouble>
    requires stands { Stands command.now }
    requires least { LENGTH ≤ command.now.cmdsize }
    requires cmd { command.now.cmd ≢ LC_SEGMENT_64 }
    ensures { result ≡ kept_in index (command_of command.now) }
{
    let cmd = command.cmd;
    if cmd == LC_SYMTAB {
        symtab_kept(command, index)
    } else if cmd == LC_UUID {
        uuid_kept(command, index)
    } else {
        Ok(Kept::nothing())
    }
}

// What is kept with one command more.
fn kept_with(command: &Standing, index: u32, before: &Kept) -> Result<Kept, Trouble>
    requires stands { Stands command.now }
    requires least { LENGTH ≤ command.now.cmdsize }
    ensures { result ≡ result_map (first_kept before.now) (kept_in index (command_of command.now)) }
{
    if command.cmd == LC_SEGMENT_64 {
        segment_kept(command, index, before)
    } else {
        let kept = other_kept(command, index)?;
        Ok(before.or(kept))
    }
}

/// What the command at place `at` gives behind what was kept, which has the index `index` in a list
/// that ends at place `end`.
#[tactic(auto, using(crate::proofs::Segments::gain_fails))]
pub fn gain_at(
    source: &MemoryBytes,
    end: u64,
    index: u32,
    at: u64,
    before: &Kept,
) -> Result<Gain, Trouble>
    ensures gain { result
        ≡ result_map (gain_with before.now)
        (command_at (memory_bytes source.now.memory.now source.now.start) image_trouble end index
        at) }
    ensures within { IfOk result (λ gain. at + gain.size ≤ end) }
{
    let command = standing_at(source, end, index, at)?;
    let kept = kept_with(&command, index, before)?;
    Ok(Gain {
        kept,
        size: command.cmdsize,
    })
}
