ghost use Rattle.std.specs.Prelude.{◌≡◌, ◌≤◌, ◌+◌, length, IfOk};
ghost use Rattle.plcr_base.specs.Chains.{result_map};
ghost use Rattle.plcr_loader.specs.Commands.{framed_at};
ghost use Rattle.plcr_loader.specs.Sources.{file_bytes};
ghost use Rattle.plcr_core.specs.inner.Gathering.{command_of};

use plcr_loader::load_command::LENGTH;
use plcr_loader::{FileBytes, Trouble, frame_at};

/// A load command of a file: which it is, the place where it stands, and all its bytes.
#[derive(Clone, Copy)]
pub struct WholeCommand<'a> {
    pub cmd: u32,
    pub place: u64,
    pub bytes: &'a [u8],
}

/// The command at place `at`, which has the index `index` in a list that ends at place `end`.
pub fn whole_command(
    file: &[u8],
    end: u64,
    index: u32,
    at: u64,
) -> Result<WholeCommand<'_>, Trouble>
    ensures frame { result_map command_of result ≡ framed_at (file_bytes file.now) end index at }
    ensures long { IfOk result (λ f. LENGTH ≤ length f.bytes.now) }
    ensures within { IfOk result (λ f. at + length f.bytes.now ≤ length file.now) }
{
    let command = frame_at(&FileBytes(file), end, index, at)?;
    let (_, rest) = file.split_at(at as usize);
    let (bytes, _) = rest.split_at(command.cmdsize as usize);
    Ok(WholeCommand {
        cmd: command.cmd,
        place: at,
        bytes,
    })
}
