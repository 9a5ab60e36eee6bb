ghost use Rattle.std.specs.Prelude.{◌≡◌};
ghost use Rattle.plcr_base.specs.Chains.{result_map};
ghost use Rattle.plcr_loader.specs.Commands.{framed_at, load_command_of};

use crate::load_command::{LENGTH, LoadCommand};
use crate::source::Source;
use crate::trouble::Trouble;

/// What the load command at place `at` says of itself, which has the index `index` in a list that
/// ends at place `end`, where the whole command stands before the end and is there.
#[tactic(auto, unfolding(crate::specs::Commands::framed_at))]
pub fn frame_at<S: Source>(
    source: &S,
    end: u64,
    index: u32,
    at: u64,
) -> Result<LoadCommand, Trouble>
    ensures { result ≡ result_map load_command_of (framed_at (S.found source.now) end index at) }
{
    if at > end || end - at < LENGTH as u64 {
        return Err(Trouble::Bad { index });
    }
    let Some(command) = source.load_command(at) else {
        return Err(Trouble::Absent { place: at });
    };
    let size = u64::from(command.cmdsize);
    if size < LENGTH as u64 || end - at < size {
        return Err(Trouble::Bad { index });
    }
    if !source.has(at, size) {
        return Err(Trouble::Absent { place: at });
    }
    Ok(command)
}
