ghost use Rattle.std.specs.Prelude.{◌≡◌, ◌≤◌, length, option_map, drop};
ghost use Rattle.plcr_base.specs.Chains.{passed};
ghost use Rattle.plcr_loader.specs.declared.load_command.TheConstants as load_command;
ghost use Rattle.plcr_core.specs.Groups.{first_state, groups_in, thread_in, thread_trouble};

use plcr_loader::thread_group::{COUNT, FLAVOR, LENGTH, WORD};
use plcr_loader::{Trouble, load_command};
use plcr_regs::{Arch, Registers, read_state};

/// The registers of the first accepted group. None where a group passes the end, Some(None) where
/// no group is accepted.
fn accepted_state(arch: Arch, groups: &[u8]) -> Option<Option<Registers>>
    ensures { result ≡ option_map (first_state arch) (groups_in groups.now) }
{
    let mut rest = groups;
    let mut accepted = None;
    while rest.len() >= LENGTH {
        let flavor = FLAVOR.read_u32(rest);
        let size = WORD * COUNT.read_u32(rest) as usize;
        let (_, words) = rest.split_at(LENGTH);
        if words.len() < size {
            return None;
        }
        let (state, others) = words.split_at(size);
        accepted = accepted.or(read_state(arch, flavor, state));
        rest = others;
    }
    Some(accepted)
}

/// The thread of an LC_THREAD or LC_UNIXTHREAD, None where no group of it is accepted.
#[tactic(auto, unfolding(crate::specs::Groups::thread_trouble, crate::specs::Groups::thread_in))]
pub fn thread_state(arch: Arch, command: &[u8], index: u32) -> Result<Option<Registers>, Trouble>
    requires { load_command.LENGTH ≤ length command.now }
    ensures { result ≡ passed (thread_in arch command.now) (thread_trouble index command.now) }
{
    let (_, groups) = command.split_at(load_command::LENGTH);
    match accepted_state(arch, groups) {
        Some(thread) => Ok(thread),
        None => Err(Trouble::Bad { index }),
    }
}
