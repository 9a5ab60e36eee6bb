ghost use Rattle.std.specs.Prelude.{◌≡◌, ◌≤◌, ◌+◌, length, None, Ok, Err, IfErr, IfSome, OnOk};
ghost use Rattle.plcr_base.specs.Chains.{passed, result_map};
ghost use Rattle.plcr_loader.specs.Commands.{command_at};
ghost use Rattle.plcr_loader.specs.Sources.{file_bytes};
ghost use Rattle.plcr_core.specs.Cores.{core_trouble};
ghost use Rattle.plcr_core.specs.Groups.{thread_in, thread_trouble};
ghost use Rattle.plcr_core.specs.inner.Gathering.{command_of, gain_in, gain_of};

use crate::command::{WholeCommand, whole_command};
use crate::segment::segment_region;
use crate::thread::thread_state;
use plcr_loader::load_command::LENGTH;
use plcr_loader::{LC_SEGMENT_64, LC_THREAD, LC_UNIXTHREAD, Trouble};
use plcr_memory::Region;
use plcr_regs::{Arch, Registers};

/// What one load command gives, and its size in bytes.
#[derive(Clone, Copy)]
pub struct Gain {
    pub region: Option<Region>,
    pub thread: Option<Registers>,
    pub size: u64,
}

impl Gain {
    /// What no command gives.
    pub fn none() -> Gain {
        Gain {
            region: None,
            thread: None,
            size: 0,
        }
    }
}

// Takes the thread out of its room. A room without one isn't written.
fn empty(room: &mut Option<Registers>)
    ensures { room.new ≡ None }
{
    if room.is_some() {
        *room = None;
    }
}

// Puts the thread of a command into its room.
fn put_thread(
    room: &mut Option<Registers>,
    arch: Arch,
    command: &[u8],
    index: u32,
) -> Result<(), Trouble>
    requires { LENGTH ≤ length command.now }
    ensures thread { OnOk result
        (Ok room.new ≡ passed (thread_in arch command.now) (thread_trouble index command.now)) }
    ensures trouble { IfErr result
        (λ t. Err t ≡ passed (thread_in arch command.now) (thread_trouble index command.now)) }
{
    *room = thread_state(arch, command, index)?;
    Ok(())
}

fn put_gain(
    room: &mut Gain,
    arch: Arch,
    command: &WholeCommand,
    index: u32,
    file_length: usize,
) -> Result<(), Trouble>
    requires { LENGTH ≤ length command.now.bytes.now }
    ensures gain { OnOk result
        (Ok room.new ≡ gain_in arch file_length index (command_of command.now)) }
    ensures trouble { IfErr result
        (λ t. Err t ≡ gain_in arch file_length index (command_of command.now)) }
    ensures size { OnOk result (room.new.size ≡ length command.now.bytes.now) }
    ensures backed { OnOk result (IfSome room.new.region (λ r.
        (r.from + r.len ≤ file_length) × (r.len ≤ r.size) × (1 ≤ r.size))) }
{
    room.size = command.bytes.len() as u64;
    room.region = None;
    match command.cmd {
        LC_SEGMENT_64 => {
            empty(&mut room.thread);
            room.region = segment_region(command.bytes, index, file_length)?;
            Ok(())
        }
        LC_THREAD | LC_UNIXTHREAD => put_thread(&mut room.thread, arch, command.bytes, index),
        _ => {
            empty(&mut room.thread);
            Ok(())
        }
    }
}

/// Puts into room what the command at place `at` gives, which has the index `index` in a list that
/// ends at place `end`. The room is large, so that one serves all commands.
pub fn gain_at(
    room: &mut Gain,
    arch: Arch,
    file: &[u8],
    end: u64,
    index: u32,
    at: u64,
) -> Result<(), Trouble>
    ensures gain { OnOk result
        (Ok room.new ≡ result_map (gain_of arch)
        (command_at (file_bytes file.now) (core_trouble (length file.now)) end index at)) }
    ensures trouble { IfErr result
        (λ t. Err t ≡ result_map (gain_of arch)
        (command_at (file_bytes file.now) (core_trouble (length file.now)) end index at)) }
    ensures within { OnOk result (at + room.new.size ≤ length file.now) }
    ensures least { OnOk result (LENGTH ≤ room.new.size) }
    ensures backed { OnOk result (IfSome room.new.region (λ r.
        (r.from + r.len ≤ length file.now) × (r.len ≤ r.size) × (1 ≤ r.size))) }
{
    let command = whole_command(file, end, index, at)?;
    put_gain(room, arch, &command, index, file.len())
}
