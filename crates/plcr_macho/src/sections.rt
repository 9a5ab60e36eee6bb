ghost use Rattle.std.specs.Prelude.{◌≡◌, ◌≤◌, ◌<◌, ◌+◌, ◌*◌, ◌^◌, ℕ, [], ◌∷◌, drop, if◌then◌else◌, Some, None, IsSome};
ghost use Rattle.plcr_loader.specs.declared.segment_command_64.TheConstants as segment_command_64;
ghost use Rattle.plcr_memory.specs.Regions.{byte_at, bytes_at};
ghost use Rattle.plcr_loader.specs.Fields.{is_named};
ghost use Rattle.plcr_macho.specs.Loading.{sections_in};
ghost use Rattle.plcr_macho.specs.inner.Keeping.{Stands, bytes_there, command_of, part_in, parts_in};

use crate::image::Part;
use crate::kept::Parts;
use crate::source::mapped_bytes;
use crate::standing::Standing;
use crate::window::Window;
use plcr_loader::section_64::{ADDR, LENGTH, SECTNAME, SIZE};
use plcr_loader::segment_command_64;

/// Names of sections, with the zeros that follow them in their field.
pub const UNWIND_INFO: [u8; 16] = *b"__unwind_info\0\0\0";

pub const EH_FRAME: [u8; 16] = *b"__eh_frame\0\0\0\0\0\0";

#[tactic(auto, unfolding(crate::specs::inner::Keeping::part_in))]
fn part_of(section: &[u8; LENGTH]) -> Part
    ensures { result ≡ part_in section.now }
{
    Part {
        at: ADDR.read_u64(section),
        size: SIZE.read_u64(section),
    }
}

fn part_named(section: &[u8; LENGTH], name: &[u8; 16]) -> Option<Part>
    ensures { result ≡ if is_named SECTNAME name.now section.now then Some (part_in section.now)
        else None }
{
    if SECTNAME.is_named(section, name) {
        Some(part_of(section))
    } else {
        None
    }
}

#[tactic(auto, unfolding(crate::specs::inner::Keeping::parts_in))]
fn parts_of(section: &[u8; LENGTH]) -> Parts
    ensures { result ≡ parts_in (section.now ∷ []) }
{
    Parts {
        unwind: part_named(section, &UNWIND_INFO),
        eh_frame: part_named(section, &EH_FRAME),
    }
}

// How many sections from an address on begin with a zero, as far as the zeros go that one region
// has there without bytes of the file. Such a section has neither name.
fn nameless(memory: &Window, at: u64) -> u64
    ensures { (k : ℕ) → k < result → byte_at memory.now (at + LENGTH * k) ≡ Some 0 }
{
    let zeros = memory.zeros_from(at);
    if zeros == 0 {
        0
    } else {
        (zeros - 1) / LENGTH as u64 + 1
    }
}

// What is kept of so many sections from an address on, which stand within `size` mapped bytes.
fn parts_at(memory: &Window, at: u64, size: u64, count: u32) -> Parts
    requires there { IsSome (bytes_at memory.now at size) }
    requires ends { at + size ≤ 2 ^ 64 }
    requires within { LENGTH * count ≤ size }
    ensures { result ≡ parts_in (sections_in count (bytes_there memory.now at size)) }
{
    let count = u64::from(count);
    let mut found = Parts {
        unwind: None,
        eh_frame: None,
    };
    let mut index = 0;
    while index < count {
        let section_at = at + LENGTH as u64 * index;
        let passed = nameless(memory, section_at);
        if passed == 0 {
            found = found.or(parts_of(&mapped_bytes(memory, section_at)));
            index += 1;
        } else {
            index += u64::min(passed, count - index);
        }
    }
    found
}

/// What is kept of the sections that stand within the command of a segment.
pub fn parts_within(command: &Standing, count: u32) -> Parts
    requires stands { Stands command.now }
    requires within { segment_command_64.LENGTH + LENGTH * count ≤ command.now.cmdsize }
    ensures { result ≡ parts_in
        (sections_in count (drop segment_command_64.LENGTH (command_of command.now).bytes)) }
{
    if count == 0 {
        return Parts {
            unwind: None,
            eh_frame: None,
        };
    }
    let size = u64::from(command.cmdsize);
    // The command is mapped, as was tested before. This tells that it ends within the addresses.
    if !command.memory.is_mapped(command.address, size) {
        unreachable!()
    }
    parts_at(
        command.memory,
        command.address + segment_command_64::LENGTH as u64,
        size - segment_command_64::LENGTH as u64,
        count,
    )
}
