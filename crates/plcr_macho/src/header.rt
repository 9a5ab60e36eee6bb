ghost use Rattle.std.specs.Prelude.{◌≡◌};
ghost use Rattle.plcr_base.specs.Chains.{result_map};
ghost use Rattle.plcr_macho.specs.inner.Keeping.{header_of};
ghost use Rattle.plcr_macho.specs.Loading.{cpu_of, head_at};

use crate::image::ImageFault;
use crate::window::bytes_from;
use plcr_loader::mach_header_64::{CPUSUBTYPE, CPUTYPE, LENGTH, MAGIC, NCMDS, SIZEOFCMDS};
use plcr_loader::{CPU_TYPE_ARM64, CPU_TYPE_X86_64, MH_MAGIC_64};
use plcr_memory::Memory;
use plcr_regs::Arch;

/// What the header of an image says: its cputype and cpusubtype, how many load commands it has, and
/// their size in bytes.
#[derive(Clone, Copy)]
pub struct Header {
    pub cpu: u32,
    pub subtype: u32,
    pub commands: u32,
    pub size: u32,
}

fn cpu(arch: Arch) -> u32
    ensures { result ≡ cpu_of arch }
{
    match arch {
        Arch::X86_64 => CPU_TYPE_X86_64,
        Arch::Arm64 => CPU_TYPE_ARM64,
    }
}

#[tactic(auto, unfolding(crate::specs::inner::Keeping::header_of))]
fn header_in(head: &[u8; LENGTH]) -> Header
    ensures { result ≡ header_of head.now }
{
    Header {
        cpu: CPUTYPE.read_u32(head),
        subtype: CPUSUBTYPE.read_u32(head),
        commands: NCMDS.read_u32(head),
        size: SIZEOFCMDS.read_u32(head),
    }
}

/// The header at an address, or the first fault in it.
#[tactic(auto, unfolding(crate::specs::Loading::head_at, crate::specs::inner::Keeping::header_of))]
pub fn header_at(memory: &Memory, arch: Arch, at: u64) -> Result<Header, ImageFault>
    ensures { result ≡ result_map header_of (head_at memory.now arch at) }
{
    let Some(head) = bytes_from::<LENGTH>(memory, at) else {
        return Err(ImageFault::Unreadable { at });
    };
    let magic = MAGIC.read_u32(&head);
    if magic != MH_MAGIC_64 {
        return Err(ImageFault::NotMachO { magic });
    }
    let header = header_in(&head);
    if header.cpu != cpu(arch) {
        return Err(ImageFault::OtherCpu { cpu: header.cpu });
    }
    Ok(header)
}
