ghost use Rattle.std.specs.Prelude.{◌≡◌};
ghost use Rattle.plcr_core.specs.Heads.{arch_of, header_in};

use crate::fault::CoreFault;
use plcr_loader::mach_header_64::{CPUTYPE, FILETYPE, LENGTH, MAGIC, NCMDS, SIZEOFCMDS};
use plcr_loader::{CPU_TYPE_ARM64, CPU_TYPE_X86_64, MH_CORE, MH_MAGIC_64};
use plcr_regs::Arch;

/// What the header of a core says: how many load commands it has, and the place where they end.
#[derive(Clone, Copy)]
pub struct Header {
    pub arch: Arch,
    pub commands: u32,
    pub end: u64,
}

fn known_arch(cpu: u32) -> Option<Arch>
    ensures { result ≡ arch_of cpu }
{
    match cpu {
        CPU_TYPE_X86_64 => Some(Arch::X86_64),
        CPU_TYPE_ARM64 => Some(Arch::Arm64),
        _ => None,
    }
}

/// The header at the front of the file, or the first fault in it.
#[tactic(auto, unfolding(crate::specs::Heads::header_in))]
pub fn header_of(file: &[u8]) -> Result<Header, CoreFault>
    ensures { result ≡ header_in file.now }
{
    if file.len() < LENGTH {
        return Err(CoreFault::Truncated { at: file.len() });
    }
    let magic = MAGIC.read_u32(file);
    let filetype = FILETYPE.read_u32(file);
    if magic != MH_MAGIC_64 || filetype != MH_CORE {
        return Err(CoreFault::NotCore { magic, filetype });
    }
    let cpu = CPUTYPE.read_u32(file);
    let Some(arch) = known_arch(cpu) else {
        return Err(CoreFault::OtherCpu { cpu });
    };
    Ok(Header {
        arch,
        commands: NCMDS.read_u32(file),
        end: LENGTH as u64 + u64::from(SIZEOFCMDS.read_u32(file)),
    })
}
