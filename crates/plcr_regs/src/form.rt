//! The forms in which thread states stand in a core file.
ghost use Rattle.std.specs.Prelude.{◌≡◌, ◌≤◌, length};
ghost use Rattle.plcr_regs.specs.States.{begins, has_form, plain_form, wrapping_form};
ghost use Rattle.plcr_regs.specs.declared.form.TheConstants.{HEADER};

use crate::arch::Arch;
use crate::flavors::{
    ARM_THREAD_STATE64, ARM_THREAD_STATE64_COUNT, ARM_UNIFIED_THREAD_STATE,
    ARM_UNIFIED_THREAD_STATE_COUNT, x86_THREAD_STATE, x86_THREAD_STATE_COUNT, x86_THREAD_STATE64,
    x86_THREAD_STATE64_COUNT,
};
use plcr_base::read_u32;

/// How many bytes stand before the state in a wrapping one: a flavor and a count.
pub const HEADER: usize = 8;

/// A flavor of thread states, and how many words of 4 bytes a state of it has.
#[derive(Clone, Copy)]
pub struct Form {
    pub flavor: u32,
    pub count: u32,
}

impl Form {
    pub fn has(&self, flavor: u32, bytes: &[u8]) -> bool
        ensures { result ≡ has_form flavor bytes.now self.now }
    {
        flavor == self.flavor && bytes.len() == 4 * self.count as usize
    }

    /// Whether the bytes begin with this flavor and this count.
    pub fn begins(&self, bytes: &[u8]) -> bool
        requires { HEADER ≤ length bytes.now }
        ensures { result ≡ begins bytes.now self.now }
    {
        read_u32(bytes, 0) == self.flavor && read_u32(bytes, 4) == self.count
    }
}

/// The registers alone.
pub fn plain_form(arch: Arch) -> Form
    ensures { result ≡ plain_form arch }
{
    match arch {
        Arch::X86_64 => Form {
            flavor: x86_THREAD_STATE64,
            count: x86_THREAD_STATE64_COUNT,
        },
        Arch::Arm64 => Form {
            flavor: ARM_THREAD_STATE64,
            count: ARM_THREAD_STATE64_COUNT,
        },
    }
}

/// A flavor and a count before the registers.
pub fn wrapping_form(arch: Arch) -> Form
    ensures { result ≡ wrapping_form arch }
{
    match arch {
        Arch::X86_64 => Form {
            flavor: x86_THREAD_STATE,
            count: x86_THREAD_STATE_COUNT,
        },
        Arch::Arm64 => Form {
            flavor: ARM_UNIFIED_THREAD_STATE,
            count: ARM_UNIFIED_THREAD_STATE_COUNT,
        },
    }
}
