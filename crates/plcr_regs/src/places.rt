//! Where registers stand in the order of the thread state.
ghost use Rattle.std.specs.Prelude.{◌≡◌, ◌<◌, IfSome};
ghost use Rattle.plcr_regs.specs.Names.{register_count};
ghost use Rattle.plcr_regs.specs.Places.{dwarf_place, fp_place, lr_place, pc_place, sp_place};
ghost use Rattle.plcr_regs.specs.declared.limits.TheConstants.{MOST_REGISTERS};

use crate::arch::Arch;

// The places of x86-64's registers by their DWARF numbers: rax, rdx, rcx, rbx, rsi, rdi, rbp, rsp,
// r8 to r15, rip.
const X86_64_DWARF: [usize; 17] = [0, 3, 2, 1, 5, 4, 6, 7, 8, 9, 10, 11, 12, 13, 14, 15, 16];

// The last of arm64's registers that have DWARF numbers, which are their places: x0 to x28, fp, lr,
// sp.
const ARM64_DWARF_LAST: u64 = 31;

/// The place of the program counter: rip, or pc.
#[tactic(auto, unfolding(crate::specs::Places::pc_place))]
pub fn pc_place(arch: Arch) -> usize
    ensures place { result ≡ pc_place arch }
    ensures held { result < register_count arch }
    ensures within { result < MOST_REGISTERS }
{
    match arch {
        Arch::X86_64 => 16,
        Arch::Arm64 => 32,
    }
}

/// The place of the stack pointer: rsp, or sp.
#[tactic(auto, unfolding(crate::specs::Places::sp_place))]
pub fn sp_place(arch: Arch) -> usize
    ensures place { result ≡ sp_place arch }
    ensures held { result < register_count arch }
    ensures within { result < MOST_REGISTERS }
{
    match arch {
        Arch::X86_64 => 7,
        Arch::Arm64 => 31,
    }
}

/// The place of the frame pointer: rbp, or fp.
#[tactic(auto, unfolding(crate::specs::Places::fp_place))]
pub fn fp_place(arch: Arch) -> usize
    ensures place { result ≡ fp_place arch }
    ensures held { result < register_count arch }
    ensures within { result < MOST_REGISTERS }
{
    match arch {
        Arch::X86_64 => 6,
        Arch::Arm64 => 29,
    }
}

/// The place of the link register: lr on arm64. x86-64 has none.
#[tactic(auto, unfolding(crate::specs::Places::lr_place))]
pub fn lr_place(arch: Arch) -> Option<usize>
    ensures place { result ≡ lr_place arch }
    ensures held { IfSome result (λ place. place < register_count arch) }
    ensures within { IfSome result (λ place. place < MOST_REGISTERS) }
{
    match arch {
        Arch::X86_64 => None,
        Arch::Arm64 => Some(30),
    }
}

/// The place of the register with a DWARF number; None where no general register has the number. On
/// x86-64 the number of the return address is rip's.
#[tactic(auto, unfolding(crate::specs::Places::dwarf_place))]
pub fn dwarf_place(arch: Arch, number: u64) -> Option<usize>
    ensures place { result ≡ dwarf_place arch number }
    ensures held { IfSome result (λ place. place < register_count arch) }
    ensures within { IfSome result (λ place. place < MOST_REGISTERS) }
{
    match arch {
        Arch::X86_64 if number < X86_64_DWARF.len() as u64 => Some(X86_64_DWARF[number as usize]),
        Arch::Arm64 if number <= ARM64_DWARF_LAST => Some(number as usize),
        _ => None,
    }
}
