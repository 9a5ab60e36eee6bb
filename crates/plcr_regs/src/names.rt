ghost use Rattle.std.specs.Prelude.{◌≡◌, ◌<◌, [], length, map, slice_index_or};
ghost use Rattle.plcr_regs.specs.Names.{register_count, register_names};

use crate::arch::Arch;
use crate::limits::MOST_REGISTERS;

const X86_64_NAMES: [&str; 21] = [
    "rax", "rbx", "rcx", "rdx", "rdi", "rsi", "rbp", "rsp", "r8", "r9", "r10", "r11", "r12", "r13",
    "r14", "r15", "rip", "rflags", "cs", "fs", "gs",
];

const ARM64_NAMES: [&str; MOST_REGISTERS] = [
    "x0", "x1", "x2", "x3", "x4", "x5", "x6", "x7", "x8", "x9", "x10", "x11", "x12", "x13", "x14",
    "x15", "x16", "x17", "x18", "x19", "x20", "x21", "x22", "x23", "x24", "x25", "x26", "x27",
    "x28", "fp", "lr", "sp", "pc", "cpsr",
];

/// How many registers a thread state of the architecture has: 21 or 34.
pub fn count(arch: Arch) -> usize
    ensures { result ≡ register_count arch }
{
    match arch {
        Arch::X86_64 => X86_64_NAMES.len(),
        Arch::Arm64 => ARM64_NAMES.len(),
    }
}

fn text_at(texts: &[&'static str], i: usize) -> &'static str
    requires { i < length texts.now }
    ensures { result.now ≡ slice_index_or (map (λ t. t.now) texts.now) i [] }
{
    texts[i]
}

/// The name of register `i`, counted in the order of the thread state.
pub fn name(arch: Arch, i: usize) -> &'static str
    requires { i < register_count arch }
    ensures { result.now ≡ slice_index_or (register_names arch) i [] }
{
    match arch {
        Arch::X86_64 => text_at(&X86_64_NAMES, i),
        Arch::Arm64 => text_at(&ARM64_NAMES, i),
    }
}
