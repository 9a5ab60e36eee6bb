ghost use Rattle.std.specs.Prelude.{◌<◌, All};
ghost use Rattle.plcr_regs.specs.declared.limits.TheConstants.{MOST_REGISTERS};

use super::*;
use std::test::*;

#[test]
fn registers_have_names(rt: HostRuntime) {
    assert_eq!(rt; count(Arch::X86_64), 21);
    assert_eq!(rt; count(Arch::Arm64), 34);
    let x86_64 = [
        (0, "rax"),
        (1, "rbx"),
        (4, "rdi"),
        (7, "rsp"),
        (16, "rip"),
        (20, "gs"),
    ];
    for (i, text) in x86_64 {
        assert_eq!(rt; name(Arch::X86_64, i), text);
    }
    let arm64 = [
        (0, "x0"),
        (28, "x28"),
        (29, "fp"),
        (31, "sp"),
        (32, "pc"),
        (33, "cpsr"),
    ];
    for (i, text) in arm64 {
        assert_eq!(rt; name(Arch::Arm64, i), text);
    }
}

#[test]
fn registers_have_places(rt: HostRuntime) {
    let x86_64 = Arch::X86_64;
    assert_eq!(rt; name(x86_64, pc_place(x86_64)), "rip");
    assert_eq!(rt; name(x86_64, sp_place(x86_64)), "rsp");
    assert_eq!(rt; name(x86_64, fp_place(x86_64)), "rbp");
    assert_eq!(rt; lr_place(x86_64), None);
    let arm64 = Arch::Arm64;
    assert_eq!(rt; name(arm64, pc_place(arm64)), "pc");
    assert_eq!(rt; name(arm64, sp_place(arm64)), "sp");
    assert_eq!(rt; name(arm64, fp_place(arm64)), "fp");
    assert_eq!(rt; lr_place(arm64), Some(30));
}

#[test]
fn registers_have_dwarf_numbers(rt: HostRuntime) {
    let numbers = [
        (Arch::X86_64, 0, "rax"),
        (Arch::X86_64, 1, "rdx"),
        (Arch::X86_64, 2, "rcx"),
        (Arch::X86_64, 3, "rbx"),
        (Arch::X86_64, 4, "rsi"),
        (Arch::X86_64, 5, "rdi"),
        (Arch::X86_64, 6, "rbp"),
        (Arch::X86_64, 7, "rsp"),
        (Arch::X86_64, 8, "r8"),
        (Arch::X86_64, 15, "r15"),
        (Arch::X86_64, 16, "rip"),
        (Arch::Arm64, 0, "x0"),
        (Arch::Arm64, 28, "x28"),
        (Arch::Arm64, 29, "fp"),
        (Arch::Arm64, 30, "lr"),
        (Arch::Arm64, 31, "sp"),
    ];
    for (arch, number, text) in numbers {
        assert_eq!(rt;
            dwarf_place(arch, number).map(|i| name(arch, i)),
            Some(text)
        );
    }
    let none = [
        (Arch::X86_64, 17),
        (Arch::Arm64, 32),
        (Arch::Arm64, u64::MAX),
    ];
    for (arch, number) in none {
        assert!(rt; dwarf_place(arch, number).is_none(), "{number}");
    }
}

#[test]
fn a_state_has_its_registers_in_place(rt: HostRuntime) {
    let mut bytes = [0; 168];
    bytes[57] = 0x70;
    bytes[128] = 0x50;
    bytes[129] = 0x0f;
    bytes[132] = 1;
    let mut value = [None; MOST_REGISTERS];
    for i in 0..21 {
        value[i] = Some(0);
    }
    value[7] = Some(0x7000);
    value[16] = Some(0x1_0000_0f50);
    let arch = Arch::X86_64;
    assert!(rt; read_state(arch, 4, &bytes) == Some(Registers { arch, value }));
    assert!(rt; read_state(arch, 5, &bytes).is_none());
    assert!(rt; read_state(arch, 4, &bytes[..164]).is_none());
}

// The registers of an architecture, all 0 but some, by their places.
fn registers_with(arch: Arch, known: &[(usize, u64)]) -> Registers
    requires { All (λ k. k.0 < MOST_REGISTERS) known.now }
{
    let mut value = [None; MOST_REGISTERS];
    for i in 0..count(arch) {
        value[i] = Some(0);
    }
    for (place, number) in known {
        value[*place] = Some(*number);
    }
    Registers { arch, value }
}

#[test]
fn an_arm64_state_ends_with_a_register_of_4_bytes(rt: HostRuntime) {
    let mut bytes = [0; 280];
    bytes[0] = 6;
    bytes[4] = 68;
    // fp 0x7100, sp 0x7000, pc 0x100000f50, cpsr 0x60000000, and a pad word of no meaning
    bytes[241] = 0x71;
    bytes[257] = 0x70;
    bytes[264] = 0x50;
    bytes[265] = 0x0f;
    bytes[268] = 1;
    bytes[275] = 0x60;
    bytes[279] = 0xff;
    let known = [
        (29, 0x7100),
        (31, 0x7000),
        (32, 0x1_0000_0f50),
        (33, 0x6000_0000),
    ];
    let state = registers_with(Arch::Arm64, &known);
    let arch = Arch::Arm64;
    assert!(rt; read_state(arch, 6, &bytes[8..]) == Some(state));
    assert!(rt; read_state(arch, 1, &bytes) == Some(state));
    assert!(rt; read_state(arch, 6, &bytes).is_none());
    assert!(rt; read_state(arch, 1, &bytes[8..]).is_none());
    assert!(rt; read_state(Arch::X86_64, 6, &bytes[8..]).is_none());
    bytes[4] = 69;
    assert!(rt; read_state(arch, 1, &bytes).is_none());
}

#[test]
fn a_state_may_stand_behind_its_flavor_and_count(rt: HostRuntime) {
    let mut bytes = [0; 176];
    bytes[0] = 4;
    bytes[4] = 42;
    bytes[65] = 0x70;
    let state = registers_with(Arch::X86_64, &[(7, 0x7000)]);
    let arch = Arch::X86_64;
    assert!(rt; read_state(arch, 7, &bytes) == Some(state));
    assert!(rt; read_state(arch, 7, &bytes[..172]).is_none());
    assert!(rt; read_state(arch, 4, &bytes).is_none());
    bytes[0] = 6;
    assert!(rt; read_state(arch, 7, &bytes).is_none());
}

#[test]
fn registers_go_by_dwarf_numbers(rt: HostRuntime) {
    let x86_64 = registers_with(Arch::X86_64, &[(3, 0x11), (16, 0x22)]);
    assert_eq!(rt; x86_64.dwarf(1), Some(0x11));
    assert_eq!(rt; x86_64.dwarf(16), Some(0x22));
    assert_eq!(rt; x86_64.dwarf(17), None);
    let arm64 = registers_with(Arch::Arm64, &[(30, 0x33)]);
    assert_eq!(rt; arm64.dwarf(30), Some(0x33));
    assert_eq!(rt; arm64.kept().dwarf(30), None);
}

#[test]
fn a_function_keeps_some_registers(rt: HostRuntime) {
    let cases = [
        (Arch::X86_64, [1, 6, 12, 13, 14, 15].as_slice()),
        (
            Arch::Arm64,
            [19, 20, 21, 22, 23, 24, 25, 26, 27, 28, 29].as_slice(),
        ),
    ];
    for (arch, kept) in cases {
        let found = registers_with(arch, &[]).kept();
        assert!(rt; found.arch == arch);
        for i in 0..MOST_REGISTERS {
            assert_eq!(rt; found.value[i].is_some(), kept.contains(&i), "{i}");
        }
    }
}

#[test]
fn a_frame_is_looked_up_without_its_signature(rt: HostRuntime) {
    let signed = 0x002a_0001_0000_4100;
    let plain = 0x1_0000_4100;
    // The architecture, whether the frame is exact, its bits and its pc; what it is then, and what
    // is looked up.
    let cases = [
        (Arch::Arm64, true, 47, signed, plain, plain),
        (Arch::Arm64, false, 47, signed, plain, plain - 1),
        (Arch::Arm64, false, 64, signed, signed, signed - 1),
        (Arch::Arm64, false, 255, signed, signed, signed - 1),
        (Arch::Arm64, false, 32, signed, 0x4100, 0x40ff),
        (Arch::Arm64, false, 47, 1 << 47, 0, u64::MAX),
        (Arch::X86_64, true, 47, signed, signed, signed),
        (Arch::X86_64, false, 47, signed, signed, signed - 1),
        (Arch::X86_64, false, 64, 0, 0, u64::MAX),
    ];
    for (arch, exact, bits, address, pc, lookup) in cases {
        let registers = registers_with(arch, &[(pc_place(arch), address)]);
        let frame = Frame {
            registers,
            exact,
            bits,
        };
        assert_eq!(rt; frame.cut(address), pc);
        assert_eq!(rt; frame.pc(), Some(pc));
        assert_eq!(rt; frame.lookup(), Some(lookup));
        let unknown = Frame {
            registers: registers.kept(),
            ..frame
        };
        assert!(rt; unknown.pc().is_none() && unknown.lookup().is_none());
        assert!(rt; Step::Frame(frame) != Step::End && Step::End != Step::Bad(1));
    }
}
