//! Encodings and registers that tell no caller, and those at the last addresses.
use crate::fixtures::*;
use plcr_regs::{Arch, Step, fp_place, sp_place};
use std::test::*;

// Encodings and registers that give a number: the encoding, the register that is known and its
// number, and the number of what is bad. The stack is mapped from 0x7000 to 0x7200.
const BAD_ENCODINGS: [(Arch, u32, (usize, u64), u8); 40] = [
    // Modes.
    (Arch::X86_64, 0, (RSP, 0x7100), 8),
    (Arch::X86_64, 0x0500_0000, (RSP, 0x7100), 8),
    (Arch::X86_64, 0x0f00_0000, (RSP, 0x7100), 8),
    (Arch::X86_64, 0xf0ff_ffff, (RSP, 0x7100), 8),
    (Arch::X86_64, 0x0400_0000, (RSP, 0x7100), 9),
    (Arch::Arm64, 0, (SP, 0x7100), 8),
    (Arch::Arm64, 0x0100_0000, (SP, 0x7100), 8),
    (Arch::Arm64, 0x0300_0000, (SP, 0x7100), 9),
    // Registers that no field names, before those that aren't known.
    (Arch::X86_64, 0x0101_0006, (RAX, 0), 10),
    (Arch::X86_64, 0x0101_7000, (RAX, 0), 10),
    (Arch::X86_64, 0x0101_0e00, (RAX, 0), 10),
    (Arch::X86_64, 0x0101_0001, (RAX, 0), 11),
    // A seventh register, orders that aren't, and stacks without room.
    (Arch::X86_64, 0x02ff_1c00, (RAX, 0), 10),
    (Arch::X86_64, 0x0202_0406, (RAX, 0), 10),
    (Arch::X86_64, 0x0203_081e, (RAX, 0), 10),
    (Arch::X86_64, 0x0207_1ad0, (RAX, 0), 10),
    (Arch::X86_64, 0x0200_0000, (RAX, 0), 10),
    (Arch::X86_64, 0x0201_0400, (RAX, 0), 10),
    (Arch::X86_64, 0x0202_0400, (RAX, 0), 11),
    (Arch::X86_64, 0x0206_1800, (RAX, 0), 10),
    (Arch::X86_64, 0x0207_1800, (RAX, 0), 11),
    // A size in the code, which isn't mapped there.
    (Arch::X86_64, 0x0307_1c00, (RAX, 0), 10),
    (Arch::X86_64, 0x0300_0000, (RAX, 0), 11),
    (Arch::X86_64, 0x0300_0000, (RSP, 0x7100), 12),
    // Words and stacks that pass the addresses.
    (Arch::X86_64, 0x0101_0001, (RBP, 7), 11),
    (Arch::X86_64, 0x0101_0001, (RBP, 8), 12),
    (Arch::X86_64, 0x0101_0000, (RBP, 0), 12),
    (Arch::X86_64, 0x0100_0000, (RBP, u64::MAX - 15), 12),
    (Arch::X86_64, 0x0100_0000, (RBP, u64::MAX - 14), 11),
    (Arch::X86_64, 0x0201_0000, (RSP, u64::MAX - 7), 12),
    (Arch::X86_64, 0x0201_0000, (RSP, u64::MAX - 6), 11),
    (Arch::Arm64, 0x0400_0001, (FP, 15), 11),
    (Arch::Arm64, 0x0400_0001, (FP, 16), 12),
    (Arch::Arm64, 0x0400_0f00, (FP, 0), 12),
    (Arch::Arm64, 0x0400_0000, (SP, 0), 11),
    (Arch::Arm64, 0x0200_1000, (SP, 0x7100), 11),
    // Words that aren't mapped.
    (Arch::X86_64, 0x0101_0001, (RBP, 0x71f8), 12),
    (Arch::X86_64, 0x0101_0001, (RBP, 0x7000), 12),
    (Arch::X86_64, 0x0202_0400, (RSP, 0x71f8), 12),
    (Arch::Arm64, 0x0400_0001, (FP, 0x7008), 12),
];

// In the order in which they are judged.
#[test]
fn encodings_that_tell_no_caller(rt: HostRuntime) -> Result<(), Fail> {
    let alloc = rt.alloc();
    for (arch, encoding, known, bad) in BAD_ENCODINGS {
        let said = said(alloc, arch, encoding, &[known])?;
        assert!(rt; said == Step::Bad(bad), "{encoding} {bad}");
    }
    Ok(())
}

// A size in the code that has no room for what was saved is told before a register that isn't
// known.
#[test]
fn a_size_in_the_code_without_room(rt: HostRuntime) -> Result<(), Fail> {
    let mut words = COMPRESSED;
    // Three registers, and the word 0x1000 of the code in place of a size; then seven of them.
    for (encoding, bad) in [(0x0303_0c00, 11), (0x0303_1c00, 10)] {
        words[19] = encoding;
        let memory = memory_with(rt.alloc(), &words)?;
        let frame = frame_at(Arch::X86_64, 64, 0x1105, &[]);
        let said = stepped(&memory, &image_with(84), &frame, 0x1105);
        assert!(rt; said == Step::Bad(bad));
    }
    // The same where the word is 16.
    words[19] = 0x0303_0c00;
    let mut file = Vec::new(rt.alloc());
    add_words(&mut file, &words)?;
    add_words(&mut file, &[16])?;
    let regions = [bytes(SECTION, 0, 84), bytes(HEADER + 0x1103, 84, 4)];
    let memory = memory_of(rt.alloc(), file, &regions)?;
    let frame = frame_at(Arch::X86_64, 64, 0x1105, &[]);
    let said = stepped(&memory, &image_with(84), &frame, 0x1105);
    assert!(rt; said == Step::Bad(10));
    Ok(())
}

// The stack may end where the addresses do; its caller's begins at 0.
#[test]
fn stacks_at_the_last_addresses(rt: HostRuntime) -> Result<(), Fail> {
    let (x86_64, arm64) = (Arch::X86_64, Arch::Arm64);
    let last = u64::MAX - 15;
    // The architecture, the encoding, the stack pointer, and the caller's pc.
    let cases = [
        (x86_64, 0x0202_0000, last, 0x2222),
        (x86_64, 0x0201_0000, last + 8, 0x2222),
        (x86_64, 0x0101_0000, last, 0x2222),
        (arm64, 0x0400_0000, last, 0x2222),
        (arm64, 0x0200_1000, last, 0x3333),
    ];
    for (arch, encoding, pointer, pc) in cases {
        let mut file = Vec::new(rt.alloc());
        add_words(&mut file, &one_function(encoding))?;
        file.extend_from_slice(&0x1111u64.to_le_bytes())?;
        file.extend_from_slice(&0x2222u64.to_le_bytes())?;
        let regions = [bytes(SECTION, 0, 68), bytes(last, 68, 16)];
        let memory = memory_of(rt.alloc(), file, &regions)?;
        let known = [
            (sp_place(arch), pointer),
            (fp_place(arch), pointer),
            (LR, 0x3333),
        ];
        let frame = frame_at(arch, 64, 0x100, &known);
        let Step::Frame(caller) = stepped(&memory, &image_with(68), &frame, 0x100) else {
            return Err(Fail::from("no caller"));
        };
        assert_eq!(rt; caller.pc(), Some(pc), "{encoding}");
        assert_eq!(rt;
            caller.registers.value[sp_place(arch)],
            Some(0),
            "{encoding}"
        );
    }
    Ok(())
}
