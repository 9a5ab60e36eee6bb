//! The callers that encodings tell.
use crate::fixtures::*;
use crate::{KnownSections, entries_are_chosen, permutations_are_orders, step};
use plcr_macho::Image;
use plcr_memory::Memory;
use plcr_regs::{Arch, Frame, Outcome, Step};
use std::test::*;

// A function with a frame saved five registers below rbp.
#[test]
fn a_frame_with_rbp(rt: HostRuntime) -> Result<(), Fail> {
    let memory = memory_with(rt.alloc(), &one_function(0x0105_58d1))?;
    let frame = frame_at(
        Arch::X86_64,
        64,
        0x100,
        &[(RBP, 0x7100), (RSP, 0x7008), (RAX, 5)],
    );
    let want = caller(
        Arch::X86_64,
        64,
        &[
            (RBX, 0x70d8),
            (R12, 0x70e0),
            (R13, 0x70e8),
            (R14, 0x70f0),
            (R15, 0x70f8),
            (RBP, 0x7100),
            (RIP, 0x7108),
            (RSP, 0x7110),
        ],
    );
    assert!(rt; stepped(&memory, &image_with(68), &frame, 0x100) == want);
    Ok(())
}

// Functions without a frame: of six registers in one order, and of three in another. Those that
// aren't saved stay.
#[test]
fn stacks_of_a_known_size(rt: HostRuntime) -> Result<(), Fail> {
    let arch = Arch::X86_64;
    let frame = frame_at(arch, 64, 0x100, &[(RSP, 0x7100), (R12, 3), (RAX, 5)]);
    let six = memory_with(rt.alloc(), &one_function(0x0207_1acf))?;
    let want = caller(
        arch,
        64,
        &[
            (RBP, 0x7100),
            (R15, 0x7108),
            (R14, 0x7110),
            (R13, 0x7118),
            (R12, 0x7120),
            (RBX, 0x7128),
            (RIP, 0x7130),
            (RSP, 0x7138),
        ],
    );
    assert!(rt; stepped(&six, &image_with(68), &frame, 0x100) == want);
    let three = memory_with(rt.alloc(), &one_function(0x0205_0c0a))?;
    let want = caller(
        arch,
        64,
        &[
            (RBX, 0x7108),
            (R14, 0x7110),
            (R15, 0x7118),
            (R12, 3),
            (RIP, 0x7120),
            (RSP, 0x7128),
        ],
    );
    assert!(rt; stepped(&three, &image_with(68), &frame, 0x100) == want);
    Ok(())
}

// Four registers in the last of their orders, and five in the last of theirs: numbers 359 and 719.
#[test]
fn orders_of_four_and_five(rt: HostRuntime) -> Result<(), Fail> {
    let arch = Arch::X86_64;
    let frame = frame_at(arch, 64, 0x100, &[(RSP, 0x7100)]);
    let four = memory_with(rt.alloc(), &one_function(0x0205_1167))?;
    let want = [
        (RBP, 0x7100),
        (R15, 0x7108),
        (R14, 0x7110),
        (R13, 0x7118),
        (RIP, 0x7120),
        (RSP, 0x7128),
    ];
    let said = stepped(&four, &image_with(68), &frame, 0x100);
    assert!(rt; said == caller(arch, 64, &want));
    let five = memory_with(rt.alloc(), &one_function(0x0206_16cf))?;
    let want = [
        (RBP, 0x7100),
        (R15, 0x7108),
        (R14, 0x7110),
        (R13, 0x7118),
        (R12, 0x7120),
        (RIP, 0x7128),
        (RSP, 0x7130),
    ];
    let said = stepped(&five, &image_with(68), &frame, 0x100);
    assert!(rt; said == caller(arch, 64, &want));
    Ok(())
}

// The encoding of a compressed page's own, whose size stands in the code.
#[test]
fn a_stack_whose_size_is_in_the_code(rt: HostRuntime) -> Result<(), Fail> {
    let memory = memory_with(rt.alloc(), &COMPRESSED)?;
    let frame = frame_at(Arch::X86_64, 64, 0x1105, &[(RSP, 0x7100)]);
    let want = caller(Arch::X86_64, 64, &[(RIP, 0x8100), (RSP, 0x8108)]);
    assert!(rt; stepped(&memory, &image_with(84), &frame, 0x1105) == want);
    assert!(rt; stepped(&memory, &image_with(84), &frame, 0x10ff) == Step::Bad(4));
    assert!(rt; stepped(&memory, &image_with(84), &frame, 0x1100) == want);
    assert!(rt; stepped(&memory, &image_with(84), &frame, 0x3fff) == want);
    assert!(rt; stepped(&memory, &image_with(84), &frame, 0x4000) == Step::Bad(4));
    Ok(())
}

// Pairs below a frame and below the end of a stack; the link register isn't known afterwards.
#[test]
fn frames_of_arm64(rt: HostRuntime) -> Result<(), Fail> {
    let arch = Arch::Arm64;
    let known = [(FP, 0x7100), (LR, 0x5000), (SP, 0x7100), (19, 1), (21, 2)];
    let frame = frame_at(arch, 64, 0x100, &known);
    let pairs = [(19, 0x70f8), (20, 0x70f0), (21, 0x70e8), (22, 0x70e0)];
    let framed = memory_with(rt.alloc(), &one_function(0x0400_0003))?;
    let ends = [(FP, 0x7100), (PC, 0x7108), (SP, 0x7110)];
    let want = caller(
        arch,
        64,
        &[pairs.as_slice(), ends.as_slice()].concat(rt.alloc())?,
    );
    assert!(rt; stepped(&framed, &image_with(68), &frame, 0x100) == want);
    let leaf = memory_with(rt.alloc(), &one_function(0x0200_2000))?;
    let want = caller(
        arch,
        64,
        &[(19, 1), (21, 2), (FP, 0x7100), (PC, 0x5000), (SP, 0x7120)],
    );
    assert!(rt; stepped(&leaf, &image_with(68), &frame, 0x100) == want);
    Ok(())
}

// A leaf that saved two pairs, and a frame that saved all five.
#[test]
fn pairs_of_arm64(rt: HostRuntime) -> Result<(), Fail> {
    let arch = Arch::Arm64;
    let known = [(FP, 0x7100), (LR, 0x5000), (SP, 0x7100)];
    let frame = frame_at(arch, 64, 0x100, &known);
    let leaf = memory_with(rt.alloc(), &one_function(0x0200_2003))?;
    let want = [
        (19, 0x7118),
        (20, 0x7110),
        (21, 0x7108),
        (22, 0x7100),
        (FP, 0x7100),
        (PC, 0x5000),
        (SP, 0x7120),
    ];
    let said = stepped(&leaf, &image_with(68), &frame, 0x100);
    assert!(rt; said == caller(arch, 64, &want));
    let framed = memory_with(rt.alloc(), &one_function(0x0400_0f1f))?;
    let want = [
        (19, 0x70f8),
        (20, 0x70f0),
        (21, 0x70e8),
        (22, 0x70e0),
        (23, 0x70d8),
        (24, 0x70d0),
        (25, 0x70c8),
        (26, 0x70c0),
        (27, 0x70b8),
        (28, 0x70b0),
        (FP, 0x7100),
        (PC, 0x7108),
        (SP, 0x7110),
    ];
    let said = stepped(&framed, &image_with(68), &frame, 0x100);
    assert!(rt; said == caller(arch, 64, &want));
    Ok(())
}

// Of two fields that name one register both words are read, and the later one counts.
#[test]
fn a_register_that_is_named_twice(rt: HostRuntime) -> Result<(), Fail> {
    let arch = Arch::X86_64;
    let want = caller(
        arch,
        64,
        &[(RBX, 0x70f8), (RBP, 0x7100), (RIP, 0x7108), (RSP, 0x7110)],
    );
    assert!(rt; said(rt.alloc(), arch, 0x0102_0009, &[(RBP, 0x7100)])? == want);
    let outside = said(rt.alloc(), arch, 0x0102_0009, &[(RBP, 0x7008)])?;
    assert!(rt; outside == Step::Bad(12));
    Ok(())
}

// The caller's pc is without signature, from the stack and from the link register.
#[test]
fn signatures_are_cut(rt: HostRuntime) -> Result<(), Fail> {
    let arch = Arch::Arm64;
    let signed = 0x002a_0001_0000_4100u64;
    for (encoding, bits, pc) in [
        (0x0200_0000, 47, 0x1_0000_4100),
        (0x0200_0000, 64, signed),
        (0x0400_0000, 47, 0x1_0000_4100),
        (0x0400_0000, 64, signed),
    ] {
        let mut file = Vec::new(rt.alloc());
        add_words(&mut file, &one_function(encoding))?;
        file.extend_from_slice(&0x7200u64.to_le_bytes())?;
        file.extend_from_slice(&signed.to_le_bytes())?;
        let regions = [bytes(SECTION, 0, 68), bytes(STACK, 68, 16)];
        let memory = memory_of(rt.alloc(), file, &regions)?;
        let known = [(SP, STACK), (FP, STACK), (LR, signed)];
        let frame = frame_at(arch, bits, 0x100, &known);
        let Step::Frame(caller) = stepped(&memory, &image_with(68), &frame, 0x100) else {
            return Err(Fail::from("no caller"));
        };
        assert_eq!(rt; caller.registers.value[PC], Some(pc), "{encoding} {bits}");
    }
    Ok(())
}

// The reader itself, where the frame's address is known and not below the image, and what it says
// by what is kept.
fn whole_step(memory: &Memory, image: &Image, frame: &Frame) -> Option<(Step, Step)> {
    match frame.lookup() {
        Some(address) if address >= image.header => {
            let mut known = KnownSections::new(memory);
            let mut room = *frame;
            let kept = match known.step_into(7, image, frame, &mut room) {
                Outcome::Caller => Step::Frame(room),
                Outcome::End => Step::End,
                Outcome::Bad(number) => Step::Bad(number),
            };
            Some((step(memory, image, frame), kept))
        }
        _ => None,
    }
}

// The reader asks for the address before a return address, and for that of an exact frame.
#[test]
fn the_address_that_is_looked_up(rt: HostRuntime) -> Result<(), Fail> {
    entries_are_chosen();
    permutations_are_orders();
    let memory = memory_with(rt.alloc(), &COMPRESSED)?;
    let mut frame = frame_at(Arch::X86_64, 64, 0x1100, &[(RSP, 0x7100)]);
    let want = caller(Arch::X86_64, 64, &[(RIP, 0x8100), (RSP, 0x8108)]);
    assert!(rt; whole_step(&memory, &image_with(84), &frame) == Some((want, want)));
    frame.exact = false;
    let bad = Step::Bad(4);
    assert!(rt; whole_step(&memory, &image_with(84), &frame) == Some((bad, bad)));
    Ok(())
}
