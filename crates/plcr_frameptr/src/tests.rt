ghost use Rattle.std.specs.Prelude.{◌<◌};
ghost use Rattle.plcr_regs.specs.declared.limits.TheConstants.{MOST_REGISTERS};

use super::*;
use plcr_memory::{Memory, MemoryFault, Region, are_backed};
use plcr_regs::{Arch, Frame, MOST_REGISTERS, Registers, Step, fp_place, pc_place, sp_place};
use std::alloc::Global;
use std::test::*;

// A memory of these 8-byte words from an address on, and zeros behind them up to a size.
fn memory_with(alloc: Global, start: u64, size: u64, words: &[u64]) -> Result<Memory, MemoryFault> {
    let mut file = Vec::new(alloc);
    for word in words {
        file.extend_from_slice(&word.to_le_bytes())?;
    }
    let region = Region {
        start,
        size,
        from: 0,
        len: file.len(),
    };
    let mut regions = Vec::new(alloc);
    regions.push(region)?;
    if are_backed(file.as_slice(), regions.as_slice()) {
        Memory::new(alloc, file, regions)
    } else {
        Err(MemoryFault::Memory)
    }
}

// A frame of which one register is known.
fn frame_with(arch: Arch, bits: u8, place: usize, number: u64) -> Frame
    requires { place < MOST_REGISTERS }
{
    let mut value = [None; MOST_REGISTERS];
    value[place] = Some(number);
    Frame {
        registers: Registers { arch, value },
        exact: true,
        bits,
    }
}

// A caller of which pc, fp and sp are known.
fn caller_with(arch: Arch, bits: u8, pc: u64, fp: u64, sp: u64) -> Step {
    let mut value = [None; MOST_REGISTERS];
    value[pc_place(arch)] = Some(pc);
    value[fp_place(arch)] = Some(fp);
    value[sp_place(arch)] = Some(sp);
    Step::Frame(Frame {
        registers: Registers { arch, value },
        exact: false,
        bits,
    })
}

#[test]
fn a_caller_is_found_without_its_signature(rt: HostRuntime) -> Result<(), Fail> {
    callers_rise();
    let signed = 0x002a_0001_0000_4100;
    // The architecture, the bits, the address to which the call returns, and the pc of the caller.
    let cases = [
        (Arch::Arm64, 47, signed, 0x1_0000_4100),
        (Arch::Arm64, 47, 0x7f80_0000_0000_1000, 0x1000),
        (Arch::Arm64, 64, signed, signed),
        (Arch::Arm64, 32, signed, 0x4100),
        (Arch::X86_64, 47, signed, signed),
        (Arch::X86_64, 64, 0, 0),
    ];
    for (arch, bits, back, pc) in cases {
        let memory = memory_with(rt.alloc(), 0x7100, 16, &[0x7120, back])?;
        let frame = frame_with(arch, bits, fp_place(arch), 0x7100);
        let want = caller_with(arch, bits, pc, 0x7120, 0x7110);
        assert!(rt; step(&memory, &frame) == want, "{back}");
    }
    Ok(())
}

#[test]
fn a_frame_pointer_that_leads_nowhere_has_its_number(rt: HostRuntime) -> Result<(), Fail> {
    let arch = Arch::X86_64;
    // The frame pointer, what is saved there, and the answer. 16 bytes at 0x7100 are mapped.
    let cases = [
        (0, 0x7120, Step::End),
        (0x7100, 0x7100, Step::Bad(3)),
        (0x7100, 0x70ff, Step::Bad(3)),
        (0x7100, 1, Step::Bad(3)),
        (
            0x7100,
            0x7101,
            caller_with(arch, 64, 0x2000, 0x7101, 0x7110),
        ),
        (
            0x7100,
            u64::MAX,
            caller_with(arch, 64, 0x2000, u64::MAX, 0x7110),
        ),
        (0x7100, 0, caller_with(arch, 64, 0x2000, 0, 0x7110)),
        (0x7101, 0x7120, Step::Bad(2)),
        (0x70ff, 0x7120, Step::Bad(2)),
        (0x7110, 0x7120, Step::Bad(2)),
        (0x9000, 0x7120, Step::Bad(2)),
        (1, 0x7120, Step::Bad(2)),
        (u64::MAX, 0x7120, Step::Bad(2)),
        (u64::MAX - 15, 0x7120, Step::Bad(2)),
    ];
    for (pointer, saved, want) in cases {
        let memory = memory_with(rt.alloc(), 0x7100, 16, &[saved, 0x2000])?;
        let frame = frame_with(arch, 64, fp_place(arch), pointer);
        assert!(rt; step(&memory, &frame) == want, "{pointer} {saved}");
        let unknown = frame_with(arch, 64, sp_place(arch), pointer);
        assert!(rt; step(&memory, &unknown) == Step::Bad(1));
    }
    Ok(())
}

// The last 16 bytes of all addresses are a frame like others; its caller's stack begins at 0.
#[test]
fn the_last_addresses_hold_a_frame(rt: HostRuntime) -> Result<(), Fail> {
    let arch = Arch::Arm64;
    let last = u64::MAX - 15;
    let memory = memory_with(rt.alloc(), last - 16, 32, &[last, 0x3000, 0, 0x2000])?;
    // The frame pointer, and the answer.
    let cases = [
        (last - 16, caller_with(arch, 64, 0x3000, last, last)),
        (last, caller_with(arch, 64, 0x2000, 0, 0)),
        (last + 1, Step::Bad(2)),
        (last + 8, Step::Bad(2)),
        (last - 17, Step::Bad(2)),
    ];
    for (pointer, want) in cases {
        let frame = frame_with(arch, 64, fp_place(arch), pointer);
        assert!(rt; step(&memory, &frame) == want, "{pointer}");
    }
    Ok(())
}
