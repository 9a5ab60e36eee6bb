ghost use Rattle.std.specs.Prelude.{◌^◌, ◌<◌, IsSome, length};
ghost use Rattle.plcr_regs.specs.Frames.{register_at};
ghost use Rattle.plcr_regs.specs.Places.{pc_place};

use super::*;
use crate::fixtures::{bytes, memory_of};
use plcr_macho::{Images, ListImages};
use plcr_memory::{Memory, MemoryFault};
use plcr_regs::{Arch, MOST_REGISTERS, Registers};
use std::alloc::{AllocError, Global};
use std::test::*;

// A memory of 8-byte words from an address on.
fn memory_with(alloc: Global, start: u64, words: &[u64]) -> Result<Memory, MemoryFault> {
    let mut file = Vec::new(alloc);
    for word in words {
        file.extend_from_slice(&word.to_le_bytes())?;
    }
    let len = file.len();
    memory_of(alloc, file, &[bytes(start, 0, len)])
}

/// A state of which pc, the stack pointer and fp are known.
#[tactic(auto, unfolding(plcr_regs::specs::Places::pc_place))]
pub fn state_with(arch: Arch, pc: u64, sp: u64, fp: u64) -> Registers
    ensures { IsSome (register_at result (pc_place result.arch)) }
{
    let mut value = [None; MOST_REGISTERS];
    match arch {
        Arch::X86_64 => {
            value[6] = Some(fp);
            value[7] = Some(sp);
            value[16] = Some(pc);
            Registers { arch, value }
        }
        Arch::Arm64 => {
            value[29] = Some(fp);
            value[31] = Some(sp);
            value[32] = Some(pc);
            Registers { arch, value }
        }
    }
}

/// A frame as the cursor tells it: pc, the address that is looked up, and what told it.
pub type Told = (u64, Option<u64>, Option<u8>);

fn tell(cursor: &Cursor, pc: u64) -> Told {
    (pc, cursor.lookup(), cursor.by())
}

/// The frames of a thread, and whether none was told before the first and after the last, and the
/// same frames where something is kept of the memory, also where each frame's image was located
/// before.
pub fn walked<I: Images>(
    alloc: Global,
    memory: &Memory,
    images: &mut I,
    state: &Registers,
    bits: u8,
) -> Result<(Vec<Told>, bool), AllocError>
    requires few { length (I.images images.old) < 2 ^ 32 }
    requires known { IsSome (register_at state.now (pc_place state.now.arch)) }
{
    let bits = bits.clamp(32, 64);
    images.index(memory, state.arch);
    let mut cursor = Cursor::new(state, bits);
    let mut keeping = Cursor::new(state, bits);
    let mut known = Known::new(memory);
    let mut located = Cursor::new(state, bits);
    let over = located.locate(&mut known, images);
    let mut told = Vec::new(alloc);
    let mut same = cursor.lookup().is_none() && cursor.by().is_none() && over.is_none();
    for _ in 0..=MOST_FRAMES {
        let pc = cursor.next(memory, images);
        let kept = keeping.next_with(&mut known, images);
        same &= pc == kept && tell(&cursor, 0) == tell(&keeping, 0);
        let over = located.locate(&mut known, images);
        same &= pc == located.next_over(&mut known, &over) && tell(&cursor, 0) == tell(&located, 0);
        if let Some(pc) = pc {
            told.push(tell(&cursor, pc))?;
        }
    }
    let none = cursor.next(memory, images).is_none();
    let none_kept = keeping.next_with(&mut known, images).is_none();
    Ok((told, same && none && none_kept))
}

#[test]
fn frames_are_told_until_the_null_page(rt: HostRuntime) -> Result<(), Fail> {
    let alloc = rt.alloc();
    let state = state_with(Arch::Arm64, 0x1_0000_0f50, 0, 0x7100);
    let memory = memory_with(alloc, 0x7100, &[0x7120, 0x2000, 0, 0, 0, 0x1000])?;
    frames_lead();
    let mut images = ListImages::new(&[], &mut []);
    let (told, ends) = walked(alloc, &memory, &mut images, &state, 64)?;
    assert!(rt; ends);
    let want = [
        (0x1_0000_0f50, Some(0x1_0000_0f50), Some(0)),
        (0x2000, Some(0x1fff), Some(3)),
    ];
    assert!(rt; told.as_slice() == want.as_slice());
    Ok(())
}

// A return address with a signature, and without it where 47 bits count.
const SIGNED: u64 = 0x002a_0001_0000_4100;

const PLAIN: u64 = 0x1_0000_4100;

// The architecture and the bits; the pc and the fp; the two words at 0x7100; the pcs that are told.
const ENDS: [(Arch, u8, u64, u64, [u64; 2], &[u64]); 15] = [
    (Arch::Arm64, 64, 9, 0x7100, [0x7100, 0x2000], &[9]),
    (Arch::Arm64, 64, 9, 0x7100, [0x70f0, 0x2000], &[9]),
    (Arch::Arm64, 64, 9, 0, [0, 0x2000], &[9]),
    (Arch::Arm64, 64, 9, 0x7101, [0, 0x2000], &[9]),
    (Arch::Arm64, 64, 9, u64::MAX - 15, [0, 0x2000], &[9]),
    (Arch::Arm64, 64, 0, 0x7100, [0, 4096], &[0]),
    (Arch::Arm64, 64, 9, 0x7100, [0, 4097], &[9, 4097]),
    (Arch::X86_64, 64, 9, 0x7100, [0, 4096], &[9]),
    (Arch::X86_64, 64, 9, 0x7100, [0, 4097], &[9, 4097]),
    (
        Arch::Arm64,
        47,
        SIGNED,
        0x7100,
        [0x7120, SIGNED],
        &[PLAIN, PLAIN],
    ),
    (
        Arch::Arm64,
        32,
        SIGNED,
        0x7100,
        [0, SIGNED],
        &[0x4100, 0x4100],
    ),
    (
        Arch::Arm64,
        64,
        SIGNED,
        0x7100,
        [0, SIGNED],
        &[SIGNED, SIGNED],
    ),
    (
        Arch::X86_64,
        47,
        SIGNED,
        0x7100,
        [0, SIGNED],
        &[SIGNED, SIGNED],
    ),
    (
        Arch::Arm64,
        47,
        9,
        0x7100,
        [0x7120, 0x7f80_0000_0000_1000],
        &[9],
    ),
    (
        Arch::Arm64,
        47,
        9,
        0x7100,
        [0x7120, 0x7f80_0000_0000_1001],
        &[9, 4097],
    ),
];

// Where a walk ends, and what of the pcs counts.
#[test]
fn frames_end_where_they_must(rt: HostRuntime) -> Result<(), Fail> {
    let alloc = rt.alloc();
    for (arch, bits, pc, fp, words, pcs) in ENDS {
        let state = state_with(arch, pc, 0, fp);
        let memory = memory_with(alloc, 0x7100, &words)?;
        let mut images = ListImages::new(&[], &mut []);
        let (told, ends) = walked(alloc, &memory, &mut images, &state, bits)?;
        assert!(rt; ends);
        let same = told.len() == pcs.len() && told.iter().zip(pcs).all(|(t, pc)| t.0 == *pc);
        assert!(rt; same, "{pc} {fp} {}", told.len());
    }
    Ok(())
}

// 600 saved frames, each 16 bytes above the one before: 512 frames with the state's.
#[test]
fn a_thread_has_a_most_of_frames(rt: HostRuntime) -> Result<(), Fail> {
    let alloc = rt.alloc();
    let mut words = Vec::new(alloc);
    for i in 0..600u64 {
        words.push(0x7000 + 16 * (i + 1))?;
        words.push(0x1_0000 + i)?;
    }
    let memory = memory_with(alloc, 0x7000, words.as_slice())?;
    let state = state_with(Arch::X86_64, 0x1_0000_0f50, 0, 0x7000);
    let mut images = ListImages::new(&[], &mut []);
    let (told, ends) = walked(alloc, &memory, &mut images, &state, 64)?;
    assert!(rt; ends);
    assert_eq!(rt; told.len(), 512);
    assert!(rt; told.last() == Some(&(0x1_0000 + 510, Some(0x1_0000 + 509), Some(3))));
    Ok(())
}
