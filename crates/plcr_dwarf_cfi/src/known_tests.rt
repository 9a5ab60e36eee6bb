use crate::fixtures::*;
use crate::{KnownDescriptions, step};
use plcr_regs::{Arch, Frame};
use std::alloc::{AllocError, Global};
use std::test::*;

const X86: Arch = Arch::X86_64;

// How many descriptions there are: each has 64 bytes of code, and those of some lie within others.
const DESCRIPTIONS: u64 = 150;

// The code of the description at an index, in an order of its own. Each tenth has no code, and each
// ninth 200 bytes.
fn code_of(index: u64) -> (u64, u64) {
    let start = F + 64 * (index.wrapping_mul(77) % DESCRIPTIONS);
    if index % 10 == 9 {
        (start, 0)
    } else if index % 9 == 8 {
        (start, 200)
    } else {
        (start, 64)
    }
}

// A section of many descriptions, each of which leaves the canonical frame address elsewhere, and a
// bad entry behind them.
fn many(alloc: Global) -> Result<Vec<u8>, AllocError> {
    let mut section = Vec::new(alloc);
    put_entry(&mut section, 0, COMMON)?;
    for index in 0..DESCRIPTIONS {
        let (start, range) = code_of(index);
        let mut fields = Vec::new(alloc);
        fields.extend_from_slice(&start.to_le_bytes())?;
        fields.extend_from_slice(&range.to_le_bytes())?;
        fields.extend_from_slice(&[0x0e, (index % 16 * 8) as u8])?;
        let id = size_of(section.as_slice()).wrapping_add(4);
        put_entry(&mut section, id, fields.as_slice())?;
    }
    put_entry(&mut section, 0, &[9])?;
    Ok(section)
}

fn frame_at(pc: u64) -> Frame {
    frame(X86, true, &[(7, 0x7100), (16, pc)])
}

// Whatever is kept, the answers are those of a search from the start.
#[test]
fn what_is_kept_changes_no_answer(rt: HostRuntime) -> Result<(), Fail> {
    let section = many(rt.alloc())?;
    let memory = memory_with(rt.alloc(), section.as_slice())?;
    let whole = image(section.len() as u64);
    // The section's front is another section.
    let front = image(700);
    let mut known = KnownDescriptions::new(&memory);
    for turn in 0..600u64 {
        let pc = F - 64 + turn.wrapping_mul(7919) % 9800;
        let frame = frame_at(pc);
        let Some(_) = frame.lookup() else {
            return Err(Fail::from("no lookup"));
        };
        assert!(rt;
            known.step(&whole, &frame) == step(&memory, &whole, &frame),
            "{pc}"
        );
        assert!(rt;
            known.step(&front, &frame) == step(&memory, &front, &frame),
            "{pc}"
        );
    }
    Ok(())
}
