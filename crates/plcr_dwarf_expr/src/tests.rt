mod tables;

use super::*;
use plcr_memory::{Memory, MemoryFault, Region, are_backed};
use plcr_regs::{Arch, MOST_REGISTERS, Registers};
use std::alloc::{AllocError, Global};
use std::test::Fail;
use tables::{FAULTS, VALUES};

const CODE: u64 = 0x2000;

// Eight bytes stand at 0xa000.
const DATA: [u8; 8] = [0x88, 0x77, 0x66, 0x55, 0x44, 0x33, 0x22, 0x11];

// Registers by their places, from 0xa0 on; of x86-64 rdx is unknown.
fn registers(arch: Arch) -> Registers {
    let mut value = [None; MOST_REGISTERS];
    for i in 0..value.len() {
        value[i] = Some(0xa0 + i as u64);
    }
    if arch == Arch::X86_64 {
        value[3] = None;
    }
    Registers { arch, value }
}

// The code at an address, in as many regions as it has pieces, and the data.
fn memory_of(alloc: Global, at: u64, pieces: &[&[u8]]) -> Result<Memory, MemoryFault> {
    let mut file = DATA.to_vec(alloc)?;
    let mut regions = Vec::new(alloc);
    regions.push(Region {
        start: 0xa000,
        size: 8,
        from: 0,
        len: 8,
    })?;
    let mut start = at;
    for piece in pieces {
        if piece.is_empty() {
            continue;
        }
        regions.push(Region {
            start,
            size: piece.len() as u64,
            from: file.len(),
            len: piece.len(),
        })?;
        file.extend_from_slice(piece)?;
        start = start.wrapping_add(piece.len() as u64);
    }
    if are_backed(file.as_slice(), regions.as_slice()) {
        Memory::new(alloc, file, regions)
    } else {
        Err(MemoryFault::Memory)
    }
}

// The answer for the code, which is the same where the code stands in one region and where it
// stands in two.
fn answer(
    alloc: Global,
    code: &[u8],
    start: Option<u64>,
) -> Result<Option<Result<u64, ExprFault>>, MemoryFault> {
    let registers = registers(Arch::X86_64);
    let size = code.len() as u64;
    let memory = memory_of(alloc, CODE, &[code])?;
    let whole = eval(&memory, &registers, CODE, size, start);
    let (front, rest) = code.split_at(code.len() / 2);
    let memory = memory_of(alloc, CODE, &[front, rest])?;
    let parts = eval(&memory, &registers, CODE, size, start);
    Ok(if whole == parts { Some(whole) } else { None })
}

#[test]
fn each_operation_has_its_value(rt: HostRuntime) -> Result<(), Fail> {
    for (code, value) in VALUES {
        assert_eq!(rt;
            answer(rt.alloc(), code, None)?,
            Some(Ok(value)),
            "{code:?}"
        );
    }
    Ok(())
}

#[test]
fn each_fault_has_its_place(rt: HostRuntime) -> Result<(), Fail> {
    for (code, fault) in FAULTS {
        assert_eq!(rt;
            answer(rt.alloc(), code, None)?,
            Some(Err(fault)),
            "{code:?}"
        );
    }
    runs_have_values();
    Ok(())
}

#[test]
fn other_opcodes_are_unknown(rt: HostRuntime) -> Result<(), Fail> {
    for op in 0..=255u8 {
        let known = matches!(
            op,
            0x03 | 0x06 | 0x08..=0x17 | 0x19..=0x90 | 0x92 | 0x94 | 0x96
        );
        let unknown = answer(rt.alloc(), &[op], Some(0))? == Some(Err(ExprFault::Unknown { op }));
        assert_eq!(rt; unknown, !known, "{op}");
    }
    Ok(())
}

#[test]
fn a_start_value_is_on_the_stack(rt: HostRuntime) -> Result<(), Fail> {
    let rows: [(&[u8], Option<u64>, Result<u64, ExprFault>); 6] = [
        (&[], Some(7), Ok(7)),
        (&[], None, Err(ExprFault::Underflow)),
        (
            &[0x06],
            Some(0x9000),
            Err(ExprFault::Unmapped { at: 0x9000 }),
        ),
        (&[0x06], Some(0xa000), Ok(0x1122_3344_5566_7788)),
        (&[0x08, 0x05, 0x1c], Some(7), Ok(2)),
        // It counts down to 0: 1 is taken away, and where 0 isn't left, once more.
        (&[0x31, 0x1c, 0x12, 0x28, 0xfa, 0xff], Some(200), Ok(0)),
    ];
    for (code, start, want) in rows {
        assert_eq!(rt; answer(rt.alloc(), code, start)?, Some(want), "{code:?}");
    }
    Ok(())
}

// So many bytes of one kind, and then others.
fn repeated(alloc: Global, byte: u8, count: usize, rest: &[u8]) -> Result<Vec<u8>, AllocError> {
    let mut code = vec![in alloc; byte; count]?;
    code.extend_from_slice(rest)?;
    Ok(code)
}

#[test]
fn limits_are_exact(rt: HostRuntime) -> Result<(), Fail> {
    let rows: [(u8, usize, &[u8], Option<u64>, Result<u64, ExprFault>); 16] = [
        // Values: lit5.
        (0x35, 64, &[], None, Ok(5)),
        (0x35, 65, &[], None, Err(ExprFault::Overflow)),
        (0x35, 63, &[], Some(7), Ok(5)),
        (0x35, 64, &[], Some(7), Err(ExprFault::Overflow)),
        (0x35, 64, &[0x12], None, Err(ExprFault::Overflow)),
        (0x35, 64, &[0x15, 63], None, Err(ExprFault::Overflow)),
        (0x35, 64, &[0x15, 64], None, Err(ExprFault::Underflow)),
        (0x35, 64, &[0x50], None, Err(ExprFault::Overflow)),
        // Room is tested before the register.
        (0x35, 64, &[0x51], None, Err(ExprFault::Overflow)),
        (0x35, 64, &[0x1a, 0x31, 0x1c], None, Ok(4)),
        // Operations: nop.
        (0x96, 1000, &[], Some(7), Ok(7)),
        (0x96, 1001, &[], Some(7), Err(ExprFault::Budget)),
        (0x96, 999, &[0x08], Some(7), Err(ExprFault::Truncated)),
        (0x96, 1000, &[0x08], Some(7), Err(ExprFault::Budget)),
        (0x96, 1000, &[0x18], Some(7), Err(ExprFault::Budget)),
        (0x96, 1000, &[], None, Err(ExprFault::Underflow)),
    ];
    for (byte, count, rest, start, want) in rows {
        let code = repeated(rt.alloc(), byte, count, rest)?;
        assert_eq!(rt;
            answer(rt.alloc(), code.as_slice(), start)?,
            Some(want),
            "{count} {rest:?}"
        );
    }
    Ok(())
}

#[test]
fn code_ends_with_memory(rt: HostRuntime) -> Result<(), Fail> {
    let registers = registers(Arch::X86_64);
    // Code, how many bytes it is said to have, and the answer.
    let rows: [(&[u8], u64, Result<u64, ExprFault>); 7] = [
        (&[0x35, 0x36], 2, Ok(6)),
        (&[0x35, 0x36], 3, Err(ExprFault::Truncated)),
        (&[0x35, 0x36], u64::MAX, Err(ExprFault::Truncated)),
        (&[0x35, 0x0a, 0x36], 3, Err(ExprFault::Truncated)),
        (&[0x35, 0x0a, 0x36], 4, Err(ExprFault::Truncated)),
        // The end of the code is a place to jump to, whether or not bytes are mapped before it.
        (&[0x35, 0x2f, 0x02, 0x00], 6, Ok(5)),
        (&[0x35, 0x2f, 0x03, 0x00], 6, Err(ExprFault::BadJump)),
    ];
    for (code, size, want) in rows {
        let size_of = code.len() as u64;
        // Behind the code nothing is mapped, be it at the last addresses or at 0.
        for at in [CODE, 0u64.wrapping_sub(size_of)] {
            let memory = memory_of(rt.alloc(), at, &[code])?;
            assert_eq!(rt;
                eval(&memory, &registers, at, size, None),
                want,
                "{code:?} {size}"
            );
        }
    }
    Ok(())
}

#[test]
fn behind_the_last_address_comes_0(rt: HostRuntime) -> Result<(), Fail> {
    let registers = registers(Arch::X86_64);
    // Code at the last addresses, code from 0 on, and the answer.
    let rows: [(&[u8], &[u8], Result<u64, ExprFault>); 8] = [
        (&[0x35], &[0x36], Ok(6)),
        (&[0x10, 0xff], &[0x7f], Ok(16383)),
        (&[0x35], &[0x2f, 0x01, 0x00, 0x36, 0x37], Ok(7)),
        (&[0x35, 0x2f], &[0x01, 0x00, 0x36, 0x37], Ok(7)),
        (&[0x35, 0x36], &[0x2f, 0xfc, 0xff], Err(ExprFault::Overflow)),
        // An operand of a fixed size that passes 2^64 isn't mapped.
        (&[0x0a, 0xff], &[0x7f], Err(ExprFault::Truncated)),
        (
            &[0x35, 0x2f, 0x01],
            &[0x00, 0x36],
            Err(ExprFault::Truncated),
        ),
        (&[0x35], &[0x0a, 0x36], Err(ExprFault::Truncated)),
    ];
    for (last, first, want) in rows {
        let size_of = last.len() as u64;
        let size = size_of.wrapping_add(first.len() as u64);
        let at = 0u64.wrapping_sub(size_of);
        let memory = memory_of(rt.alloc(), at, &[last, first])?;
        assert_eq!(rt;
            eval(&memory, &registers, at, size, None),
            want,
            "{last:?} {first:?}"
        );
    }
    Ok(())
}

#[test]
fn registers_go_by_the_architecture(rt: HostRuntime) -> Result<(), Fail> {
    let registers = registers(Arch::Arm64);
    let rows: [(&[u8], Result<u64, ExprFault>); 5] = [
        (&[0x51], Ok(0xa1)),
        (&[0x6f], Ok(0xbf)),
        (&[0x8f, 0x01], Ok(0xc0)),
        (&[0x90, 0x1f], Ok(0xbf)),
        (&[0x90, 0x20], Err(ExprFault::NoRegister)),
    ];
    for (code, want) in rows {
        let memory = memory_of(rt.alloc(), CODE, &[code])?;
        let size = code.len() as u64;
        assert_eq!(rt;
            eval(&memory, &registers, CODE, size, None),
            want,
            "{code:?}"
        );
    }
    Ok(())
}

#[test]
fn faults_are_numbered(rt: HostRuntime) {
    let faults = [
        ExprFault::Truncated,
        ExprFault::Unknown { op: 9 },
        ExprFault::Underflow,
        ExprFault::Overflow,
        ExprFault::Unmapped { at: 9 },
        ExprFault::NoRegister,
        ExprFault::DivideByZero,
        ExprFault::Budget,
        ExprFault::BadJump,
    ];
    for (i, fault) in faults.iter().enumerate() {
        assert_eq!(rt; fault.number() as usize, i + 1);
    }
}
