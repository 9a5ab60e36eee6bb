//! The threads of cores.

use super::*;
use crate::fixtures::{ARM64, X86_64, add_segment, add_words, fault_in, words_file};
use plcr_regs::{Arch, Registers};
use std::alloc::{AllocError, Global};
use std::test::*;

// The 176 bytes of an accepted group with that rip.
fn add_group(file: &mut Vec<u8>, rip: u64) -> Result<(), AllocError> {
    add_words(file, &[4, 42])?;
    for i in 0..21 {
        let number = if i == 16 { rip } else { 0 };
        file.extend_from_slice(&number.to_le_bytes())?;
    }
    Ok(())
}

// A core of so many threads, of one accepted group each.
fn threads_file(alloc: Global, count: u32) -> Result<Vec<u8>, AllocError> {
    let mut file = words_file(alloc, X86_64, count, count.saturating_mul(184), &[])?;
    for i in 0..count {
        add_words(&mut file, &[4, 184])?;
        add_group(&mut file, u64::from(i))?;
    }
    Ok(file)
}

// How many threads the core has, and the rip of the first.
fn first_of(alloc: Global, file: Vec<u8>) -> Result<(usize, Option<u64>), CoreFault> {
    let core = read_core(alloc, file)?;
    let rip = core.threads.first().and_then(|thread| thread.value[16]);
    Ok((core.threads.len(), rip))
}

#[test]
fn threads_are_the_first_accepted_groups(rt: HostRuntime) -> Result<(), Fail> {
    let alloc = rt.alloc();
    let mut unix = words_file(alloc, X86_64, 1, 184, &[5, 184])?;
    add_group(&mut unix, 7)?;
    assert_eq!(rt; first_of(alloc, unix), Ok((1, Some(7))));
    let mut later = words_file(alloc, X86_64, 1, 196, &[4, 196, 9, 1, 0])?;
    add_group(&mut later, 8)?;
    assert_eq!(rt; first_of(alloc, later), Ok((1, Some(8))));
    let mut two = words_file(alloc, X86_64, 1, 364, &[4, 364])?;
    add_group(&mut two, 9)?;
    add_group(&mut two, 10)?;
    add_words(&mut two, &[4])?;
    assert_eq!(rt; first_of(alloc, two), Ok((1, Some(9))));
    assert_eq!(rt;
        first_of(alloc, threads_file(alloc, 4096)?),
        Ok((4096, Some(0)))
    );
    let many = Err(CoreFault::TooManyThreads { count: 4097 });
    assert_eq!(rt; first_of(alloc, threads_file(alloc, 4097)?), many);
    // All groups are counted, however many there are.
    let more = Err(CoreFault::TooManyThreads { count: 65_536 });
    assert_eq!(rt; first_of(alloc, threads_file(alloc, 65_536)?), more);
    Ok(())
}

// Appends so many 8-byte numbers, all 0 but some by their places.
fn add_numbers(file: &mut Vec<u8>, count: usize, known: &[(usize, u64)]) -> Result<(), AllocError> {
    for i in 0..count {
        let number = match known.iter().find(|k| k.0 == i) {
            Some((_, number)) => *number,
            None => 0,
        };
        file.extend_from_slice(&number.to_le_bytes())?;
    }
    Ok(())
}

// A core of that processor with one thread command of so many bytes: these words, and then so many
// numbers.
fn state_file(
    alloc: Global,
    cputype: u32,
    size: u32,
    words: &[u32],
    count: usize,
    known: &[(usize, u64)],
) -> Result<Vec<u8>, AllocError> {
    let mut file = words_file(alloc, cputype, 1, size, &[4, size])?;
    add_words(&mut file, words)?;
    add_numbers(&mut file, count, known)?;
    Ok(file)
}

// fp 0x7100, sp 0x7000, pc 0x100000f50, and cpsr 0x60000000 with a pad word of no meaning.
const ARM64_KNOWN: [(usize, u64); 4] = [
    (29, 0x7100),
    (31, 0x7000),
    (32, 0x1_0000_0f50),
    (33, 0xffff_ffff_6000_0000),
];

#[test]
fn an_arm64_core_has_its_thread(rt: HostRuntime) -> Result<(), Fail> {
    let alloc = rt.alloc();
    let mut file = words_file(alloc, ARM64, 2, 360, &[])?;
    add_segment(&mut file, [0x7000, 0x1000, 0, 0])?;
    add_words(&mut file, &[4, 288, 6, 68])?;
    add_numbers(&mut file, 34, &ARM64_KNOWN)?;
    assert_eq!(rt; file.len(), 392);
    let core = read_core(alloc, file).ok().ok_or("the bytes are a core")?;
    assert!(rt; core.arch == Arch::Arm64);
    assert_eq!(rt; core.memory.read_u64(0x7ff8), Some(0));
    let mut value = [Some(0); 34];
    value[29] = Some(0x7100);
    value[31] = Some(0x7000);
    value[32] = Some(0x1_0000_0f50);
    value[33] = Some(0x6000_0000);
    let state = Registers {
        arch: Arch::Arm64,
        value,
    };
    assert!(rt; core.threads.as_slice() == [state].as_slice());
    let wrapped = state_file(alloc, ARM64, 296, &[1, 70, 6, 68], 34, &ARM64_KNOWN)?;
    let core = read_core(alloc, wrapped)
        .ok()
        .ok_or("the bytes are a core")?;
    assert!(rt; core.threads.as_slice() == [state].as_slice());
    Ok(())
}

// A core of that processor with one thread command of so many bytes: the words before a state, and
// how many 8-byte numbers the state has. No state of it is read.
#[derive(Clone, Copy)]
struct Unread<'a> {
    cputype: u32,
    size: u32,
    words: &'a [u32],
    count: usize,
}

// The registers of the first thread.
fn values_of(alloc: Global, file: Vec<u8>) -> Result<Option<[Option<u64>; 34]>, CoreFault> {
    let core = read_core(alloc, file)?;
    Ok(core.threads.first().map(|thread| thread.value))
}

// A state in a wrapping state is that state, and cores whose states are those of another processor
// or width.
#[test]
fn states_go_by_the_processor(rt: HostRuntime) -> Result<(), Fail> {
    let alloc = rt.alloc();
    let known = [(16, 7)];
    let wrapped = state_file(alloc, X86_64, 192, &[7, 44, 4, 42], 21, &known)?;
    let plain = state_file(alloc, X86_64, 184, &[4, 42], 21, &known)?;
    let (whole, values) = (values_of(alloc, wrapped), values_of(alloc, plain));
    assert!(rt; whole.is_ok() && whole == values);
    assert!(rt; whole.is_ok_and(|values| values.is_some_and(|value| value[16] == Some(7))));
    let none = [
        // A state of 32-bit registers, whose flavor is 1 on both.
        Unread {
            cputype: X86_64,
            size: 192,
            words: &[7, 44, 1, 42],
            count: 21,
        },
        // A count that isn't the state's.
        Unread {
            cputype: X86_64,
            size: 192,
            words: &[7, 44, 4, 41],
            count: 21,
        },
        // States of the other processor.
        Unread {
            cputype: X86_64,
            size: 288,
            words: &[6, 68],
            count: 34,
        },
        Unread {
            cputype: X86_64,
            size: 296,
            words: &[1, 70, 6, 68],
            count: 34,
        },
        Unread {
            cputype: ARM64,
            size: 296,
            words: &[1, 70, 1, 68],
            count: 34,
        },
        Unread {
            cputype: ARM64,
            size: 184,
            words: &[4, 42],
            count: 21,
        },
        Unread {
            cputype: ARM64,
            size: 192,
            words: &[7, 44, 4, 42],
            count: 21,
        },
    ];
    for case in none {
        let Unread {
            cputype,
            size,
            words,
            count,
        } = case;
        let file = state_file(alloc, cputype, size, words, count, &known)?;
        assert_eq!(rt; fault_in(alloc, file), Some(CoreFault::NoThread));
    }
    // ARM of 32 bits
    let other = words_file(alloc, 12, 0, 0, &[])?;
    assert_eq!(rt;
        fault_in(alloc, other),
        Some(CoreFault::OtherCpu { cpu: 12 })
    );
    Ok(())
}
