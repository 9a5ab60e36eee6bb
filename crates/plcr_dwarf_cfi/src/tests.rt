use crate::cases::{INSTRUCTION_FAULTS, ROWS};
use crate::fixtures::*;
use crate::{find, instructions_are_spelled, rows_end_at_locations, step, step_from};
use plcr_macho::Part;
use plcr_regs::{Arch, Frame, Step};
use std::alloc::Global;
use std::test::*;

const X86: Arch = Arch::X86_64;

// Instructions of a function that saves rbp, and gives it back before it ends.
const SAVES_RBP: &[u8] = &[
    0x41, 0x0e, 0x10, 0x86, 2, 0x43, 0x0d, 6, 0x0a, 0x48, 0x0c, 7, 8, 0xc6, 0x41, 0x0b,
];

#[test]
fn rows_of_a_function(rt: HostRuntime) -> Result<(), Fail> {
    instructions_are_spelled();
    rows_end_at_locations();
    let section = function(rt.alloc(), COMMON, SAVES_RBP)?;
    // How far the function has come, and what is known of the frame and of its caller.
    let at_end = answer(
        rt.alloc(),
        section.as_slice(),
        X86,
        F + 12,
        &[(6, 0xb0), (7, 0x7100)],
    )?;
    let caller = [(6, 0xb0), (7, 0x7108), (16, WORD + 0x7100)];
    assert!(rt; at_end == Step::Frame(frame(X86, false, &caller)));
    let restored = answer(rt.alloc(), section.as_slice(), X86, F + 13, &[(6, 0x7100)])?;
    let caller = [(6, WORD + 0x7100), (7, 0x7110), (16, WORD + 0x7108)];
    assert!(rt; restored == Step::Frame(frame(X86, false, &caller)));
    let begun = answer(
        rt.alloc(),
        section.as_slice(),
        X86,
        F,
        &[(6, 0xb0), (7, 0x7100)],
    )?;
    assert!(rt; begun == at_end);
    let pushed = answer(
        rt.alloc(),
        section.as_slice(),
        X86,
        F + 1,
        &[(6, 0xb0), (7, 0x7100)],
    )?;
    let caller = [(6, WORD + 0x7100), (7, 0x7110), (16, WORD + 0x7108)];
    assert!(rt; pushed == Step::Frame(frame(X86, false, &caller)));
    // With another rule rbp is the canonical frame address less 16.
    let less = function(rt.alloc(), COMMON, &[0x14, 6, 2])?;
    let found = answer(
        rt.alloc(),
        less.as_slice(),
        X86,
        F,
        &[(6, 0xb0), (7, 0x7100)],
    )?;
    let caller = [(6, 0x70f8), (7, 0x7108), (16, WORD + 0x7100)];
    assert!(rt; found == Step::Frame(frame(X86, false, &caller)));
    // The function ends behind 32 bytes.
    for outside in [F - 1, F + 32] {
        let found = answer(rt.alloc(), section.as_slice(), X86, outside, &[(7, 0x7100)])?;
        assert!(rt; found == Step::Bad(3));
    }
    let last = answer(rt.alloc(), section.as_slice(), X86, F + 31, &[(6, 0x7100)])?;
    assert!(rt; last == restored);
    Ok(())
}

// The fields of the same common information entry, which says that a signal interrupts what it
// describes.
const SIGNAL_COMMON: &[u8] = &[1, b'z', b'S', 0, 1, 0x78, 16, 0, 0x0c, 7, 8, 0x90, 1];

#[test]
fn the_caller_of_a_signal_frame_is_exact(rt: HostRuntime) -> Result<(), Fail> {
    let mut rest = Vec::new(rt.alloc());
    rest.push(0)?;
    rest.extend_from_slice(SAVES_RBP)?;
    let section = function(rt.alloc(), SIGNAL_COMMON, rest.as_slice())?;
    let at_end = answer(
        rt.alloc(),
        section.as_slice(),
        X86,
        F + 12,
        &[(6, 0xb0), (7, 0x7100)],
    )?;
    let caller = frame(X86, true, &[(6, 0xb0), (7, 0x7108), (16, WORD + 0x7100)]);
    assert!(rt; at_end == Step::Frame(caller));
    assert_eq!(rt; caller.lookup(), Some(WORD + 0x7100));
    let restored = answer(rt.alloc(), section.as_slice(), X86, F + 13, &[(6, 0x7100)])?;
    let caller = [(6, WORD + 0x7100), (7, 0x7110), (16, WORD + 0x7108)];
    assert!(rt; restored == Step::Frame(frame(X86, true, &caller)));
    Ok(())
}

// What is known of the frame in the tests of instructions: rax, rbx, rbp, rsp, r12 and rip. rdx is
// unknown.
const KNOWN: &[(usize, u64)] = &[(0, 0xa0), (1, 0xb1), (6, 0x7140), (7, 0x7100), (12, 0xc1)];

// Of its caller: rbx, rbp, rsp, r12 and rip.
fn caller(rbx: u64, rsp: u64, rip: u64) -> Step {
    let known = [(1, rbx), (6, 0x7140), (7, rsp), (12, 0xc1), (16, rip)];
    Step::Frame(frame(X86, false, &known))
}

// The answer at the 8th byte of the function, by its instructions.
fn by_instructions(alloc: Global, instructions: &[u8]) -> Result<Step, Fail> {
    let section = function(alloc, COMMON, instructions)?;
    Ok(answer(alloc, section.as_slice(), X86, F + 8, KNOWN)?)
}

#[test]
fn instructions_make_a_row(rt: HostRuntime) -> Result<(), Fail> {
    for (instructions, rbx, rsp, back) in ROWS {
        let found = by_instructions(rt.alloc(), instructions)?;
        assert!(rt;
            found == caller(rbx, rsp, WORD.wrapping_add(back)),
            "{instructions:?}"
        );
    }
    Ok(())
}

#[test]
fn some_rules_leave_registers_unknown(rt: HostRuntime) -> Result<(), Fail> {
    let rip = (16, WORD + 0x7100);
    // Instructions, and what is known of the caller.
    let cases: [(&[u8], &[(usize, u64)]); 5] = [
        (&[0x07, 3], &[(6, 0x7140), (7, 0x7108), (12, 0xc1), rip]),
        (
            &[0x09, 3, 7, 0x08, 0, 0x08, 1],
            &[
                (0, 0xa0),
                (1, 0x7100),
                (6, 0x7140),
                (7, 0x7108),
                (12, 0xc1),
                rip,
            ],
        ),
        // The stack pointer is the canonical frame address where no rule says otherwise.
        (
            &[0x08, 7],
            &[(1, 0xb1), (6, 0x7140), (7, 0x7100), (12, 0xc1), rip],
        ),
        (&[0x07, 7], &[(1, 0xb1), (6, 0x7140), (12, 0xc1), rip]),
        (
            &[0x14, 7, 1],
            &[(1, 0xb1), (6, 0x7140), (7, 0x7100), (12, 0xc1), rip],
        ),
    ];
    for (instructions, known) in cases {
        let found = by_instructions(rt.alloc(), instructions)?;
        assert!(rt;
            found == Step::Frame(frame(X86, false, known)),
            "{instructions:?}"
        );
    }
    let none = by_instructions(rt.alloc(), &[0x07, 16])?;
    assert!(rt; none == Step::End);
    // An undefined return address comes before all faults of the row.
    let none = by_instructions(rt.alloc(), &[0x0f, 0, 0x07, 16])?;
    assert!(rt; none == Step::End);
    Ok(())
}

#[test]
fn faults_of_instructions_have_their_numbers(rt: HostRuntime) -> Result<(), Fail> {
    for (instructions, number) in INSTRUCTION_FAULTS {
        let found = by_instructions(rt.alloc(), instructions)?;
        assert!(rt; found == Step::Bad(number), "{instructions:?}");
    }
    // Sixteen rows are remembered.
    let found = by_instructions(rt.alloc(), &[0x0a; 16])?;
    assert!(rt; found == caller(0xb1, 0x7108, WORD + 0x7100));
    // An expression of 65 numbers, one more than its room.
    let mut pushes = [0x30; 67];
    pushes[0] = 0x0f;
    pushes[1] = 65;
    let found = by_instructions(rt.alloc(), &pushes)?;
    assert!(rt; found == Step::Bad(24));
    Ok(())
}

// Of several faults the first counts in the order in which the caller is found.
#[test]
fn faults_come_in_their_order(rt: HostRuntime) -> Result<(), Fail> {
    let cases: [(&[u8], u8); 6] = [
        (&[0x09, 3, 1, 0x0c, 17, 0], 9),
        (&[0x09, 3, 1, 0x0c, 1, 0], 13),
        (&[0x09, 3, 1, 0x0f, 0], 23),
        (&[0x16, 6, 0, 0x83, 0x80, 0x10], 12),
        (&[0x16, 3, 1, 0x13, 0x86, 0x80, 0x10], 23),
        (&[0x16, 3, 1, 0x13, 0x0b], 8),
    ];
    for (instructions, number) in cases {
        let found = by_instructions(rt.alloc(), instructions)?;
        assert!(rt; found == Step::Bad(number), "{instructions:?}");
    }
    Ok(())
}

// What was found may be kept, and leads to the same caller.
#[test]
fn found_entries_lead_to_callers(rt: HostRuntime) -> Result<(), Fail> {
    let section = function(rt.alloc(), COMMON, SAVES_RBP)?;
    let memory = memory_with(rt.alloc(), section.as_slice())?;
    let size = section.len() as u64;
    let part = Part { at: SECTION, size };
    for (address, registers) in [
        (F + 12, [(6, 0xb0), (7, 0x7100), (16, F + 12)]),
        (F + 13, [(6, 0x7100), (7, 0x7100), (16, F + 13)]),
        (F + 99, [(6, 0x7100), (7, 0x7100), (16, F + 99)]),
    ] {
        let found = find(&memory, &part, address);
        let frame = frame(X86, true, &registers);
        let whole = answer_in(&memory, size, X86, address, &registers);
        let Some(_) = frame.lookup() else {
            return Err(Fail::from("no lookup"));
        };
        assert!(rt; step_from(&memory, &part, &frame, &found) == whole);
        assert_eq!(rt; found.is_ok(), address < F + 32);
    }
    Ok(())
}

// A call may be the last instruction of its function, so that a return address is looked up by the
// byte before it.
#[test]
fn an_inexact_frame_is_looked_up_one_byte_before(rt: HostRuntime) -> Result<(), Fail> {
    let section = function(rt.alloc(), COMMON, &[0x48, 0x0e, 32])?;
    let memory = memory_with(rt.alloc(), section.as_slice())?;
    let image = image(section.len() as u64);
    for (pc, exact, rsp) in [
        (F + 8, true, 0x7120),
        (F + 8, false, 0x7108),
        (F + 32, false, 0x7120),
    ] {
        let frame = frame(
            X86,
            exact,
            &[(1, 0xb1), (6, 0x7140), (7, 0x7100), (12, 0xc1), (16, pc)],
        );
        let Some(_) = frame.lookup() else {
            return Err(Fail::from("no lookup"));
        };
        let found = step(&memory, &image, &frame);
        assert!(rt; found == caller(0xb1, rsp, WORD + rsp - 8), "{pc}");
    }
    Ok(())
}
