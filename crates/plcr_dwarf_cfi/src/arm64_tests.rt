use crate::fixtures::*;
use plcr_regs::{Arch, Step};
use std::alloc::Global;
use std::test::*;

// The caller of an arm64 frame at the function's start.
fn on_arm64(
    alloc: Global,
    common: &[u8],
    instructions: &[u8],
    known: &[(usize, u64)],
) -> Result<Step, Fail> {
    let section = function(alloc, common, instructions)?;
    Ok(answer(alloc, section.as_slice(), Arch::Arm64, F, known)?)
}

#[test]
fn arm64_returns_to_its_link_register(rt: HostRuntime) -> Result<(), Fail> {
    let arm = Arch::Arm64;
    // Return column 30, and the canonical frame address is sp.
    let common = &[1, 0, 1, 0x78, 30, 0x0c, 31, 0];
    let signed = 0x002a_0001_0000_4100;
    let known = [
        (19, 0x19),
        (20, 0x20),
        (29, 0x7140),
        (30, signed),
        (31, 0x7100),
    ];
    let found = on_arm64(rt.alloc(), common, &[], &known)?;
    let caller = [
        (19, 0x19),
        (20, 0x20),
        (29, 0x7140),
        (31, 0x7100),
        (32, 0x1_0000_4100),
    ];
    assert!(rt; found == Step::Frame(frame(arm, false, &caller)));
    // With a rule for it, lr is known and pc is its value without a signature.
    let saved = [0x0e, 16, 0x9e, 1, 0x9d, 2];
    let found = on_arm64(rt.alloc(), common, &saved, &known)?;
    let back = WORD + 0x7108;
    let caller = [
        (19, 0x19),
        (20, 0x20),
        (29, WORD + 0x7100),
        (30, back),
        (31, 0x7110),
        (32, back),
    ];
    assert!(rt; found == Step::Frame(frame(arm, false, &caller)));
    let same = on_arm64(rt.alloc(), common, &[0x08, 30], &known)?;
    let caller = [
        (19, 0x19),
        (20, 0x20),
        (29, 0x7140),
        (30, signed),
        (31, 0x7100),
        (32, 0x1_0000_4100),
    ];
    assert!(rt; same == Step::Frame(frame(arm, false, &caller)));
    let none = on_arm64(rt.alloc(), common, &[0x07, 30], &known)?;
    assert!(rt; none == Step::End);
    // Unknown return addresses.
    let unknown = [(29, 0x7140), (31, 0x7100)];
    for instructions in [[0, 0].as_slice(), &[0x08, 30], &[0x09, 30, 30]] {
        let found = on_arm64(rt.alloc(), common, instructions, &unknown)?;
        assert!(rt; found == Step::Bad(13), "{instructions:?}");
    }
    // Another column stands for nothing.
    let other = &[1, 0, 1, 0x78, 29, 0x0c, 31, 0];
    let found = on_arm64(rt.alloc(), other, &[], &known)?;
    assert!(rt; found == Step::Bad(13));
    let high = &[1, 0, 1, 0x78, 32, 0x0c, 31, 0, 0x07, 32];
    let found = on_arm64(rt.alloc(), high, &[], &known)?;
    assert!(rt; found == Step::Bad(13));
    let register_32 = on_arm64(rt.alloc(), common, &[0x0c, 32, 0], &known)?;
    assert!(rt; register_32 == Step::Bad(9));
    Ok(())
}
