//! A file that is cut, and one with a byte changed.
use super::{FILE, TEXT, shown};
use crate::{DecodeFault, decode};
use plcr_report::Kind;
use std::test::Fail;

/// What the file cut to `n` bytes is refused with. Cut behind the signal or the process it is a
/// report.
fn refused(n: usize) -> Option<DecodeFault> {
    let message = Kind::Root;
    match n {
        0..=6 => Some(DecodeFault::Magic),
        8 => Some(DecodeFault::Missing { message, field: 1 }),
        19 => Some(DecodeFault::Missing { message, field: 2 }),
        29 | 237 => Some(DecodeFault::Missing { message, field: 6 }),
        254 | 267 => None,
        _ => Some(DecodeFault::Truncated { at: n }),
    }
}

#[test]
fn a_cut_file_is_told_by_its_end(rt: HostRuntime) -> Result<(), Fail> {
    let alloc = rt.alloc();
    for n in 0..FILE.len() {
        let front = FILE.as_slice().split_at(n).0;
        assert_eq!(rt; decode(alloc, front).err(), refused(n), "{n} bytes");
    }
    let text = TEXT.split_at(TEXT.len() - 7).0;
    assert_eq!(rt;
        shown(alloc, FILE.as_slice().split_at(267).0)?.bytes(),
        text
    );
    let text = TEXT.split_at(TEXT.len() - 25).0;
    assert_eq!(rt;
        shown(alloc, FILE.as_slice().split_at(254).0)?.bytes(),
        text
    );
    Ok(())
}

/// Whether a fault of a file of so many bytes stands in it, and isn't want of memory.
fn lies_within(fault: &DecodeFault, len: usize) -> bool {
    match fault {
        DecodeFault::Magic | DecodeFault::Version { .. } | DecodeFault::Missing { .. } => true,
        DecodeFault::Truncated { at } => *at <= len,
        DecodeFault::BadVarint { at } | DecodeFault::BadTag { at } => *at < len,
        DecodeFault::WrongWire { at, .. } => *at < len,
        DecodeFault::Memory => false,
    }
}

#[test]
fn a_changed_byte_leaves_a_report_or_a_fault_in_the_file(rt: HostRuntime) -> Result<(), Fail> {
    let alloc = rt.alloc();
    let mut bytes = Vec::from_slice(alloc, &FILE)?;
    for place in 0..FILE.len() {
        for value in [0x00u8, 0x7f, 0x80, 0xff] {
            bytes[place] = value;
            let fault = decode(alloc, bytes.as_slice()).err();
            if place < 7 {
                assert_eq!(rt; fault, Some(DecodeFault::Magic), "byte {place}");
            } else if place == 7 {
                assert_eq!(rt; fault, Some(DecodeFault::Version { found: value }));
            } else if let Some(fault) = fault {
                assert!(rt;
                    lies_within(&fault, FILE.len()),
                    "{fault:?} at byte {place}"
                );
            }
        }
        bytes[place] = FILE[place];
    }
    assert_eq!(rt; shown(alloc, bytes.as_slice())?.bytes(), TEXT);
    Ok(())
}

/// The next of the numbers of a fixed generator.
fn next_number(state: u64) -> u64 {
    state
        .wrapping_mul(6364136223846793005)
        .wrapping_add(1442695040888963407)
}

/// Bytes that often stand in reports: tags of fields and short lengths.
const USUAL: [u8; 16] = [
    0x08, 0x0a, 0x10, 0x12, 0x18, 0x1a, 0x20, 0x22, 0x28, 0x2a, 0x32, 0x3a, 0x4a, 0x00, 0x02, 0x06,
];

#[test]
fn any_bytes_have_an_answer(rt: HostRuntime) -> Result<(), Fail> {
    let alloc = rt.alloc();
    let mut state = 1u64;
    let mut any = Vec::new(alloc);
    let mut headed = Vec::new(alloc);
    for _ in 0..2000u32 {
        any.clear();
        headed.clear();
        headed.extend_from_slice(b"plcrash\x01")?;
        state = next_number(state);
        for _ in 0..(state >> 58) {
            state = next_number(state);
            any.push(state.to_be_bytes()[0])?;
            let usual = USUAL[(state.to_be_bytes()[1] % 16) as usize];
            headed.push(if state.to_be_bytes()[2] < 200 {
                usual
            } else {
                state.to_be_bytes()[0]
            })?;
        }
        // None of them begins with the text of a report.
        assert_eq!(rt;
            decode(alloc, any.as_slice()).err(),
            Some(DecodeFault::Magic)
        );
        match decode(alloc, headed.as_slice()) {
            Ok(_) => {}
            Err(fault) => assert!(rt; lies_within(&fault, headed.len()), "{fault:?}"),
        }
    }
    Ok(())
}
