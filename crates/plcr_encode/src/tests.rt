ghost use Rattle.std.specs.Prelude.{◌≡◌};
ghost use Rattle.plcr_regs.specs.States.{IsWhole};
ghost use Rattle.plcr_encode.specs.Conditions.{IsWritable};

use crate::fixtures::*;
use crate::{Context, capture};
use plcr_io::{MemOut, PutFailed, Sink};
use plcr_macho::{ListImages, PlainImage};
use plcr_memory::{Memory, MemoryFault, Region};
use plcr_regs::{Arch, Registers};
use std::alloc::{AllocError, Global};
use std::test::Fail;

/// An x86-64 dylib of subtype 3, made for 0x100000000: a header, a segment `__TEXT` of 0x4000 bytes
/// and no sections, and a uuid of zeros.
const IMAGE: [u8; 128] = [
    0xcf, 0xfa, 0xed, 0xfe, 0x07, 0x00, 0x00, 0x01, 0x03, 0x00, 0x00, 0x00, 0x06, 0x00, 0x00, 0x00,
    0x02, 0x00, 0x00, 0x00, 0x60, 0x00, 0x00, 0x00, 0x00, 0x00, 0x00, 0x00, 0x00, 0x00, 0x00, 0x00,
    0x19, 0x00, 0x00, 0x00, 0x48, 0x00, 0x00, 0x00, 0x5f, 0x5f, 0x54, 0x45, 0x58, 0x54, 0x00, 0x00,
    0x00, 0x00, 0x00, 0x00, 0x00, 0x00, 0x00, 0x00, 0x00, 0x00, 0x00, 0x00, 0x01, 0x00, 0x00, 0x00,
    0x00, 0x40, 0x00, 0x00, 0x00, 0x00, 0x00, 0x00, 0x00, 0x00, 0x00, 0x00, 0x00, 0x00, 0x00, 0x00,
    0x00, 0x40, 0x00, 0x00, 0x00, 0x00, 0x00, 0x00, 0x05, 0x00, 0x00, 0x00, 0x05, 0x00, 0x00, 0x00,
    0x00, 0x00, 0x00, 0x00, 0x00, 0x00, 0x00, 0x00, 0x1b, 0x00, 0x00, 0x00, 0x18, 0x00, 0x00, 0x00,
    0x00, 0x00, 0x00, 0x00, 0x00, 0x00, 0x00, 0x00, 0x00, 0x00, 0x00, 0x00, 0x00, 0x00, 0x00, 0x00,
];

/// What a report says of that image at 0x100000000 under the name `x`: base address, size, name,
/// uuid, code type.
const FIRST: [u8; 44] = [
    0x22, 0x2a, 0x08, 0x80, 0x80, 0x80, 0x80, 0x10, 0x10, 0x80, 0x80, 0x01, 0x1a, 0x01, 0x78, 0x22,
    0x10, 0x00, 0x00, 0x00, 0x00, 0x00, 0x00, 0x00, 0x00, 0x00, 0x00, 0x00, 0x00, 0x00, 0x00, 0x00,
    0x00, 0x2a, 0x09, 0x08, 0x01, 0x10, 0x87, 0x80, 0x80, 0x08, 0x18, 0x03,
];

/// The same of an image at 0x100004000 with a uuid that ends with 1, under the name `yz`.
const SECOND: [u8; 45] = [
    0x22, 0x2b, 0x08, 0x80, 0x80, 0x81, 0x80, 0x10, 0x10, 0x80, 0x80, 0x01, 0x1a, 0x02, 0x79, 0x7a,
    0x22, 0x10, 0x00, 0x00, 0x00, 0x00, 0x00, 0x00, 0x00, 0x00, 0x00, 0x00, 0x00, 0x00, 0x00, 0x00,
    0x00, 0x01, 0x2a, 0x09, 0x08, 0x01, 0x10, 0x87, 0x80, 0x80, 0x08, 0x18, 0x03,
];

/// The same of 0x5000, where nothing is mapped, under the name `x`: no more than base address, size
/// 0 and name.
const UNKNOWN: [u8; 11] = [
    0x22, 0x09, 0x08, 0x80, 0xa0, 0x01, 0x10, 0x00, 0x1a, 0x01, 0x78,
];

/// An arm64 thread with sp 0x7000 and pc 0x100000f50, all else 0.
fn stopped_arm64() -> Registers
    ensures { IsWhole Arch.Arm64 result }
{
    let mut value = [Some(0); 34];
    value[31] = Some(0x7000);
    value[32] = Some(0x1_0000_0f50);
    Registers {
        arch: Arch::Arm64,
        value,
    }
}

/// The memory of two images.
fn memory(alloc: Global) -> Result<Memory, MemoryFault> {
    let mut second = IMAGE;
    second[57] = 0x40;
    second[127] = 1;
    let mut file = IMAGE.to_vec(alloc)?;
    file.extend_from_slice(&second)?;
    let first = Region {
        start: 0x1_0000_0000,
        size: 0x4000,
        from: 0,
        len: 128,
    };
    let second = Region {
        start: 0x1_0000_4000,
        from: 128,
        ..first
    };
    memory_of(alloc, file, &[first, second])
}

fn write<K: Sink>(
    images: &[PlainImage],
    memory: &Memory,
    context: &Context,
    out: &mut K,
) -> Result<u64, PutFailed>
    requires writable { IsWritable context.now }
    requires arch { context.now.arch ≡ Arch.X86_64 }
{
    write_threads(images, memory, &[stopped()], context, out)
}

#[test]
fn the_bytes_of_a_report(rt: HostRuntime) -> Result<(), Fail> {
    let alloc = rt.alloc();
    let memory = memory(alloc)?;
    for most in [1000, 100] {
        let mut out = MemOut::new(alloc, 271, most, Vec::new(alloc))?;
        assert_eq!(rt;
            write(&[], &memory, &context(Arch::X86_64, 0, false), &mut out),
            Ok(271)
        );
        assert_eq!(rt; out.bytes(), EXPECTED.as_slice());
    }

    let mut other = EXPECTED;
    other[43] = 0;
    other[270] = 1;
    let mut out = MemOut::new(alloc, 271, 1000, Vec::new(alloc))?;
    assert_eq!(rt;
        write(&[], &memory, &context(Arch::X86_64, 1, true), &mut out),
        Ok(271)
    );
    assert_eq!(rt; out.bytes(), other.as_slice());
    Ok(())
}

/// The names of the registers of an arm64 thread state.
const ARM64_NAMES: [&[u8]; 34] = [
    b"x0", b"x1", b"x2", b"x3", b"x4", b"x5", b"x6", b"x7", b"x8", b"x9", b"x10", b"x11", b"x12",
    b"x13", b"x14", b"x15", b"x16", b"x17", b"x18", b"x19", b"x20", b"x21", b"x22", b"x23", b"x24",
    b"x25", b"x26", b"x27", b"x28", b"fp", b"lr", b"sp", b"pc", b"cpsr",
];

/// Appends a register's message: its name, and its value as a varint of these bytes.
fn add_register(file: &mut Vec<u8>, name: &[u8], value: &[u8]) -> Result<(), AllocError> {
    let len = (name.len() % 100) as u8;
    let rest = (value.len() % 100) as u8;
    file.extend_from_slice(&[0x22, 3 + len + rest, 0x0a, len])?;
    file.extend_from_slice(name)?;
    file.push(0x10)?;
    file.extend_from_slice(value)
}

#[test]
fn the_bytes_of_an_arm64_report(rt: HostRuntime) -> Result<(), Fail> {
    let alloc = rt.alloc();
    let mut want = EXPECTED.as_slice().split_at(29).0.to_vec(alloc)?;
    want[16] = 6;
    want.extend_from_slice(&[0x1a, 0xb7, 0x02, 0x08, 0x00])?;
    want.extend_from_slice(&[0x12, 0x06, 0x18, 0xd0, 0x9e, 0x80, 0x80, 0x10, 0x18, 0x01])?;
    for (i, name) in ARM64_NAMES.iter().enumerate() {
        let value: &[u8] = match i {
            31 => &[0x80, 0xe0, 0x01],
            32 => &[0xd0, 0x9e, 0x80, 0x80, 0x10],
            _ => &[0x00],
        };
        add_register(&mut want, name, value)?;
    }
    want.extend_from_slice(EXPECTED.as_slice().split_at(IMAGES).1)?;
    assert_eq!(rt; want.len(), 377);

    let mut out = MemOut::new(alloc, 377, 1000, Vec::new(alloc))?;
    let mut none = ListImages::new(&[], &mut []);
    let about = context(Arch::Arm64, 0, false);
    let written = capture(
        &mut none,
        &memory(alloc)?,
        &[stopped_arm64()],
        &about,
        &mut out,
    );
    assert_eq!(rt; written, Ok(377));
    assert_eq!(rt; out.bytes(), want.as_slice());
    Ok(())
}

#[test]
fn the_bytes_of_images(rt: HostRuntime) -> Result<(), Fail> {
    let alloc = rt.alloc();
    let memory = memory(alloc)?;
    let images = [
        image(0x1_0000_0000, b"x"),
        image(0x5000, b"x"),
        image(0x1_0000_4000, b"yz"),
    ];
    let mut out = MemOut::new(alloc, 371, 1000, Vec::new(alloc))?;
    assert_eq!(rt;
        write(&images, &memory, &context(Arch::X86_64, 0, false), &mut out),
        Ok(371)
    );
    let mut want = EXPECTED.as_slice().split_at(IMAGES).0.to_vec(alloc)?;
    want.extend_from_slice(&FIRST)?;
    want.extend_from_slice(&UNKNOWN)?;
    want.extend_from_slice(&SECOND)?;
    want.extend_from_slice(EXPECTED.as_slice().split_at(IMAGES).1)?;
    assert_eq!(rt; out.bytes(), want.as_slice());
    Ok(())
}

#[test]
fn the_lengths_of_reports_with_images(rt: HostRuntime) -> Result<(), Fail> {
    let alloc = rt.alloc();
    let memory = memory(alloc)?;
    let one = [image(0x1_0000_0000, b"x")];
    let unnamed = [image(0x1_0000_0000, b"")];
    let nine = [image(0x1_0000_0000, b"eight or9")];
    let unknown = [image(0x5000, b"x")];
    let rows = [
        (one.as_slice(), 271 + 44),
        (unnamed.as_slice(), 271 + 43),
        (nine.as_slice(), 271 + 52),
        (unknown.as_slice(), 271 + 11),
    ];
    for (images, want) in rows {
        let mut out = MemOut::new(alloc, 400, 1000, Vec::new(alloc))?;
        assert_eq!(rt;
            write(images, &memory, &context(Arch::X86_64, 0, false), &mut out),
            Ok(want)
        );
        assert_eq!(rt; out.bytes().len() as u64, want);
    }
    Ok(())
}

/// A sink that takes all, and remembers its largest piece.
#[derive(Drop)]
struct Largest {
    largest: usize,
    total: u64,
}

impl Sink for Largest {
    ghost use Rattle.std.specs.Prelude.{None, []};

    ghost written = { λ sink. None };

    ghost faults = { λ sink. 0 };

    ghost mark = { λ sink. [] };

    fn put(&mut self, piece: &[u8]) -> Result<usize, PutFailed> {
        self.largest = self.largest.max(piece.len());
        self.total = self.total.saturating_add(piece.len() as u64);
        Ok(piece.len())
    }
}

#[test]
fn pieces_are_small(rt: HostRuntime) -> Result<(), Fail> {
    let alloc = rt.alloc();
    let memory = memory(alloc)?;
    let name = [0x61; 1024];
    let images = [
        image(0x1_0000_0000, &name),
        image(0x5000, &name),
        image(0x1_0000_4000, &name),
        image(0x1_0000_0000, &name),
    ];
    let mut sink = Largest {
        largest: 0,
        total: 0,
    };
    let written = write(
        &images,
        &memory,
        &context(Arch::X86_64, 0, false),
        &mut sink,
    );
    assert!(rt; written == Ok(sink.total));
    assert!(rt; sink.total > 4000);
    assert!(rt; sink.largest <= 256);
    Ok(())
}

/// The first two pieces have 256 bytes each, and the third the rest.
#[test]
fn a_sink_that_fails(rt: HostRuntime) -> Result<(), Fail> {
    let alloc = rt.alloc();
    let memory = memory(alloc)?;
    let mut images = Vec::new(alloc);
    let mut want = EXPECTED.as_slice().split_at(IMAGES).0.to_vec(alloc)?;
    for letter in *b"ABCDEFGH" {
        images.push(image(0x1_0000_0000, &[letter]))?;
        let mut message = FIRST;
        message[14] = letter;
        want.extend_from_slice(&message)?;
    }
    want.extend_from_slice(EXPECTED.as_slice().split_at(IMAGES).1)?;
    assert_eq!(rt; want.len(), 623);
    for (failing, written) in [(1, 0), (2, 256), (3, 512)] {
        let mut out = MemOut::new(alloc, 623, 1000, vec![in alloc; failing]?)?;
        let result = write(
            images.as_slice(),
            &memory,
            &context(Arch::X86_64, 0, false),
            &mut out,
        );
        assert_eq!(rt; result, Err(PutFailed));
        assert_eq!(rt; out.bytes(), want.as_slice().split_at(written).0);
    }
    let mut out = MemOut::new(alloc, 623, 1000, Vec::new(alloc))?;
    let result = write(
        images.as_slice(),
        &memory,
        &context(Arch::X86_64, 0, false),
        &mut out,
    );
    assert_eq!(rt; result, Ok(623));
    assert_eq!(rt; out.bytes(), want.as_slice());
    Ok(())
}
