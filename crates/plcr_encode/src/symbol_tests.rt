//! Symbols as a report has them.
ghost use Rattle.plcr_regs.specs.States.{IsWhole};

use crate::fixtures::*;
use plcr_io::MemOut;
use plcr_macho::PlainImage;
use plcr_memory::{Memory, MemoryFault, Region};
use plcr_regs::{Arch, Registers};
use std::alloc::{AllocError, Global};
use std::test::Fail;

const A0: u64 = 0x1_0000_0000;

const A1: u64 = 0x1_0000_4000;

/// Types of rows: defined in a section, the same and seen by other images, and a debugger's.
const SECT: u8 = 0x0e;

const EXTERNAL: u8 = 0x0f;

const STAB: u8 = 0x2e;

/// A row of a table of symbols: the place of its name, its type, and how far its value is behind
/// the header.
#[derive(Clone, Copy)]
struct Row(u32, u8, u64);

/// `_main`, `_alias` at the same address, a debugger's row, and `_next`.
const ROWS: [Row; 4] = [
    Row(1, EXTERNAL, 0xf00),
    Row(7, EXTERNAL, 0xf00),
    Row(14, STAB, 0xf40),
    Row(20, SECT, 0xf80),
];

const NAMES: &[u8; 26] = b"\0_main\0_alias\0_stab\0_next\0";

/// The frames of these addresses of A0 in a report: two in `_main`, one in `_next`, and one without
/// a symbol.
const MAIN: &[u8; 23] =
    b"\x12\x15\x18\xd0\x9e\x80\x80\x10\x32\x0d\x0a\x05_main\x10\x80\x9e\x80\x80\x10";

const MAIN_AT_F80: &[u8; 23] =
    b"\x12\x15\x18\x80\x9f\x80\x80\x10\x32\x0d\x0a\x05_main\x10\x80\x9e\x80\x80\x10";

const NEXT_AT_F81: &[u8; 23] =
    b"\x12\x15\x18\x81\x9f\x80\x80\x10\x32\x0d\x0a\x05_next\x10\x80\x9f\x80\x80\x10";

const BARE: &[u8; 8] = b"\x12\x06\x18\xd0\x9e\x80\x80\x10";

/// The frame of 0x11 bytes behind A1, in `_far`, and that of 0x5000, where no image is.
const FAR_AT_11: &[u8; 22] =
    b"\x12\x14\x18\x91\x80\x81\x80\x10\x32\x0c\x0a\x04_far\x10\x90\x80\x81\x80\x10";

const NOWHERE: &[u8; 6] = b"\x12\x04\x18\x80\xa0\x01";

/// The bytes of a file, and the memory that it makes.
#[derive(Drop)]
struct Made {
    file: Vec<u8>,
    regions: Vec<Region>,
}

impl Made {
    fn new(alloc: Global) -> Made {
        Made {
            file: Vec::new(alloc),
            regions: Vec::new(alloc),
        }
    }

    fn add_words(&mut self, words: &[u32]) -> Result<(), AllocError> {
        for word in words {
            self.file.extend_from_slice(&word.to_le_bytes())?;
        }
        Ok(())
    }

    fn add_numbers(&mut self, numbers: &[u64]) -> Result<(), AllocError> {
        for number in numbers {
            self.file.extend_from_slice(&number.to_le_bytes())?;
        }
        Ok(())
    }

    // What the file has gained since it had so many bytes lies at an address.
    fn place(&mut self, start: u64, from: usize) -> Result<(), AllocError> {
        let len = self.file.len().saturating_sub(from);
        self.regions.push(Region {
            start,
            size: len as u64,
            from,
            len,
        })?;
        Ok(())
    }

    // A segment; `numbers` are vmaddr, vmsize, fileoff and filesize.
    fn add_segment(&mut self, name: &[u8; 16], numbers: [u64; 4]) -> Result<(), AllocError> {
        self.add_words(&[0x19, 72])?;
        self.file.extend_from_slice(name)?;
        self.add_numbers(&numbers)?;
        self.add_words(&[5, 5, 0, 0])
    }

    // An image of so many bytes that was linked at one address and lies at another, with its tables
    // 0x8000 bytes behind.
    fn add_image(
        &mut self,
        linked: u64,
        header: u64,
        size: u64,
        rows: &[Row],
        names: &[u8],
    ) -> Result<(), AllocError> {
        let from = self.file.len();
        let count = rows.len().min(1000) as u32;
        let strings = 0x1000u32.wrapping_add(count.wrapping_mul(16));
        self.add_words(&[0xfeed_facf, 0x0100_0007, 3, 6, 3, 168, 0, 0])?;
        self.add_segment(b"__TEXT\0\0\0\0\0\0\0\0\0\0", [linked, size, 0, size])?;
        let tables = [linked.wrapping_add(0x8000), 0x4000, 0x1000, 0x4000];
        self.add_segment(b"__LINKEDIT\0\0\0\0\0\0", tables)?;
        self.add_words(&[2, 24, 0x1000, count, strings, names.len().min(5000) as u32])?;
        self.place(header, from)?;
        let behind = self.file.len();
        for Row(name, kind, value) in rows {
            self.add_words(&[*name, u32::from(*kind)])?;
            self.add_numbers(&[linked.wrapping_add(*value)])?;
        }
        self.file.extend_from_slice(names)?;
        self.place(header.wrapping_add(0x8000), behind)
    }

    fn memory(self, alloc: Global) -> Result<Memory, MemoryFault> {
        memory_of(alloc, self.file, self.regions.as_slice())
    }
}

/// The memory of one image at A0.
fn one_image(
    alloc: Global,
    linked: u64,
    rows: &[Row],
    names: &[u8],
) -> Result<Memory, MemoryFault> {
    let mut made = Made::new(alloc);
    made.add_image(linked, A0, 0x4000, rows, names)?;
    made.memory(alloc)
}

/// The memory of an image at A0 and of one at A1, which has `_far`, and of four saved frames at
/// 0x70.
fn two_images(alloc: Global) -> Result<Memory, MemoryFault> {
    let mut made = Made::new(alloc);
    made.add_image(A0, A0, 0x4000, &ROWS, NAMES)?;
    made.add_image(A1, A1, 0x4000, &[Row(1, SECT, 0x10)], b"\0_far\0")?;
    let from = made.file.len();
    made.add_numbers(&[0x80, A1 + 0x11, 0x90, A0 + 0xf80])?;
    made.add_numbers(&[0xa0, A0 + 0xf81, 0, 0x5000])?;
    made.place(0x70, from)?;
    made.memory(alloc)
}

/// The report of a thread of x86-64.
fn report(
    alloc: Global,
    memory: &Memory,
    images: &[PlainImage],
    thread: Registers,
) -> Result<Vec<u8>, Fail>
    requires { IsWhole Arch.X86_64 thread }
{
    let mut out = MemOut::new(alloc, 4000, 1000, Vec::new(alloc))?;
    let about = context(Arch::X86_64, 0, false);
    let _ = write_threads(images, memory, &[thread], &about, &mut out);
    Ok(out.bytes().to_vec(alloc)?)
}

/// Whether the first thread of a report has just these frames: behind its number, before the field
/// `crashed`. Its own length has two bytes.
fn has_frames(report: &[u8], frames: &[&[u8]]) -> bool {
    let mut rest = report.split_at(report.len().min(34)).1;
    for frame in frames {
        match rest.strip_prefix(*frame) {
            Some(behind) => rest = behind,
            None => return false,
        }
    }
    rest.starts_with(b"\x18\x01")
}

#[test]
fn the_bytes_of_a_symbol(rt: HostRuntime) -> Result<(), Fail> {
    let alloc = rt.alloc();
    let memory = one_image(alloc, A0, &ROWS, NAMES)?;
    let found = report(alloc, &memory, &[image(A0, b"x")], stopped())?;
    let expected = EXPECTED.as_slice();
    let mut want = expected.split_at(29).0.to_vec(alloc)?;
    want.extend_from_slice(b"\x1a\xdc\x01\x08\x00")?;
    want.extend_from_slice(MAIN)?;
    want.extend_from_slice(expected.split_at(IMAGES).0.split_at(42).1)?;
    want.extend_from_slice(b"\x22\x18\x08\x80\x80\x80\x80\x10\x10\x80\x80\x01\x1a\x01x")?;
    want.extend_from_slice(b"\x2a\x09\x08\x01\x10\x87\x80\x80\x08\x18\x03")?;
    want.extend_from_slice(expected.split_at(IMAGES).1)?;
    assert_eq!(rt; want.len(), 312);
    assert_eq!(rt; found.as_slice(), want.as_slice());
    Ok(())
}

// Each frame has the symbol of the image that it lies in, and of the address before the one it goes
// back to.
#[test]
fn symbols_of_saved_frames(rt: HostRuntime) -> Result<(), Fail> {
    let alloc = rt.alloc();
    let memory = two_images(alloc)?;
    let images = [image(A0, b"x"), image(A1, b"y")];
    let thread = stopped_at(0x70, A0 + 0xf50);
    let found = report(alloc, &memory, &images, thread)?;
    let frames: [&[u8]; 5] = [MAIN, FAR_AT_11, MAIN_AT_F80, NEXT_AT_F81, NOWHERE];
    assert!(rt; has_frames(found.as_slice(), &frames));
    Ok(())
}

// The frames of a thread are its own, not those of the thread before.
#[test]
fn symbols_of_two_threads(rt: HostRuntime) -> Result<(), Fail> {
    let alloc = rt.alloc();
    let memory = two_images(alloc)?;
    let images = [image(A0, b"x"), image(A1, b"y")];
    let threads = [stopped(), stopped_at(0, A1 + 0x11)];
    let mut out = MemOut::new(alloc, 4000, 1000, Vec::new(alloc))?;
    let about = context(Arch::X86_64, 0, false);
    let _ = write_threads(&images, &memory, &threads, &about, &mut out);
    assert!(rt; has_frames(out.bytes(), &[MAIN]));
    // The first thread has 220 bytes, the second 219.
    let second = out.bytes().split_at(out.bytes().len().min(252)).1;
    assert!(rt; second.starts_with(b"\x1a\xdb\x01\x08\x01\x12\x14\x18\x91\x80\x81\x80\x10"));
    assert!(rt;
        second
            .split_at(second.len().min(5))
            .1
            .starts_with(FAR_AT_11)
    );
    Ok(())
}

// A stack of 300 saved frames from an address on, each of which goes back to `_next`.
fn add_stack(made: &mut Made, start: u64) -> Result<(), AllocError> {
    let from = made.file.len();
    let mut here = start;
    for _ in 1..300 {
        here = here.wrapping_add(16);
        made.add_numbers(&[here, A0 + 0xf81])?;
    }
    made.add_numbers(&[0, A0 + 0xf81])?;
    made.place(start, from)
}

// Of threads whose frames are too many to be found together each has its own.
#[test]
fn symbols_of_many_frames(rt: HostRuntime) -> Result<(), Fail> {
    let alloc = rt.alloc();
    let mut made = Made::new(alloc);
    made.add_image(A0, A0, 0x4000, &ROWS, NAMES)?;
    add_stack(&mut made, 0x7000_0000)?;
    let memory = made.memory(alloc)?;
    let about = context(Arch::X86_64, 9, false);
    let thread = stopped_at(0x7000_0000, A0 + 0xf50);
    let mut out = MemOut::new(alloc, 40_000, 1000, Vec::new(alloc))?;
    let _ = write_threads(&[image(A0, b"x")], &memory, &[thread; 4], &about, &mut out);
    // What stands before the threads has 29 bytes; each thread has 301 frames, each of 23 bytes,
    // and 204 others.
    let mut rest = out.bytes().split_at(out.bytes().len().min(29)).1;
    for number in 0..4u8 {
        let (one, behind) = rest.split_at(rest.len().min(7127));
        assert!(rt; one.starts_with(&[0x1a, 0xd4, 0x37, 0x08, number]));
        let frames = one.split_at(one.len().min(5)).1;
        assert!(rt; frames.starts_with(MAIN));
        for frame in frames.split_at(frames.len().min(23)).1.chunks(23).take(300) {
            assert_eq!(rt; frame, NEXT_AT_F81.as_slice());
        }
        rest = behind;
    }
    assert!(rt; rest.starts_with(b"\x22\x18"));
    Ok(())
}

// Where an image lies counts, and not where it was linked, also where its slide passes the last
// address.
#[test]
fn symbols_of_moved_images(rt: HostRuntime) -> Result<(), Fail> {
    let alloc = rt.alloc();
    for linked in [A0, 0, 0x7000_0000, 0xffff_ffff_0000_0000] {
        let memory = one_image(alloc, linked, &ROWS, NAMES)?;
        let found = report(alloc, &memory, &[image(A0, b"x")], stopped())?;
        assert!(rt; has_frames(found.as_slice(), &[MAIN]), "{linked}");
    }
    Ok(())
}

// So many letters, and a zero.
fn long_name(alloc: Global, len: u32) -> Result<Vec<u8>, AllocError> {
    let mut name = Vec::new(alloc);
    for _ in 0..len {
        name.push(b'x')?;
    }
    name.push(0)?;
    Ok(name)
}

// Whether the frame in the one symbol of an image, which has this name, is this.
fn named(alloc: Global, name: &[u8], frame: &[&[u8]]) -> Result<bool, Fail> {
    let memory = one_image(alloc, A0, &[Row(0, SECT, 0xf00)], name)?;
    let found = report(alloc, &memory, &[image(A0, b"x")], stopped())?;
    Ok(has_frames(found.as_slice(), frame))
}

#[test]
fn names_of_symbols(rt: HostRuntime) -> Result<(), Fail> {
    let alloc = rt.alloc();
    let empty = b"\x12\x10\x18\xd0\x9e\x80\x80\x10\x32\x08\x0a\x00\x10\x80\x9e\x80\x80\x10";
    assert!(rt; named(alloc, b"\0", &[empty])?);
    assert!(rt; named(alloc, b"_main\0", &[MAIN])?);
    assert!(rt; named(alloc, b"_main", &[BARE])?);

    let name = long_name(alloc, 1024)?;
    let front = b"\x12\x92\x08\x18\xd0\x9e\x80\x80\x10\x32\x89\x08\x0a\x80\x08";
    let letters = name.as_slice().split_at(name.len().min(1024)).0;
    assert!(rt;
        named(
            alloc,
            name.as_slice(),
            &[front, letters, b"\x10\x80\x9e\x80\x80\x10"]
        )?
    );
    assert!(rt; named(alloc, long_name(alloc, 1025)?.as_slice(), &[BARE])?);
    Ok(())
}

// Where the ranges of two images overlap, the first of the list has the address.
#[test]
fn symbols_of_overlapping_images(rt: HostRuntime) -> Result<(), Fail> {
    let alloc = rt.alloc();
    let mut made = Made::new(alloc);
    made.add_image(0x1000, 0x1000, 0x3000, &[Row(1, SECT, 0x10)], b"\0_wide\0")?;
    made.add_image(0x2000, 0x2000, 0x1000, &[Row(1, SECT, 0x10)], b"\0_tight\0")?;
    let memory = made.memory(alloc)?;
    let thread = stopped_at(0, 0x2800);
    let images = [image(0x1000, b"w"), image(0x2000, b"t")];
    let found = report(alloc, &memory, &images, thread)?;
    let in_wide = b"\x12\x0f\x18\x80\x50\x32\x0a\x0a\x05_wide\x10\x90\x20";
    assert!(rt; has_frames(found.as_slice(), &[in_wide]));
    let images = [image(0x2000, b"t"), image(0x1000, b"w")];
    let found = report(alloc, &memory, &images, thread)?;
    let in_tight = b"\x12\x10\x18\x80\x50\x32\x0b\x0a\x06_tight\x10\x90\x40";
    assert!(rt; has_frames(found.as_slice(), &[in_tight]));
    Ok(())
}
