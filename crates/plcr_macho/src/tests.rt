use super::*;
use crate::fixtures::*;
use plcr_memory::{Memory, MemoryFault};
use plcr_regs::Arch;
use std::alloc::{AllocError, Global};
use std::test::*;

const SMALL: Image = Image {
    header: A0,
    cpu: X86_64,
    subtype: 3,
    slide: 0,
    text_size: 0x4000,
    uuid: Some([0, 0, 0, 0, 0, 0, 0, 0, 0, 0, 0, 0, 0, 0, 0, 7]),
    symtab: None,
    unwind: None,
    eh_frame: None,
};

#[test]
fn small(rt: HostRuntime) -> Result<(), Fail> {
    let memory = changed_image(rt.alloc(), 28, 0, 128)?;
    assert_eq!(rt; parse(&memory, Arch::X86_64, A0), Ok(SMALL));
    assert_eq!(rt;
        parse(&memory, Arch::Arm64, A0),
        Err(ImageFault::OtherCpu { cpu: X86_64 })
    );
    let elsewhere = [0x5000, A0 - 1, A0 + 97, A0 + 128, 0xffff_ffff_ffff_fff0];
    for at in elsewhere {
        assert_eq!(rt;
            parse(&memory, Arch::X86_64, at),
            Err(ImageFault::Unreadable { at })
        );
    }
    assert_eq!(rt;
        parse(&memory, Arch::X86_64, A0 + 96),
        Err(ImageFault::NotMachO { magic: 0 })
    );
    images_lie();

    let memory = changed_image(rt.alloc(), 4, ARM64, 128)?;
    let other = Image {
        cpu: ARM64,
        ..SMALL
    };
    assert_eq!(rt; parse(&memory, Arch::Arm64, A0), Ok(other));
    Ok(())
}

fn bad(index: u32) -> Result<Image, ImageFault> {
    Err(ImageFault::BadCommand { index })
}

#[test]
fn faults(rt: HostRuntime) -> Result<(), Fail> {
    let other = Ok(Image {
        uuid: None,
        ..SMALL
    });
    // The place of the word that is changed in the image, what it becomes, and what the image is
    // then.
    let cases = [
        (
            0,
            0xfeed_face,
            Err(ImageFault::NotMachO { magic: 0xfeed_face }),
        ),
        (4, ARM64, Err(ImageFault::OtherCpu { cpu: ARM64 })),
        (12, 2, Ok(SMALL)),
        (16, 0, Err(ImageFault::NoText)),
        (16, 1, other),
        (16, 3, bad(2)),
        (16, u32::MAX, bad(2)),
        (20, 0, bad(0)),
        (20, 1, bad(0)),
        (20, 7, bad(0)),
        (20, 71, bad(0)),
        (20, 72, bad(1)),
        (20, 79, bad(1)),
        (20, 95, bad(1)),
        (20, 97, Ok(SMALL)),
        (20, u32::MAX, Ok(SMALL)),
        (32, 0x1a, Err(ImageFault::NoText)),
        (36, 0, bad(0)),
        (36, 1, bad(0)),
        (36, 7, bad(0)),
        (36, 71, bad(0)),
        (36, 97, bad(0)),
        (36, u32::MAX, bad(0)),
        (36, 96, bad(1)),
        (44, 0x7800_5458, Err(ImageFault::NoText)),
        (52, 0x0100_0000, Err(ImageFault::NoText)),
        (96, 1, bad(0)),
        (96, u32::MAX, bad(0)),
        (104, 0x2, other),
        (104, 0x1c, other),
        (108, 7, bad(1)),
        (108, 23, bad(1)),
        (108, 25, bad(1)),
    ];
    for (place, word, want) in cases {
        let memory = changed_image(rt.alloc(), place, word, 128)?;
        assert_eq!(rt; parse(&memory, Arch::X86_64, A0), want, "{word} at {place}");
    }
    Ok(())
}

#[test]
fn unmapped(rt: HostRuntime) -> Result<(), Fail> {
    // How many bytes are mapped, and how far from the header the part starts that isn't wholly
    // there.
    let cases = [
        (1, 0),
        (31, 0),
        (32, 32),
        (39, 32),
        (40, 32),
        (103, 32),
        (104, 104),
        (127, 104),
    ];
    for (len, missing) in cases {
        let memory = changed_image(rt.alloc(), 28, 0, len)?;
        let want = Err(ImageFault::Unreadable { at: A0 + missing });
        assert_eq!(rt; parse(&memory, Arch::X86_64, A0), want, "{len}");
    }
    // A command that doesn't fit is told before the bytes that aren't there.
    let memory = changed_image(rt.alloc(), 20, 7, 32)?;
    assert_eq!(rt;
        parse(&memory, Arch::X86_64, A0),
        Err(ImageFault::BadCommand { index: 0 })
    );
    Ok(())
}

// Addresses are counted modulo 2^64.
#[test]
fn at_the_end(rt: HostRuntime) -> Result<(), Fail> {
    let header = u64::MAX - 31;
    let file = small_image(rt.alloc(), A0, 0x4000, 7)?;
    let memory = memory_of(rt.alloc(), file, &[bytes(header, 0, 32), bytes(0, 32, 96)])?;
    let want = Image {
        header,
        slide: 0xffff_fffe_ffff_ffe0,
        ..SMALL
    };
    assert_eq!(rt; parse(&memory, Arch::X86_64, header), Ok(want));
    let file = small_image(rt.alloc(), A0, 0x4000, 7)?;
    let memory = memory_of(rt.alloc(), file, &[bytes(header, 0, 32)])?;
    assert_eq!(rt;
        parse(&memory, Arch::X86_64, header),
        Err(ImageFault::Unreadable { at: 0 })
    );
    let header = u64::MAX - 15;
    let file = small_image(rt.alloc(), A0, 0x4000, 7)?;
    let memory = memory_of(rt.alloc(), file, &[bytes(header, 0, 16), bytes(0, 16, 112)])?;
    assert_eq!(rt;
        parse(&memory, Arch::X86_64, header),
        Err(ImageFault::Unreadable { at: header })
    );
    Ok(())
}

fn large_image(alloc: Global, linkedit: u32) -> Result<Vec<u8>, AllocError> {
    let mut file = Vec::new(alloc);
    add_header(&mut file, 7, 736)?;
    add_segment(&mut file, DATA, [0x8000, 0x1000, 0, 0], 152, 1)?;
    add_section(&mut file, EH_FRAME, 0x8100, 1)?;
    add_segment(&mut file, TEXT, [0x1000, 0x4000, 0, 0x4000], 312, 3)?;
    add_section(&mut file, EH_FRAME, 0x1800, 0x20)?;
    add_section(&mut file, UNWIND_INFO, 0x1900, 0x30)?;
    add_section(&mut file, EH_FRAME, 0x1a00, 0x40)?;
    add_segment(&mut file, TEXT, [0x9000, 0x5000, 0, 0], 72, 0)?;
    add_words(&mut file, &[linkedit, 72])?;
    file.extend_from_slice(LINKEDIT)?;
    add_numbers(&mut file, &[0x6000, 0x1000, 0x5000, 0x1000, 0, 0])?;
    add_words(&mut file, &[2, 24, 0x5010, 3, 0x5100, 64])?;
    add_words(&mut file, &[2, 24, 0x5020, 4, 0x5200, 65])?;
    add_words(&mut file, &[0x1b, 80])?;
    add_numbers(&mut file, &[1, 2, 3, 4, 5, 6, 7, 8, 9])?;
    Ok(file)
}

// Of several the first counts, and sections count within the first `__TEXT` alone.
#[test]
fn large(rt: HostRuntime) -> Result<(), Fail> {
    let want = Image {
        header: A0,
        cpu: X86_64,
        subtype: 3,
        slide: 0xffff_f000,
        text_size: 0x4000,
        uuid: Some([1, 0, 0, 0, 0, 0, 0, 0, 2, 0, 0, 0, 0, 0, 0, 0]),
        symtab: Some(Symtab {
            rows_at: 0x1_0000_5010,
            rows: 3,
            strings_at: 0x1_0000_5100,
            strings: 64,
        }),
        unwind: Some(Part {
            at: 0x1_0000_0900,
            size: 0x30,
        }),
        eh_frame: Some(Part {
            at: 0x1_0000_0800,
            size: 0x20,
        }),
    };
    let file = large_image(rt.alloc(), 0x19)?;
    let len = file.len();
    let memory = memory_of(rt.alloc(), file, &[bytes(A0, 0, len)])?;
    assert_eq!(rt; parse(&memory, Arch::X86_64, A0), Ok(want));
    let file = large_image(rt.alloc(), 0x1a)?;
    let memory = memory_of(rt.alloc(), file, &[bytes(0x1000, 0, len)])?;
    let without = Image {
        header: 0x1000,
        slide: 0,
        symtab: None,
        unwind: Some(Part {
            at: 0x1900,
            size: 0x30,
        }),
        eh_frame: Some(Part {
            at: 0x1800,
            size: 0x20,
        }),
        ..want
    };
    assert_eq!(rt; parse(&memory, Arch::X86_64, 0x1000), Ok(without));
    Ok(())
}

// An image is the same, wherever one region of memory ends and the next one begins in it, and where
// the file ends within one and zeros follow.
#[test]
fn in_two_regions(rt: HostRuntime) -> Result<(), Fail> {
    let len = large_image(rt.alloc(), 0x19)?.len();
    let whole = large_image(rt.alloc(), 0x19)?;
    let whole = memory_of(rt.alloc(), whole, &[bytes(A0, 0, len)])?;
    let want = parse(&whole, Arch::X86_64, A0);
    assert!(rt; want.is_ok());
    for cut in 1..len {
        let file = large_image(rt.alloc(), 0x19)?;
        let parts = [bytes(A0, 0, cut), bytes(A0 + cut as u64, cut, len - cut)];
        let memory = memory_of(rt.alloc(), file, &parts)?;
        assert_eq!(rt; parse(&memory, Arch::X86_64, A0), want, "{cut}");
    }
    // The last command ends with six numbers, whose upper bytes are zero.
    let file = large_image(rt.alloc(), 0x19)?;
    let memory = memory_of(
        rt.alloc(),
        file,
        &[padded(A0, len as u64, 0, len.saturating_sub(7))],
    )?;
    assert_eq!(rt; parse(&memory, Arch::X86_64, A0), want);
    Ok(())
}

// An image that lies below the address that it was linked at.
#[test]
fn moved_down(rt: HostRuntime) -> Result<(), Fail> {
    let file = small_image(rt.alloc(), A0, 0x4000, 7)?;
    let memory = memory_of(rt.alloc(), file, &[bytes(0x1000, 0, 128)])?;
    let want = Image {
        header: 0x1000,
        slide: 0xffff_ffff_0000_1000,
        ..SMALL
    };
    assert_eq!(rt; parse(&memory, Arch::X86_64, 0x1000), Ok(want));
    Ok(())
}

// The small image, whose header says that there are as many commands as can be, of as many bytes as
// can be.
fn endless(alloc: Global) -> Result<Vec<u8>, AllocError> {
    let mut file = small_image(alloc, A0, 0x4000, 7)?;
    set_word(&mut file, 16, u32::MAX);
    set_word(&mut file, 20, u32::MAX);
    Ok(file)
}

#[test]
fn most_commands(rt: HostRuntime) -> Result<(), Fail> {
    let alloc = rt.alloc();
    let memory = memory_of(alloc, endless(alloc)?, &[bytes(A0, 0, 128)])?;
    assert_eq!(rt;
        parse(&memory, Arch::X86_64, A0),
        Err(ImageFault::Unreadable { at: A0 + 128 })
    );
    // With zeros behind them the third one has no length.
    let memory = memory_of(alloc, endless(alloc)?, &[padded(A0, 0x2_0000_0000, 0, 128)])?;
    assert_eq!(rt; parse(&memory, Arch::X86_64, A0), bad(2));
    Ok(())
}

// As many sections as the command of a segment can have.
const MOST: u32 = 53_687_090;

// An image of 104 bytes with these sections, which are to follow, and the 80 bytes of one section.
fn with_sections(alloc: Global, size: u32, sections: u32) -> Result<Vec<u8>, AllocError> {
    let mut file = Vec::new(alloc);
    add_header(&mut file, 1, u32::MAX)?;
    add_segment(&mut file, TEXT, [A0, 0x4000, 0, 0], size, sections)?;
    add_section(&mut file, UNWIND_INFO, A0 + 16, 32)?;
    Ok(file)
}

// Sections that lie in zeros of which the file has none cost nothing.
#[test]
fn most_sections(rt: HostRuntime) -> Result<(), Fail> {
    let alloc = rt.alloc();
    let size = 72 + 80 * MOST;
    let none = Image {
        uuid: None,
        ..SMALL
    };
    let file = with_sections(alloc, size, MOST)?;
    let memory = memory_of(alloc, file, &[padded(A0, 0x2_0000_0000, 0, 104)])?;
    assert_eq!(rt; parse(&memory, Arch::X86_64, A0), Ok(none));
    // The last section is the one of the file.
    let last = 104 + 80 * u64::from(MOST - 1);
    let file = with_sections(alloc, size, MOST)?;
    let regions = [padded(A0, last, 0, 104), bytes(A0 + last, 104, 80)];
    let memory = memory_of(alloc, file, &regions)?;
    let found = Image {
        unwind: Some(Part {
            at: A0 + 16,
            size: 32,
        }),
        ..none
    };
    assert_eq!(rt; parse(&memory, Arch::X86_64, A0), Ok(found));
    // One section more doesn't fit.
    let file = with_sections(alloc, u32::MAX, MOST + 1)?;
    let memory = memory_of(alloc, file, &[padded(A0, 0x2_0000_0000, 0, 104)])?;
    assert_eq!(rt; parse(&memory, Arch::X86_64, A0), bad(0));
    Ok(())
}
