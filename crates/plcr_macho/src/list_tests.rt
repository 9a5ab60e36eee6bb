use crate::fixtures::*;
use crate::{Images, ListImages, PlainImage, containing, images_hold};
use arrayvec::ArrayVec;
use plcr_memory::Memory;
use plcr_regs::Arch;
use std::test::*;

fn plain(header: u64, name: &[u8]) -> PlainImage {
    let mut image = PlainImage {
        header,
        name: ArrayVec::new(),
    };
    for byte in name {
        let _ = image.name.try_push(*byte);
    }
    image
}

fn first_at<I: Images>(images: &mut I, memory: &Memory, address: u64) -> Option<(usize, u64)> {
    let (index, image) = containing(images, memory, Arch::X86_64, address)?;
    Some((index, image.header))
}

// Two images of 0x4000 and 0 bytes at A0 and A0 + 0x1000, and one of 0x4000 at A0 + 0x2000.
#[test]
fn overlapping(rt: HostRuntime) -> Result<(), Fail> {
    let alloc = rt.alloc();
    let mut file = small_image(alloc, A0, 0x4000, 1)?;
    file.extend_from_slice(small_image(alloc, A0, 0, 2)?.as_slice())?;
    file.extend_from_slice(small_image(alloc, A0, 0x4000, 3)?.as_slice())?;
    let (low, empty, high) = (A0, A0 + 0x1000, A0 + 0x2000);
    let memory = memory_of(
        alloc,
        file,
        &[
            bytes(low, 0, 128),
            bytes(empty, 128, 128),
            bytes(high, 256, 128),
        ],
    )?;
    let rising = [
        plain(5, b"none"),
        plain(low, b"low"),
        plain(empty, b"empty"),
        plain(high, b"high"),
    ];
    let falling = [
        plain(high, b"high"),
        plain(empty, b"empty"),
        plain(low, b"low"),
    ];
    // An address, and the images that are found in either list.
    let cases = [
        (5, None, None),
        (A0 - 1, None, None),
        (A0, Some((1, low)), Some((2, low))),
        (A0 + 0x1000, Some((1, low)), Some((2, low))),
        (A0 + 0x1fff, Some((1, low)), Some((2, low))),
        (A0 + 0x2000, Some((1, low)), Some((0, high))),
        (A0 + 0x3fff, Some((1, low)), Some((0, high))),
        (A0 + 0x4000, Some((3, high)), Some((0, high))),
        (A0 + 0x5fff, Some((3, high)), Some((0, high))),
        (A0 + 0x6000, None, None),
        (u64::MAX, None, None),
    ];
    let mut room = [NO_SPOT; 4];
    for (address, rises, falls) in cases {
        assert_eq!(rt;
            first_at(&mut ListImages::new(&rising, &mut room), &memory, address),
            rises,
            "{address}"
        );
        assert_eq!(rt;
            first_at(&mut ListImages::new(&falling, &mut room), &memory, address),
            falls,
            "{address}"
        );
    }
    assert_eq!(rt;
        first_at(&mut ListImages::new(&[], &mut room), &memory, A0),
        None
    );
    images_hold();
    Ok(())
}

fn header_and_name<I: Images>(images: &mut I) -> (usize, u64, usize, u64, u64) {
    if images.count() < 2 || images.name_len(1) < 9 {
        return (0, 0, 0, 0, 0);
    }
    let header = images.header(1);
    let first = images.name_word(1, 0);
    let second = images.name_word(1, 1);
    (images.count(), header, images.name_len(1), first, second)
}

#[test]
fn listed(rt: HostRuntime) {
    let images = [plain(1, b""), plain(0x7000, b"/usr/libc")];
    let mut room = [NO_SPOT; 2];
    let want = (2, 0x7000, 9, 0x6269_6c2f_7273_752f, 0x63);
    assert_eq!(rt;
        header_and_name(&mut ListImages::new(&images, &mut room)),
        want
    );
}
