//! The readers in their order.
use crate::fixtures::*;
use crate::tests::{Told, state_with, walked};
use arrayvec::ArrayVec;
use plcr_macho::{ListImages, PlainImage, Spot};
use plcr_memory::{Memory, MemoryFault};
use plcr_regs::Arch;
use std::alloc::{AllocError, Global};
use std::test::*;

const NO_SPOT: Spot = Spot {
    start: 0,
    size: 0,
    reach: 0,
    position: 0,
};

fn listed(header: u64) -> PlainImage {
    PlainImage {
        header,
        name: ArrayVec::new(),
    }
}

// The frames of a thread in this state over the one image, and whether they end.
fn told_of(
    alloc: Global,
    memory: &Memory,
    pc: u64,
    sp: u64,
    fp: u64,
) -> Result<(Vec<Told>, bool), AllocError> {
    let images = [listed(IMAGE)];
    let mut room = [NO_SPOT; 1];
    let mut list = ListImages::new(&images, &mut room);
    let state = state_with(Arch::X86_64, pc, sp, fp);
    walked(alloc, memory, &mut list, &state, 64)
}

// A pc, a stack pointer and a frame pointer, and the frames from there on: the pc of each, the
// address that is looked up, and what told it (1 compact unwind information, 2 call frame
// information, 3 a saved frame).
const WALKS: [((u64, u64, u64), &[(u64, u64, u8)]); 8] = [
    // Compact unwind information counts, though the others tell a caller too.
    (
        (0x1_0410, 0x7010, 0x7000),
        &[(0x1_0410, 0x1_0410, 0), (0x9000, 0x8fff, 1)],
    ),
    // It leaves the function to call frame information. In no image there are saved frames alone.
    (
        (0x1_0510, 0x7010, 0x7000),
        &[
            (0x1_0510, 0x1_0510, 0),
            (0xa000, 0x9fff, 2),
            (0x9000, 0x8fff, 3),
        ],
    ),
    // Neither of the two tells a caller: the expression of the one takes too many operations.
    (
        (0x1_0610, 0x7010, 0x7000),
        &[(0x1_0610, 0x1_0610, 0), (0x9000, 0x8fff, 3)],
    ),
    // Nor where call frame information has no such function.
    (
        (0x1_0690, 0x7010, 0x7000),
        &[(0x1_0690, 0x1_0690, 0), (0x9000, 0x8fff, 3)],
    ),
    // Call frame information tells that there is no caller, though there is a saved frame.
    ((0x1_0710, 0x7010, 0x7000), &[(0x1_0710, 0x1_0710, 0)]),
    // The caller of a signal frame stands at its pc, where another function begins.
    (
        (0x1_0790, 0x7018, 0x7000),
        &[
            (0x1_0790, 0x1_0790, 0),
            (0x1_0500, 0x1_0500, 2),
            (0xb000, 0xafff, 2),
            (0x9000, 0x8fff, 3),
        ],
    ),
    // Any other caller is looked up one before it.
    (
        (0x9000, 0x7010, 0x7028),
        &[
            (0x9000, 0x9000, 0),
            (0x1_0500, 0x1_04ff, 3),
            (0xc000, 0xbfff, 1),
        ],
    ),
    // Also at the end of the image.
    (
        (0x9000, 0x7010, 0x7048),
        &[
            (0x9000, 0x9000, 0),
            (0x1_0800, 0x1_07ff, 3),
            (0xd000, 0xd000, 2),
            (0xe000, 0xdfff, 3),
        ],
    ),
];

#[test]
fn readers_are_asked_in_their_order(rt: HostRuntime) -> Result<(), Fail> {
    let memory = memory_with_image(rt.alloc(), WHOLE)?;
    for ((pc, sp, fp), want) in WALKS {
        let (told, ends) = told_of(rt.alloc(), &memory, pc, sp, fp)?;
        assert!(rt; ends);
        assert_eq!(rt; told.len(), want.len(), "{pc}");
        for (told, want) in told.iter().zip(want) {
            assert!(rt; *told == (want.0, Some(want.1), Some(want.2)), "{pc}");
        }
    }
    Ok(())
}

// So many images, of which the first and the last lie in memory.
const MANY: usize = 1025;

// Frames that go from the one image to the other and back.
#[test]
fn what_is_kept_of_two_images_stays_apart(rt: HostRuntime) -> Result<(), Fail> {
    let memory = memory_with_image(rt.alloc(), WHOLE)?;
    let mut images = Vec::new(rt.alloc());
    images.push(listed(IMAGE))?;
    for _ in 2..MANY {
        images.push(listed(1))?;
    }
    images.push(listed(IMAGE + 0x1_0000))?;
    let mut room = [NO_SPOT; MANY];
    if images.len() != MANY {
        return Err(Fail::from("not so many"));
    }
    let mut list = ListImages::new(images.as_slice(), &mut room);
    let state = state_with(Arch::X86_64, 0x1_0410, 0x7010, 0x7070);
    let (told, ends) = walked(rt.alloc(), &memory, &mut list, &state, 64)?;
    assert!(rt; ends);
    let want = [
        (0x1_0410, Some(0x1_0410), Some(0)),
        (0x2_0411, Some(0x2_0410), Some(1)),
        (0x1_0411, Some(0x1_0410), Some(1)),
        (0x2_0511, Some(0x2_0510), Some(1)),
    ];
    assert!(rt; told.as_slice() == want.as_slice());
    Ok(())
}

// Whether the frames from each of these functions begin with the thread's own, and end.
fn all_end(alloc: Global, cut: Cut, functions: &[u64]) -> Result<bool, MemoryFault> {
    let memory = memory_with_image(alloc, cut)?;
    let mut all = true;
    for pc in functions {
        let (told, ends) = told_of(alloc, &memory, *pc, 0x7018, 0x7000)?;
        all &= ends && told.first() == Some(&(*pc, Some(*pc), Some(0)));
    }
    Ok(all)
}

// The tables are cut at each of their bytes, by what is mapped of them and by their sizes.
#[test]
fn frames_over_cut_tables_end(rt: HostRuntime) -> Result<(), Fail> {
    let (compact_function, signal_function) = (0x1_0410, 0x1_0790);
    for image in IMAGE_HEADER..=IMAGE_BYTES {
        let cut = Cut { image, ..WHOLE };
        let functions = [compact_function, signal_function];
        assert!(rt; all_end(rt.alloc(), cut, &functions)?, "{image}");
    }
    for compact in 0..=COMPACT_BYTES {
        let cut = Cut { compact, ..WHOLE };
        assert!(rt; all_end(rt.alloc(), cut, &[compact_function])?, "{compact}");
    }
    for call_frames in 0..=CALL_FRAME_BYTES {
        let cut = Cut {
            call_frames,
            ..WHOLE
        };
        assert!(rt;
            all_end(rt.alloc(), cut, &[signal_function])?,
            "{call_frames}"
        );
    }
    Ok(())
}
