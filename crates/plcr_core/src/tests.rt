use super::*;
use crate::fixtures::{MAGIC, X86_64, add_segment, add_words, fault_in, words_file};
use plcr_regs::{Arch, Registers};
use std::alloc::{AllocError, Global};
use std::process::Abort;
use std::test::*;

// A thread of flavor 4 with rsp 0x7000 and rip 0x100000f50.
fn add_thread(file: &mut Vec<u8>, flavor: u32) -> Result<(), AllocError> {
    add_words(file, &[4, 184, flavor, 42])?;
    for i in 0..21 {
        let number: u64 = match i {
            7 => 0x7000,
            16 => 0x1_0000_0f50,
            _ => 0,
        };
        file.extend_from_slice(&number.to_le_bytes())?;
    }
    Ok(())
}

// A core of the segments and, where it has a thread, of one thread of that flavor.
fn core_file(
    alloc: Global,
    filetype: u32,
    segments: &[[u64; 4]],
    thread: Option<u32>,
) -> Result<Vec<u8>, AllocError> {
    let mut file = Vec::new(alloc);
    let (count, size) = match segments.len() {
        1 => (1, 72),
        _ => (2, 144),
    };
    let (commands, sizes) = match thread {
        Some(_) => (count + 1, size + 184),
        None => (count, size),
    };
    add_words(
        &mut file,
        &[MAGIC, X86_64, 3, filetype, commands, sizes, 0, 0],
    )?;
    for segment in segments {
        add_segment(&mut file, *segment)?;
    }
    if let Some(flavor) = thread {
        add_thread(&mut file, flavor)?;
    }
    Ok(file)
}

const STACK: [u64; 4] = [0x7000, 0x1000, 288, 0];

#[test]
fn a_core_has_its_region_and_its_thread(rt: HostRuntime) -> Result<(), Fail> {
    let file = core_file(rt.alloc(), 4, &[STACK], Some(4))?;
    assert_eq!(rt; file.len(), 288);
    let core = read_core(rt.alloc(), file)
        .ok()
        .ok_or("the bytes are a core")?;
    assert!(rt; core.arch == Arch::X86_64);
    assert_eq!(rt; core.memory.read_u64(0x7ff8), Some(0));
    assert_eq!(rt; core.memory.read_u8(0x8000), None);
    let mut value = [None; 34];
    for i in 0..21 {
        value[i] = Some(0);
    }
    value[7] = Some(0x7000);
    value[16] = Some(0x1_0000_0f50);
    let state = Registers {
        arch: Arch::X86_64,
        value,
    };
    assert!(rt; core.threads.as_slice() == [state].as_slice());
    cores_lie();
    groups_lie();
    Ok(())
}

// A core of the stack, a second segment and a thread of that flavor, cut off at a length, and its
// first fault. The whole has 360 bytes: a header of 32, two segments of 72 and a thread of 184.
#[derive(Clone, Copy)]
struct Cut {
    filetype: u32,
    start: u64,
    size: u64,
    thread: Option<u32>,
    length: usize,
    fault: CoreFault,
}

// The second segment begins within the stack.
const WHOLE: Cut = Cut {
    filetype: 4,
    start: 0x7800,
    size: 0x1000,
    thread: Some(4),
    length: 360,
    fault: CoreFault::Overlap {
        first: 0,
        second: 1,
    },
};

#[test]
fn faults_are_the_first_in_their_order(rt: HostRuntime) -> Result<(), Fail> {
    let cases = [
        WHOLE,
        Cut {
            length: 100,
            fault: CoreFault::Truncated { at: 100 },
            ..WHOLE
        },
        Cut {
            length: 31,
            fault: CoreFault::Truncated { at: 31 },
            ..WHOLE
        },
        // The magic is 0xfeedfacf.
        Cut {
            filetype: 2,
            fault: CoreFault::NotCore {
                magic: 4_277_009_103,
                filetype: 2,
            },
            ..WHOLE
        },
        Cut {
            thread: None,
            length: 176,
            fault: CoreFault::NoThread,
            ..WHOLE
        },
        Cut {
            thread: Some(5),
            fault: CoreFault::NoThread,
            ..WHOLE
        },
        Cut {
            start: 0xffff_ffff_ffff_fff0,
            size: 32,
            fault: CoreFault::Wraps { index: 1 },
            ..WHOLE
        },
    ];
    for cut in cases {
        let second = [cut.start, cut.size, 0, 0];
        let mut file = core_file(rt.alloc(), cut.filetype, &[STACK, second], cut.thread)?;
        file.truncate(cut.length);
        assert_eq!(rt; fault_in(rt.alloc(), file), Some(cut.fault));
    }
    Ok(())
}

// A core of that processor, the number of its load commands and their bytes, the words behind the
// header, and the core's fault.
#[derive(Clone, Copy)]
struct Refused<'a> {
    cputype: u32,
    commands: u32,
    size: u32,
    words: &'a [u32],
    fault: CoreFault,
}

fn bad(index: u32) -> CoreFault {
    CoreFault::BadCommand { index }
}

// A command of 8 bytes that gives nothing, of which the list has 7.
const SHORT_LIST: Refused<'static> = Refused {
    cputype: X86_64,
    commands: 1,
    size: 7,
    words: &[1, 8],
    fault: CoreFault::BadCommand { index: 0 },
};

fn are_refused<R: Abort + AllocGlobal>(rt: &R, cases: &[Refused]) -> Result<(), Fail> {
    for case in cases {
        let Refused {
            cputype,
            commands,
            size,
            words,
            fault,
        } = *case;
        let file = words_file(rt.alloc(), cputype, commands, size, words)?;
        assert_eq!(rt;
            fault_in(rt.alloc(), file),
            Some(fault),
            "{size} {}",
            words.len()
        );
    }
    Ok(())
}

// The list's end is looked at before the file's.
#[test]
fn load_commands_that_do_not_lie_are_refused(rt: HostRuntime) -> Result<(), Fail> {
    let cases = [
        // The processor is looked at first.
        Refused {
            cputype: 7,
            words: &[],
            fault: CoreFault::OtherCpu { cpu: 7 },
            ..SHORT_LIST
        },
        // The list ends within the front of a command, the first or the second.
        SHORT_LIST,
        Refused {
            words: &[1],
            ..SHORT_LIST
        },
        Refused {
            commands: 2,
            size: 15,
            words: &[1, 8, 1],
            fault: bad(1),
            ..SHORT_LIST
        },
        // The file ends there, behind the 32 bytes of the header and one word.
        Refused {
            size: 8,
            words: &[1],
            fault: CoreFault::Truncated { at: 36 },
            ..SHORT_LIST
        },
        // A command of 7 bytes, and one that passes the end of the list.
        Refused {
            size: 8,
            words: &[1, 7],
            ..SHORT_LIST
        },
        Refused {
            size: 12,
            words: &[1, 13, 0],
            ..SHORT_LIST
        },
        Refused {
            size: 12,
            words: &[1, 13],
            ..SHORT_LIST
        },
        // One that passes the end of the file, at 32 bytes and two words.
        Refused {
            size: 12,
            words: &[1, 12],
            fault: CoreFault::Truncated { at: 40 },
            ..SHORT_LIST
        },
    ];
    are_refused(&rt, &cases)
}

#[test]
fn load_commands_that_say_too_much_are_refused(rt: HostRuntime) -> Result<(), Fail> {
    let mut short = [0; 18];
    short[0] = 0x19;
    short[1] = 71;
    // A segment of 5 bytes from byte 100 of the file on, which has 32 and 72.
    let mut past = [0; 18];
    past[0] = 0x19;
    past[1] = 72;
    past[10] = 100;
    past[12] = 5;
    let segment = Refused {
        size: 72,
        ..SHORT_LIST
    };
    let thread = Refused {
        size: 20,
        ..SHORT_LIST
    };
    let cases = [
        Refused {
            words: &short,
            ..segment
        },
        Refused {
            words: &past,
            fault: CoreFault::Truncated { at: 104 },
            ..segment
        },
        // A group of two words, of which the command has one.
        Refused {
            words: &[4, 20, 9, 2, 0],
            ..thread
        },
        Refused {
            commands: 2,
            size: 28,
            words: &[1, 8, 5, 20, 9, 2, 0],
            fault: bad(1),
            ..thread
        },
        // A group of an unknown flavor is no thread.
        Refused {
            words: &[4, 20, 9, 1, 0],
            fault: CoreFault::NoThread,
            ..thread
        },
    ];
    are_refused(&rt, &cases)
}
