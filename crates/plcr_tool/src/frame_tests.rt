use crate::fixtures::{desk_of, lines, thread_core};
use crate::report::report_command;
use plcr_decode::decode;
use plcr_regs::Arch;
use std::alloc::Global;
use std::test::Fail;

// A thread that was stopped with its stack at 0x7000 and this pc, all else 0.
const PC: u64 = 0x1_0000_0f50;

#[test]
fn an_arm64_thread_is_reported(rt: HostRuntime) -> Result<(), Fail> {
    let alloc = rt.alloc();
    let core = thread_core(alloc, Arch::Arm64, PC, 0, &[])?;
    assert_eq!(rt; core.len(), 392);
    let mut desk = desk_of(alloc, core, b"report 0 a\n", 20_000, Vec::new(alloc))?;
    let mut lines = lines(alloc)?;
    assert_eq!(rt;
        report_command(alloc, "c", "s", &mut desk, &mut lines, &mut None),
        0
    );
    assert_eq!(rt; lines.bytes(), b"1 report a 377 0 0 0\n".as_slice());
    Ok(())
}

// Behind the thread's number stand its frames: that of the state, and 0x2000. The one behind it is
// at 4,096. Against the report of the same thread without a frame pointer, there are 5 bytes more
// for the frame, and 2 for the frame pointer.
#[test]
fn the_bytes_of_frames(rt: HostRuntime) -> Result<(), Fail> {
    let alloc = rt.alloc();
    let words = [0x7120, 0x2000, 0, 0, 0, 0x1000];
    let core = thread_core(alloc, Arch::Arm64, PC, 0x7100, &words)?;
    let mut desk = desk_of(alloc, core, b"report 0 a\n", 20_000, Vec::new(alloc))?;
    let mut lines = lines(alloc)?;
    assert_eq!(rt;
        report_command(alloc, "c", "s", &mut desk, &mut lines, &mut None),
        0
    );
    assert_eq!(rt; lines.bytes(), b"1 report a 384 0 0 0\n".as_slice());
    let file = desk.file("a").ok_or("not kept")?;
    assert!(rt; file.len() == 384);
    let thread = [
        0x1a, 0xbe, 0x02, 0x08, 0x00, 0x12, 0x06, 0x18, 0xd0, 0x9e, 0x80, 0x80, 0x10, 0x12, 0x03,
        0x18, 0x80, 0x40, 0x18, 0x01, 0x22, 0x06, 0x0a, 0x02, b'x', b'0', 0x10, 0x00,
    ];
    assert!(rt; file.split_at(29).1.starts_with(&thread));
    Ok(())
}

// The pcs of the frames of the one thread in the report of this core, and the value of its register
// `pc`.
fn frames_told(
    alloc: Global,
    arch: Arch,
    script: &[u8],
    pc: u64,
    words: &[u64],
) -> Result<(Vec<u64>, Option<u64>), Fail> {
    let core = thread_core(alloc, arch, pc, 0x7100, words)?;
    let mut desk = desk_of(alloc, core, script, 20_000, Vec::new(alloc))?;
    let mut lines = lines(alloc)?;
    let status = report_command(alloc, "c", "s", &mut desk, &mut lines, &mut None);
    if status != 0 {
        return Err("not reported".into());
    }
    let report = match decode(alloc, desk.file("a").ok_or("not kept")?) {
        Ok(report) => report,
        Err(_) => return Err("not read".into()),
    };
    let thread = report.threads.first().ok_or("no thread")?;
    let mut pcs = Vec::new(alloc);
    for frame in thread.frames.iter() {
        pcs.push(frame.pc)?;
    }
    let mut counter = None;
    for register in thread.registers.iter() {
        if matches!(register.name.as_slice(), b"pc" | b"rip") {
            counter = Some(register.value);
        }
    }
    Ok((pcs, counter))
}

// An address of code with a signature in its bits from 47 on, and without it.
const SIGNED: u64 = 0x002a_0001_0000_4100;

const PLAIN: u64 = 0x1_0000_4100;

const PLAIN_BITS: &[u8] = b"report 0 a\n";

const BITS_47: &[u8] = b"set bits 47\nreport 0 a\n";

// Frames end where the next frame pointer doesn't rise, where it isn't mapped, and at the null
// page. What of an address of code counts is told by `bits`, on arm64 alone; the register stays as
// it is.
#[test]
fn frames_by_saved_frame_pointers(rt: HostRuntime) -> Result<(), Fail> {
    let alloc = rt.alloc();
    let (arm64, x86_64) = (Arch::Arm64, Arch::X86_64);
    let cases = [
        (x86_64, PLAIN_BITS, PC, [0x7100, 0x2000], [PC].as_slice()),
        (x86_64, PLAIN_BITS, PC, [0, 4096], [PC].as_slice()),
        (x86_64, PLAIN_BITS, PC, [0, 4097], [PC, 4097].as_slice()),
        (arm64, BITS_47, PC, [0x7120, SIGNED], [PC, PLAIN].as_slice()),
        (
            arm64,
            BITS_47,
            PC,
            [0x7120, 0x7f80_0000_0000_1000],
            [PC].as_slice(),
        ),
        (arm64, BITS_47, SIGNED, [0, 0], [PLAIN].as_slice()),
        (arm64, PLAIN_BITS, SIGNED, [0, 0], [SIGNED].as_slice()),
        (
            arm64,
            b"set bits 32\nreport 0 a\n".as_slice(),
            SIGNED,
            [0, SIGNED],
            [0x4100, 0x4100].as_slice(),
        ),
        (
            x86_64,
            BITS_47,
            SIGNED,
            [0, SIGNED],
            [SIGNED, SIGNED].as_slice(),
        ),
    ];
    for (arch, script, pc, words, want) in cases {
        let (pcs, counter) = frames_told(alloc, arch, script, pc, &words)?;
        assert!(rt; pcs.as_slice() == want, "{pc} {}", pcs.len());
        assert!(rt; counter == Some(pc));
    }
    Ok(())
}

// 600 saved frames, each 16 bytes above the one before: 512 frames with the state's.
#[test]
fn a_thread_has_512_frames(rt: HostRuntime) -> Result<(), Fail> {
    let alloc = rt.alloc();
    let mut words = Vec::new(alloc);
    for i in 0..600u64 {
        words.push(0x7110 + 16 * i)?;
        words.push(0x1_0000 + i)?;
    }
    let (pcs, _) = frames_told(alloc, Arch::X86_64, PLAIN_BITS, PC, words.as_slice())?;
    assert_eq!(rt; pcs.len(), 512);
    assert!(rt; pcs.last() == Some(&(0x1_0000 + 510)));
    Ok(())
}
