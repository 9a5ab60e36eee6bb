//! What the tests share: a core, its report, and desks and sinks in memory.

ghost use Rattle.std.specs.Prelude.{◌≡◌, ◌+◌, ◌*◌, ◌<◌, ◌≤◌};

use plcr_io::{MemDesk, MemFile, MemOut, NoMemory};
use plcr_regs::Arch;
use std::alloc::{AllocError, Global};
use std::test::Fail;

/// The report of one x86-64 thread, which was stopped with rsp 0x7000 and rip 0x100000f50, all else
/// 0.
pub const REPORT: [u8; 271] = [
    0x70, 0x6c, 0x63, 0x72, 0x61, 0x73, 0x68, 0x01, 0x0a, 0x09, 0x08, 0x00, 0x12, 0x01, 0x30, 0x18,
    0x01, 0x20, 0x00, 0x12, 0x08, 0x0a, 0x03, 0x61, 0x70, 0x70, 0x12, 0x01, 0x31, 0x1a, 0xcd, 0x01,
    0x08, 0x00, 0x12, 0x06, 0x18, 0xd0, 0x9e, 0x80, 0x80, 0x10, 0x18, 0x01, 0x22, 0x07, 0x0a, 0x03,
    0x72, 0x61, 0x78, 0x10, 0x00, 0x22, 0x07, 0x0a, 0x03, 0x72, 0x62, 0x78, 0x10, 0x00, 0x22, 0x07,
    0x0a, 0x03, 0x72, 0x63, 0x78, 0x10, 0x00, 0x22, 0x07, 0x0a, 0x03, 0x72, 0x64, 0x78, 0x10, 0x00,
    0x22, 0x07, 0x0a, 0x03, 0x72, 0x64, 0x69, 0x10, 0x00, 0x22, 0x07, 0x0a, 0x03, 0x72, 0x73, 0x69,
    0x10, 0x00, 0x22, 0x07, 0x0a, 0x03, 0x72, 0x62, 0x70, 0x10, 0x00, 0x22, 0x09, 0x0a, 0x03, 0x72,
    0x73, 0x70, 0x10, 0x80, 0xe0, 0x01, 0x22, 0x06, 0x0a, 0x02, 0x72, 0x38, 0x10, 0x00, 0x22, 0x06,
    0x0a, 0x02, 0x72, 0x39, 0x10, 0x00, 0x22, 0x07, 0x0a, 0x03, 0x72, 0x31, 0x30, 0x10, 0x00, 0x22,
    0x07, 0x0a, 0x03, 0x72, 0x31, 0x31, 0x10, 0x00, 0x22, 0x07, 0x0a, 0x03, 0x72, 0x31, 0x32, 0x10,
    0x00, 0x22, 0x07, 0x0a, 0x03, 0x72, 0x31, 0x33, 0x10, 0x00, 0x22, 0x07, 0x0a, 0x03, 0x72, 0x31,
    0x34, 0x10, 0x00, 0x22, 0x07, 0x0a, 0x03, 0x72, 0x31, 0x35, 0x10, 0x00, 0x22, 0x0b, 0x0a, 0x03,
    0x72, 0x69, 0x70, 0x10, 0xd0, 0x9e, 0x80, 0x80, 0x10, 0x22, 0x0a, 0x0a, 0x06, 0x72, 0x66, 0x6c,
    0x61, 0x67, 0x73, 0x10, 0x00, 0x22, 0x06, 0x0a, 0x02, 0x63, 0x73, 0x10, 0x00, 0x22, 0x06, 0x0a,
    0x02, 0x66, 0x73, 0x10, 0x00, 0x22, 0x06, 0x0a, 0x02, 0x67, 0x73, 0x10, 0x00, 0x32, 0x0f, 0x0a,
    0x07, 0x53, 0x49, 0x47, 0x41, 0x42, 0x52, 0x54, 0x12, 0x02, 0x23, 0x30, 0x18, 0x00, 0x3a, 0x0b,
    0x0a, 0x03, 0x61, 0x70, 0x70, 0x10, 0x00, 0x28, 0x00, 0x30, 0x01, 0x4a, 0x02, 0x08, 0x00,
];

/// What is changed in a core of one segment at 0x7000 and one thread. With images it has eight,
/// 0x4000 apart from 0x100000000 on.
#[derive(Clone, Copy, Debug)]
pub enum Core {
    Whole,
    WithImages,
    Cut,
    Executable,
    Overlapping,
    Wrapping,
    WithoutThread,
    /// Its thread's state stands in a wrapping state.
    WrappedState,
}

fn add_u32s(bytes: &mut Vec<u8>, numbers: &[u32]) -> Result<(), AllocError> {
    for number in numbers {
        bytes.extend_from_slice(&number.to_le_bytes())?;
    }
    Ok(())
}

fn add_u64s(bytes: &mut Vec<u8>, numbers: &[u64]) -> Result<(), AllocError> {
    for number in numbers {
        bytes.extend_from_slice(&number.to_le_bytes())?;
    }
    Ok(())
}

/// A segment without file bytes.
fn add_segment(bytes: &mut Vec<u8>, start: u64, size: u64) -> Result<(), AllocError> {
    add_u32s(bytes, &[0x19, 72, 0, 0, 0, 0])?;
    add_u64s(bytes, &[start, size, 0x120, 0])?;
    add_u32s(bytes, &[3, 3, 0, 0])
}

/// The address of an image.
fn image_at(k: u32) -> u64
    requires { k < 400 }
    ensures { result ≡ 4294967296 + 16384 * k }
{
    0x1_0000_0000 + 0x4000 * u64::from(k)
}

/// The segment of an image. The 128 bytes of each stand behind those of the one before, from a
/// place on.
fn add_image_segment(bytes: &mut Vec<u8>, start: u32, k: u32) -> Result<(), AllocError>
    requires { k < 400 }
{
    let place = u64::from(start) + 128 * u64::from(k);
    add_u32s(bytes, &[0x19, 72, 0, 0, 0, 0])?;
    add_u64s(bytes, &[image_at(k), 0x4000, place, 128])?;
    add_u32s(bytes, &[5, 5, 0, 0])
}

/// An image: a header, a segment `__TEXT` and a uuid that ends with its number.
fn add_image(bytes: &mut Vec<u8>, k: u32) -> Result<(), AllocError>
    requires { k < 400 }
{
    add_u32s(bytes, &[0xfeed_facf, 0x0100_0007, 3, 6, 2, 96, 0, 0])?;
    add_u32s(bytes, &[0x19, 72, 0x4554_5f5f, 0x5458, 0, 0])?;
    add_u64s(bytes, &[image_at(k), 0x4000, 0, 0x4000])?;
    add_u32s(bytes, &[5, 5, 0, 0])?;
    add_u32s(bytes, &[0x1b, 24, 0, 0, 0, k.swap_bytes()])
}

fn add_thread(bytes: &mut Vec<u8>) -> Result<(), AllocError> {
    add_u32s(bytes, &[4, 184, 4, 42])?;
    add_state(bytes)
}

fn add_state(bytes: &mut Vec<u8>) -> Result<(), AllocError> {
    for register in 0..21u32 {
        let value = match register {
            7 => 0x7000,
            16 => 0x1_0000_0f50,
            _ => 0,
        };
        add_u64s(bytes, &[value])?;
    }
    Ok(())
}

pub fn core_bytes(alloc: Global, core: Core) -> Result<Vec<u8>, AllocError> {
    let mut bytes = Vec::new(alloc);
    let (filetype, commands, size) = match core {
        Core::Executable => (2, 2, 256),
        Core::Overlapping | Core::Wrapping => (4, 3, 328),
        Core::WithoutThread => (4, 1, 72),
        Core::WithImages => return image_core(alloc, 8, 1),
        Core::WrappedState => (4, 2, 264),
        _ => (4, 2, 256),
    };
    add_u32s(
        &mut bytes,
        &[0xfeed_facf, 0x0100_0007, 3, filetype, commands, size, 0, 0],
    )?;
    add_segment(&mut bytes, 0x7000, 0x1000)?;
    match core {
        Core::Overlapping => add_segment(&mut bytes, 0x7800, 0x1000)?,
        Core::Wrapping => add_segment(&mut bytes, 0xffff_ffff_ffff_fff0, 32)?,
        _ => {}
    }
    match core {
        Core::WithoutThread => {}
        Core::WrappedState => {
            add_u32s(&mut bytes, &[4, 192, 7, 44, 4, 42])?;
            add_state(&mut bytes)?
        }
        _ => add_thread(&mut bytes)?,
    }
    if matches!(core, Core::Cut) {
        bytes.truncate(100);
    }
    Ok(bytes)
}

/// A core of so many images and of so many threads, all in one state, with a segment at 0x7000.
pub fn image_core(alloc: Global, images: u32, threads: u32) -> Result<Vec<u8>, AllocError>
    requires { (images ≤ 400) × (threads ≤ 16) }
{
    let mut bytes = Vec::new(alloc);
    let commands = images + 1 + threads;
    let size = 72 * (images + 1) + 184 * threads;
    let head = [0xfeed_facf, 0x0100_0007, 3, 4, commands, size, 0, 0];
    add_u32s(&mut bytes, &head)?;
    for k in 0..images {
        add_image_segment(&mut bytes, 32 + size, k)?;
    }
    add_segment(&mut bytes, 0x7000, 0x1000)?;
    for _ in 0..threads {
        add_thread(&mut bytes)?;
    }
    for k in 0..images {
        add_image(&mut bytes, k)?;
    }
    Ok(bytes)
}

/// The registers of a thread that was stopped with this pc and this frame pointer, and with its
/// stack at 0x7000, all else 0.
fn add_registers(bytes: &mut Vec<u8>, arch: Arch, pc: u64, fp: u64) -> Result<(), AllocError> {
    let (count, places) = match arch {
        Arch::X86_64 => (21, [6, 7, 16]),
        Arch::Arm64 => (34, [29, 31, 32]),
    };
    for register in 0..count {
        let value = match places.iter().position(|place| *place == register) {
            Some(0) => fp,
            Some(1) => 0x7000,
            Some(2) => pc,
            _ => 0,
        };
        add_u64s(bytes, &[value])?;
    }
    Ok(())
}

/// A core of one thread with this pc and this frame pointer. These words stand at 0x7100; without
/// any, a segment at 0x7000 has no file bytes.
pub fn thread_core(
    alloc: Global,
    arch: Arch,
    pc: u64,
    fp: u64,
    words: &[u64],
) -> Result<Vec<u8>, AllocError> {
    let mut bytes = Vec::new(alloc);
    let (cpu, state, flavor) = match arch {
        Arch::X86_64 => (0x0100_0007, 42, 4),
        Arch::Arm64 => (0x0100_000c, 68, 6),
    };
    let thread = 16 + 4 * state;
    add_u32s(&mut bytes, &[0xfeed_facf, cpu, 0, 4, 2, 72 + thread, 0, 0])?;
    if words.is_empty() {
        add_segment(&mut bytes, 0x7000, 0x1000)?;
    } else {
        let size = 8 * (words.len() % 4096) as u64;
        add_u32s(&mut bytes, &[0x19, 72, 0, 0, 0, 0])?;
        add_u64s(&mut bytes, &[0x7100, size, 104 + u64::from(thread), size])?;
        add_u32s(&mut bytes, &[3, 3, 0, 0])?;
    }
    add_u32s(&mut bytes, &[4, thread, flavor, state])?;
    add_registers(&mut bytes, arch, pc, fp)?;
    add_u64s(&mut bytes, words)?;
    Ok(bytes)
}

/// The words of a command line.
pub fn words(alloc: Global, words: &[&str]) -> Result<Vec<String>, Fail> {
    let mut owned = Vec::new(alloc);
    for word in words {
        owned.push(String::from_str(alloc, word)?)?;
    }
    Ok(owned)
}

/// A file of this name.
pub fn file_of(alloc: Global, name: &str, bytes: &[u8]) -> Result<MemFile, Fail> {
    Ok(MemFile {
        name: String::from_str(alloc, name)?,
        bytes: Vec::from_slice(alloc, bytes)?,
    })
}

/// A desk with the core `c` of these bytes and the script `s`, and three outputs of so much room;
/// the puts of these numbers to the first of them fail.
pub fn desk_of(
    alloc: Global,
    core: Vec<u8>,
    script: &[u8],
    room: usize,
    puts: Vec<u32>,
) -> Result<MemDesk, Fail> {
    let core = MemFile {
        name: String::from_str(alloc, "c")?,
        bytes: core,
    };
    let script = MemFile {
        name: String::from_str(alloc, "s")?,
        bytes: Vec::from_slice(alloc, script)?,
    };
    let one = MemOut::new(alloc, room, 300, puts)?;
    let two = MemOut::new(alloc, room, 300, Vec::new(alloc))?;
    let three = MemOut::new(alloc, room, 300, Vec::new(alloc))?;
    let files = vec![in alloc; core, script]?;
    let outs = vec![in alloc; one, two, three]?;
    Ok(MemDesk::new(alloc, files, outs, Vec::new(alloc))?)
}

/// A desk with the core `c` and the script `s`, and two outputs; its calls of these numbers fail,
/// and the puts of those numbers to the second output.
pub fn desk(
    alloc: Global,
    core: Core,
    script: &[u8],
    failing: Vec<u32>,
    puts: Vec<u32>,
) -> Result<MemDesk, Fail> {
    let core = MemFile {
        name: String::from_str(alloc, "c")?,
        bytes: core_bytes(alloc, core)?,
    };
    let script = MemFile {
        name: String::from_str(alloc, "s")?,
        bytes: Vec::from_slice(alloc, script)?,
    };
    let one = MemOut::new(alloc, 400, 100, Vec::new(alloc))?;
    let two = MemOut::new(alloc, 400, 100, puts)?;
    let files = vec![in alloc; core, script]?;
    Ok(MemDesk::new(alloc, files, vec![in alloc; one, two]?, failing)?)
}

pub fn lines(alloc: Global) -> Result<MemOut, NoMemory> {
    MemOut::new(alloc, 512, 64, Vec::new(alloc))
}
