//! The program of docs/using.md, letter for letter, and a run of it. docs/shown.py compares the
//! two.
ghost use Rattle.std.specs.Prelude.{◌≡◌};
ghost use Rattle.plcr_regs.specs.States.{IsWhole};
ghost use Rattle.plcr_encode.specs.Conditions.{AreWhole, IsWritable};

use plcr_encode::{Context, capture};
use plcr_imagelist::{Change, Hold, ImageList, OpenError, Pass, Progress, Window, Writer};
use plcr_io::{MemOut, PutFailed, Sink};
use plcr_machine::MOST_NODES;
use plcr_memory::{Memory, MemoryFault, are_backed};
use plcr_regs::{Arch, Registers};
use std::alloc::Global;
use std::process::Abort;
use std::test::Fail;

fn change(list: &ImageList, writer: Writer) -> Writer
    requires { writer.table ≡ list.now }
    ensures { result.table ≡ list.now }
{
    let (writer, loaded) = writer.load(list, 0x1_0000_0000, b"/usr/lib/libone.dylib");
    let (writer, unloaded) = writer.unload(list, 0x1_0000_0000);
    let _ = (loaded, unloaded);
    writer
}

fn load_by_steps(list: &ImageList, writer: Writer, header: u64, name: &[u8]) -> Option<Change>
    requires { writer.table ≡ list.now }
{
    let Ok(change) = writer.begin_load(list, header, name) else {
        return None;
    };
    match change.step(list) {
        Progress::More(change) => Some(change),
        Progress::Done(_) => None,
    }
}

fn report<K: Sink>(
    list: &ImageList,
    pass: Pass,
    memory: &Memory,
    threads: &[Registers],
    context: &Context,
    sink: &mut K,
) -> (Pass, Window, Result<u64, PutFailed>)
    requires pass { pass.table ≡ list.now }
    requires threads { AreWhole context.now.arch threads.now }
    requires context { IsWritable context.now }
    ensures pass { result.0.table ≡ list.now }
{
    let mut hold = pass.enter(list);
    for _ in 0..MOST_NODES + 1 {
        if !hold.next(list) {
            break;
        }
    }
    let written = write_walk(list, &mut hold, memory, threads, context, sink);
    let (pass, window) = hold.leave(list);
    (pass, window, written)
}

fn write_walk<K: Sink>(
    list: &ImageList,
    hold: &mut Hold,
    memory: &Memory,
    threads: &[Registers],
    context: &Context,
    sink: &mut K,
) -> Result<u64, PutFailed>
    requires hold { hold.old.walker.table ≡ list.now }
    requires threads { AreWhole context.now.arch threads.now }
    requires context { IsWritable context.now }
    ensures hold { hold.new.walker.table ≡ list.now }
{
    let mut images = hold.images(list);
    capture(&mut images, memory, threads, context, sink)
}

fn tell(list: &ImageList, writer: &mut Writer, hold: &mut Hold)
    requires writer { writer.old.table ≡ list.now }
    requires hold { hold.old.walker.table ≡ list.now }
    ensures writer { writer.new.table ≡ list.now }
    ensures hold { hold.new.walker.table ≡ list.now }
{
    let note = hold.note(list);
    writer.told(list, note);
}

/// How the report ends: the image, whose 11 bytes say its header, size 0 and its name, the signal
/// `SIGABRT` with `#0`, the process `app` and that no user asked for it.
const END: [u8; 45] = [
    0x22, 0x09, 0x08, 0x80, 0xa0, 0x01, 0x10, 0x00, 0x1a, 0x01, 0x78, 0x32, 0x0f, 0x0a, 0x07, 0x53,
    0x49, 0x47, 0x41, 0x42, 0x52, 0x54, 0x12, 0x02, 0x23, 0x30, 0x18, 0x00, 0x3a, 0x0b, 0x0a, 0x03,
    0x61, 0x70, 0x70, 0x10, 0x00, 0x28, 0x00, 0x30, 0x01, 0x4a, 0x02, 0x08, 0x00,
];

/// An x86-64 thread with rsp 0x7000 and rip 0x100000f50, all else 0.
fn stopped() -> Registers
    ensures { IsWhole Arch.X86_64 result }
{
    let mut value = [Some(0); 34];
    value[7] = Some(0x7000);
    value[16] = Some(0x1_0000_0f50);
    Registers {
        arch: Arch::X86_64,
        value,
    }
}

fn context() -> Context<'static>
    ensures writable { IsWritable result }
    ensures arch { result.arch ≡ Arch.X86_64 }
{
    Context {
        arch: Arch::X86_64,
        os: 0,
        os_version: b"0",
        timestamp: 0,
        identifier: b"app",
        version: b"1",
        signal: b"SIGABRT",
        code: b"#0",
        address: 0,
        process: b"app",
        pid: 0,
        ppid: 0,
        crashed: 0,
        user: false,
        bits: 64,
    }
}

/// A memory in which nothing is mapped.
fn nothing_mapped(alloc: Global) -> Result<Memory, MemoryFault> {
    let (file, regions) = (Vec::new(alloc), Vec::new(alloc));
    if are_backed(file.as_slice(), regions.as_slice()) {
        Memory::new(alloc, file, regions)
    } else {
        Err(MemoryFault::Memory)
    }
}

/// Two loads and an unload are counted before the report. A third load stays open.
fn use_both(
    rt: &impl Abort,
    alloc: Global,
    memory: &Memory,
    out: &mut MemOut,
) -> Result<(), OpenError> {
    let (list, writer, mut passes) = ImageList::open(alloc, 1024, 16)?;
    let Some(pass) = passes.pop() else {
        panic!(rt; "no pass")
    };
    let (mut writer, loaded) = change(&list, writer).load(&list, 0x5000, b"x");
    assert_eq!(rt; loaded, Ok(2));
    let (threads, about) = ([stopped()], context());
    let (pass, window, written) = report(&list, pass, memory, &threads, &about, out);
    assert_eq!(rt; window, Window { low: 3, high: 3 });
    assert_eq!(rt; written, Ok(282));
    let mut hold = pass.enter(&list);
    tell(&list, &mut writer, &mut hold);
    let _ = hold.leave(&list);
    assert!(rt; load_by_steps(&list, writer, 0x6000, b"y").is_some());
    Ok(())
}

// The report has 271 bytes without the image, and 11 that say its header, size 0 and its name.
#[test]
fn a_program_uses_the_list_and_the_encoder(rt: HostRuntime) -> Result<(), Fail> {
    let alloc = rt.alloc();
    let memory = nothing_mapped(alloc)?;
    let mut out = MemOut::new(alloc, 282, 282, Vec::new(alloc))?;
    if use_both(&rt, alloc, &memory, &mut out).is_err() {
        panic!(rt; "no memory")
    }
    assert!(rt; out.bytes().ends_with(&END));
    Ok(())
}
