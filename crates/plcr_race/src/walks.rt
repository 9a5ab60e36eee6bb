//! Walks on threads, while a writer on another loads and unloads until all have ended.
ghost use Rattle.std.specs.Prelude.{◌≡◌, ◌≤◌, ◌*◌, length, All, IfOk};
ghost use Rattle.std.specs.Thread.{IsSync};
ghost use Rattle.plcr_machine.specs.declared.limits.TheConstants.{MOST_NODES};
ghost use Rattle.plcr_imagelist.specs.Holds.{WalkerState};
ghost use Rattle.plcr_race.specs.Counting.{AreWalks, IsWalk, MakesChanges};
ghost use Rattle.plcr_race.specs.inner.Walking.{WalkEach};

use crate::list::{fill, load, open, unload};
use plcr_imagelist::{ImageList, Pass, Writer};
use std::alloc::{AllocError, Global};
use std::rt::Clock;
use std::sync::atomic::{AtomicBool, Ordering};
use std::thread::Threads;
use std::time::Instant;
use std::{io, thread};

/// So many images are in the list, where it has the nodes.
const IMAGES: u32 = 100;

/// The rounds after which the writer gives up, many hours of them.
const MOST_ROUNDS: u64 = 1_000_000_000_000;

// Goes in, walks to the end and comes out, and gives how many images it met.
fn walk_once(list: &ImageList, pass: Pass) -> (Pass, u32)
    requires { pass.table ≡ list.now }
    ensures list { result.0.table ≡ list.now }
    ensures walks { IsWalk pass result.1 result.0 }
    ensures most { result.1 ≤ MOST_NODES }
{
    let mut hold = pass.enter(list);
    let mut met = 0;
    while hold.next(list) {
        met += 1;
    }
    let (pass, _) = hold.leave(list);
    (pass, met)
}

/// Walks so often, and gives how many images it met.
pub fn walk(list: &ImageList, pass: Pass, rounds: u32) -> (Pass, u64)
    requires { pass.table ≡ list.now }
    ensures list { result.0.table ≡ list.now }
    ensures walks { AreWalks pass rounds result.1 result.0 }
    ensures most { result.1 ≤ MOST_NODES * rounds }
{
    let mut pass = pass;
    let mut met = 0u64;
    for _ in 0..rounds {
        let (out, images) = walk_once(list, pass);
        pass = out;
        met += u64::from(images);
    }
    (pass, met)
}

// Each pass walks so often, each on a thread of its own, and each gives how many images it met.
fn walk_all<R: Threads + Sync>(
    rt: &R,
    list: &ImageList,
    passes: Vec<Pass>,
    rounds: u32,
) -> Result<Vec<(Pass, u64)>, AllocError>
    requires { All (λ (p : WalkerState). p.table ≡ list.now) passes.items }
    ensures each { IfOk result (λ ends. length ends.items ≡ length passes.items) }
    ensures walks { IfOk result (λ ends. WalkEach rounds passes.items ends.items) }
{
    thread::map_vec(
        rt,
        passes,
        &move |pass: Pass| -> (Pass, u64)
            requires { pass.table ≡ list.now }
            ensures { AreWalks pass rounds result.1 result.0 }
        { walk(list, pass, rounds) },
    )
}

// Loads an image and unloads the oldest where the load wasn't refused, and gives how many changes
// were made.
fn change_once(list: &ImageList, writer: Writer, oldest: u64) -> (Writer, u64)
    requires { writer.table ≡ list.now }
    ensures list { result.0.table ≡ list.now }
    ensures counts { MakesChanges writer result.1 result.0 }
    ensures most { result.1 ≤ 2 }
{
    let (writer, loaded) = load(list, writer, oldest.saturating_add(IMAGES as u64));
    if !loaded {
        return (writer, 0);
    }
    let (writer, unloaded) = unload(list, writer, oldest);
    (writer, if unloaded { 2 } else { 1 })
}

// Loads and unloads until the walks have ended, and gives how many changes were made.
fn change_until(list: &ImageList, writer: Writer, ended: &AtomicBool) -> (Writer, u64)
    requires { writer.table ≡ list.now }
    ensures { MakesChanges writer result.1 result.0 }
{
    let mut writer = writer;
    let mut made = 0u64;
    for _ in 0..MOST_ROUNDS {
        if ended.load(Ordering::SeqCst) {
            break;
        }
        let (next, changes) = change_once(list, writer, made / 2 + 1);
        writer = next;
        made += changes;
    }
    (writer, made)
}

// The writer and all passes.
fn run<R: Threads + Sync>(
    rt: &R,
    list: &ImageList,
    writer: Writer,
    passes: Vec<Pass>,
    rounds: u32,
) -> ((Writer, u64), Result<Vec<(Pass, u64)>, AllocError>)
    requires writer { writer.table ≡ list.now }
    requires passes { All (λ (p : WalkerState). p.table ≡ list.now) passes.items }
    ensures counts { MakesChanges writer result.0.1 result.0.0 }
    ensures each { IfOk result.1 (λ ends. length ends.items ≡ length passes.items) }
    ensures walks { IfOk result.1 (λ ends. WalkEach rounds passes.items ends.items) }
{
    let ended = AtomicBool::new(false);
    let flag = &ended;
    thread::join(
        rt,
        move || -> (Writer, u64)
            requires { writer.table ≡ list.now }
            ensures { MakesChanges writer result.1 result.0 }
        { change_until(list, writer, flag) },
        move || -> Result<Vec<(Pass, u64)>, AllocError>
            requires { IsSync R.row × All (λ (p : WalkerState). p.table ≡ list.now) passes.items }
            ensures each { IfOk result (λ ends. length ends.items ≡ length passes.items) }
            ensures walks { IfOk result (λ ends. WalkEach rounds passes.items ends.items) }
        {
            let ends = walk_all(rt, list, passes, rounds);
            flag.store(true, Ordering::SeqCst);
            ends
        },
    )
}

/// Prints how many walks were made in how many nanoseconds, how many images they met, and how many
/// changes the writer made meanwhile.
pub fn race<R: Threads + Sync + Clock + Alloc<A = Global> + Print>(
    rt: &R,
    nodes: u32,
    readers: u32,
    rounds: u32,
) -> io::Result<()> {
    let (list, writer, passes) = open(rt.alloc(), nodes, readers)?;
    let (writer, _) = fill(&list, writer, IMAGES);
    let start = Instant::now(rt)?;
    let ((_, made), ends) = run(rt, &list, writer, passes, rounds);
    let walking = start.elapsed(rt)?.as_nanos();
    let walks = readers as u64 * rounds as u64;
    let mut images = 0u64;
    for (_, met) in ends?.iter() {
        images = images.saturating_add(*met);
    }
    println!(rt; "{walks} walks {walking} ns")?;
    println!(rt; "{images} images met, {made} changes made")
}
