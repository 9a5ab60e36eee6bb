//! Loads and unloads alone: the list has all images but one that it has room for, and is filled and
//! unloaded at a place.
ghost use Rattle.std.specs.Prelude.{◌≡◌, ◌≤◌, ◌*◌};
ghost use Rattle.plcr_race.specs.Counting.{MakesChanges};

use crate::list::{fill, load, open, unload};
use plcr_imagelist::{ImageList, Writer};
use std::alloc::Global;
use std::io;
use std::rt::Clock;
use std::time::Instant;

// Loads an image and unloads the one at a place, counted from 1, so often, and gives how many
// changes weren't refused. The images behind the place move up, so each unload takes the header
// that comes next.
fn change(list: &ImageList, writer: Writer, images: u32, place: u32, rounds: u32) -> (Writer, u64)
    requires { writer.table ≡ list.now }
    ensures counts { MakesChanges writer result.1 result.0 }
    ensures most { result.1 ≤ 2 * rounds }
{
    let mut writer = writer;
    let mut made = 0u64;
    for round in 0..rounds {
        let (next, loaded) = load(list, writer, round as u64 + images as u64 + 1);
        let (next, unloaded) = unload(list, next, round as u64 + place as u64);
        writer = next;
        made += u64::from(loaded) + u64::from(unloaded);
    }
    (writer, made)
}

/// Prints how many loads and then how many changes were made, each with its nanoseconds.
pub fn race<R: Clock + Alloc<A = Global> + Print>(
    rt: &R,
    nodes: u32,
    place: u32,
    rounds: u32,
) -> io::Result<()> {
    let (list, writer, _) = open(rt.alloc(), nodes, 1)?;
    let images = nodes.saturating_sub(1);
    let start = Instant::now(rt)?;
    let (writer, filled) = fill(&list, writer, images);
    let filling = start.elapsed(rt)?.as_nanos();
    println!(rt; "{filled} loads {filling} ns")?;
    let start = Instant::now(rt)?;
    let (_, made) = change(&list, writer, images, place, rounds);
    let changing = start.elapsed(rt)?.as_nanos();
    println!(rt; "{made} changes {changing} ns")
}
