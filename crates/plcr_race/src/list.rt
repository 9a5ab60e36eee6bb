//! The list that is raced, and its changes. The image with the number n of its load has the header
//! n.
ghost use Rattle.std.specs.Prelude.{◌≡◌, ◌≤◌, All, IfOk};
ghost use Rattle.plcr_imagelist.specs.Holds.{WalkerState};
ghost use Rattle.plcr_race.specs.Counting.{MakesChanges, MakesLoads, one_if};

use plcr_imagelist::{ImageList, OpenError, Pass, Writer};
use std::alloc::Global;
use std::io;

/// What each image's name is.
const NAME: &[u8] = b"/usr/lib/libSystem.dylib";

/// A list with its tokens.
pub fn open(alloc: Global, nodes: u32, passes: u32) -> io::Result<(ImageList, Writer, Vec<Pass>)>
    ensures writer { IfOk result (λ r. r.1.table ≡ r.0) }
    ensures passes { IfOk result (λ r. All (λ (p : WalkerState). p.table ≡ r.0) r.2.items) }
{
    match ImageList::open(alloc, nodes, passes) {
        Ok(opened) => Ok(opened),
        Err(OpenError::BadSize { .. }) => Err(io::ErrorKind::InvalidInput.into()),
        Err(OpenError::Memory) => Err(io::ErrorKind::OutOfMemory.into()),
    }
}

/// Loads the image with a header, and says whether that wasn't refused.
pub fn load(list: &ImageList, writer: Writer, header: u64) -> (Writer, bool)
    requires { writer.table ≡ list.now }
    ensures list { result.0.table ≡ list.now }
    ensures counts { MakesLoads writer (one_if result.1) result.0 }
{
    let (writer, loaded) = writer.load(list, header, NAME);
    (writer, loaded.is_ok())
}

/// Unloads the image with a header, and says whether that wasn't refused.
pub fn unload(list: &ImageList, writer: Writer, header: u64) -> (Writer, bool)
    requires { writer.table ≡ list.now }
    ensures list { result.0.table ≡ list.now }
    ensures counts { MakesChanges writer (one_if result.1) result.0 }
{
    let (writer, unloaded) = writer.unload(list, header);
    (writer, unloaded.is_ok())
}

/// Loads so many images into an empty list, and gives how many weren't refused.
pub fn fill(list: &ImageList, writer: Writer, images: u32) -> (Writer, u32)
    requires { writer.table ≡ list.now }
    ensures list { result.0.table ≡ list.now }
    ensures counts { MakesLoads writer result.1 result.0 }
    ensures most { result.1 ≤ images }
{
    let mut writer = writer;
    let mut made = 0;
    for done in 0..images {
        let (next, good) = load(list, writer, done as u64 + 1);
        writer = next;
        if good {
            made += 1;
        }
    }
    (writer, made)
}
