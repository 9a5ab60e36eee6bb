//! The frames of threads.
ghost use Rattle.std.specs.Prelude.{◌≡◌, ◌≤◌, ◌<◌, ◌++◌, All, IsSome, length, map, take};
ghost use Rattle.std.specs.List.{flat_map};
ghost use Rattle.arrayvec.specs.ArrayVec.{array_vec_len};
ghost use Rattle.plcr_regs.specs.declared.arch.Arch as arch;
ghost use Rattle.plcr_regs.specs.Frames.{register_at};
ghost use Rattle.plcr_regs.specs.Places.{pc_place};
ghost use Rattle.plcr_regs.specs.States.{IsWhole};
ghost use Rattle.plcr_cursor.specs.declared.limits.TheConstants.{MOST_FRAMES};
ghost use Rattle.plcr_cursor.specs.Walks.{IsIndex};
ghost use Rattle.plcr_encode.specs.Frames.{thread_frames};
ghost use Rattle.plcr_encode.specs.inner.FrameRows.{IsNamedIn, tabled};
ghost use Rattle.plcr_encode.specs.inner.Groups.{AreRowsOf, count_of, walked};

use crate::answers::find_symbols;
use crate::frame_rows::FrameRow;
use crate::limits::GROUP_FRAMES;
use crate::room::Room;
use arrayvec::ArrayVec;
use plcr_cursor::{Cursor, Known, Located, MOST_FRAMES};
use plcr_macho::Images;
use plcr_memory::Memory;
use plcr_regs::{Arch, Registers};

/// The position of an image that has a symbol table.
fn tabled(over: &Option<Located>) -> Option<usize>
    ensures { result ≡ tabled over.now }
{
    match over {
        Some(located) if located.image.symtab.is_some() => Some(located.place),
        _ => None,
    }
}

/// Walks over the frames of a thread that was stopped in this state, and keeps them in place of
/// those before. Their symbols aren't found yet.
fn walk_frames<I: Images>(
    rows: &mut ArrayVec<FrameRow, GROUP_FRAMES>,
    images: &mut I,
    known: &mut Known,
    state: &Registers,
    bits: u8,
)
    requires known { IsSome (register_at state.now (pc_place state.now.arch)) }
    requires bits { (32 ≤ bits) × (bits ≤ 64) }
    requires room { array_vec_len rows.old ≤ MOST_FRAMES }
    requires index { IsIndex known.old state.now.arch (I.images images.old) (I.extents images.old) }
    ensures found { rows.new.items ≡ rows.old.items ++ walked known.old (I.images images.old) bits
        state.now }
    ensures memory { known.new ≡ known.old }
    ensures same { I.images images.new ≡ I.images images.old }
    ensures index { I.extents images.new ≡ I.extents images.old }
    ensures follows { I.follows images.old images.new }
{
    let mut cursor = Cursor::new(state, bits);
    let mut over = None;
    while let Some(pc) = cursor.next_over(known, &over) {
        let lookup = cursor.lookup().unwrap_or(0);
        over = cursor.locate(known, images);
        rows.push(FrameRow {
            pc,
            by: cursor.by().unwrap_or(0),
            lookup,
            position: tabled(&over),
            symbol: None,
        });
    }
}

/// Walks over the frames of threads that were stopped in these states, from the first thread on, as
/// long as their frames are few enough, and keeps them in place of those before. Gives how many
/// threads these are.
fn walk_threads<I: Images>(
    rows: &mut ArrayVec<FrameRow, GROUP_FRAMES>,
    counts: &mut ArrayVec<usize, MOST_FRAMES>,
    images: &mut I,
    known: &mut Known,
    states: &[Registers],
    bits: u8,
) -> usize
    requires bits { (32 ≤ bits) × (bits ≤ 64) }
    requires index { (arch : arch.Arch) × All (IsWhole arch) states.now
        × IsIndex known.old arch (I.images images.old) (I.extents images.old) }
    ensures some { 0 < length states.now → 1 ≤ result }
    ensures within { result ≤ length states.now }
    ensures rows { rows.new.items ≡ flat_map (walked known.old (I.images images.old) bits)
        (take result states.now) }
    ensures counts { counts.new.items ≡ map (count_of (walked known.old (I.images images.old) bits))
        (take result states.now) }
    ensures memory { known.new ≡ known.old }
    ensures same { I.images images.new ≡ I.images images.old }
    ensures index { I.extents images.new ≡ I.extents images.old }
    ensures follows { I.follows images.old images.new }
{
    rows.clear();
    counts.clear();
    let most = states.len().min(MOST_FRAMES);
    let mut taken = 0;
    while taken < most && rows.len() <= MOST_FRAMES {
        let state = &states[taken];
        // A read tells the proof how many places a state has.
        let _first = state.value[0];
        let before = rows.len();
        walk_frames(rows, images, known, state, bits);
        counts.push(rows.len() - before);
        taken += 1;
    }
    taken
}

/// Finds the frames of threads that were stopped in these states, from the first thread on, as long
/// as their frames are few enough, with their symbols, and keeps them in place of those before.
/// Gives how many threads these are.
pub(crate) fn find_frames<I: Images>(
    room: &mut Room,
    images: &mut I,
    known: &mut Known,
    memory: &Memory,
    arch: Arch,
    states: &[Registers],
    bits: u8,
) -> usize
    requires memory { known.old ≡ memory.now }
    requires whole { All (IsWhole arch) states.now }
    requires bits { (32 ≤ bits) × (bits ≤ 64) }
    requires index { IsIndex memory.now arch (I.images images.old) (I.extents images.old) }
    ensures some { 0 < length states.now → 1 ≤ result }
    ensures within { result ≤ length states.now }
    ensures rows { AreRowsOf (thread_frames memory.now (I.images images.old) bits) memory.now
        room.new.rows.items room.new.counts.items (take result states.now) }
    ensures named { All (IsNamedIn memory.now) room.new.rows.items }
    ensures memory { known.new ≡ known.old }
    ensures same { I.images images.new ≡ I.images images.old }
    ensures index { I.extents images.new ≡ I.extents images.old }
    ensures follows { I.follows images.old images.new }
{
    let count = walk_threads(
        &mut room.rows,
        &mut room.counts,
        images,
        known,
        states,
        bits,
    );
    find_symbols(room, images, memory, arch);
    count
}
