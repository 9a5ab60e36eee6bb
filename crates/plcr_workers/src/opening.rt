//! The list that all workers share, with the queue through which its writer goes round, and the
//! workers.
ghost use Rattle.std.specs.Prelude.{◌≡◌, ◌≤◌, All, IfOk, length, vec_len};
ghost use Rattle.crossbeam_queue.specs.Passes.{view, IsPassOf, ruled_capacity};
ghost use Rattle.plcr_imagelist.specs.Holds.{WalkerState};
ghost use Rattle.plcr_imagelist.specs.States.{IsAtRest};
ghost use Rattle.plcr_script.specs.Lawful.{IsLawful};
ghost use Rattle.plcr_turns.specs.Gathering.{HasHanded};
ghost use Rattle.plcr_turns.specs.Turns.{is_new};
ghost use Rattle.plcr_workers.specs.inner.Hired.{AreInOrder, AreSizesOf, AreUntouched, totals_in};
ghost use Rattle.plcr_workers.specs.inner.Stages.{HasMetThese, IsStage};

use crate::crew::{Left, hire, room_for, totals_of};
use crate::worker::Worker;
use plcr_command::MOST_SCRIPTS;
use plcr_imagelist::{ImageList, OpenError, Pass, Writer};
use plcr_io::Sink;
use plcr_script::Script;
use plcr_turns::{Turn, TurnPass, TurnQueue, make, start};
use std::alloc::{AllocError, Global};
use std::sync::Wait;

/// All that a run needs memory for.
#[derive(Drop)]
pub(crate) struct Stage<K> {
    pub(crate) list: ImageList,
    pub(crate) queue: TurnQueue,
    pub(crate) chief: TurnPass,
    pub(crate) workers: Vec<Worker<K>>,
    pub(crate) room: Left<K>,
}

/// A list with the first script's number of nodes and a pass for each script, whose turn lies in
/// the queue, and a worker for each script. All memory of a run is taken here.
pub(crate) fn open<R: Wait, K: Sink + Drop>(
    rt: &R,
    alloc: Global,
    scripts: &[Script],
) -> Result<Stage<K>, AllocError>
    requires some { 1 ≤ length scripts.now }
    requires few { length scripts.now ≤ MOST_SCRIPTS }
    ensures { IfOk result (IsStage scripts.now) }
{
    let (list, writer, images) = open_list(alloc, scripts)?;
    let room = room_for(alloc, scripts)?;
    let (queue, mut chief) = open_queue(rt, alloc, scripts, writer)?;
    let workers = hire(alloc, &queue, &list, &mut chief, scripts, images)?;
    Ok(Stage {
        list,
        queue,
        chief,
        workers,
        room,
    })
}

/// The list, with its tokens.
fn open_list(
    alloc: Global,
    scripts: &[Script],
) -> Result<(ImageList, Writer, Vec<Pass>), AllocError>
    requires some { 1 ≤ length scripts.now }
    requires few { length scripts.now ≤ MOST_SCRIPTS }
    ensures list { IfOk result (λ r. r.1.table ≡ r.0) }
    ensures new { IfOk result (λ r. is_new r.1) }
    ensures images { IfOk result (λ r. AreInOrder r.0 r.2.items) }
    ensures untouched { IfOk result (λ r. AreUntouched r.2.items) }
    ensures count { IfOk result (λ r. vec_len r.2 ≡ length scripts.now) }
    ensures sizes { IfOk result (λ r. AreSizesOf scripts.now r.1.nodes r.1.passes) }
{
    let nodes = scripts[0].nodes();
    match ImageList::open(alloc, nodes, scripts.len() as u32) {
        Ok(opened) => Ok(opened),
        Err(OpenError::Memory) => Err(AllocError),
        Err(OpenError::BadSize { .. }) => unreachable!(),
    }
}

/// The queue with the turn, and the pass to which all scripts belong.
fn open_queue<R: Wait>(
    rt: &R,
    alloc: Global,
    scripts: &[Script],
    writer: Writer,
) -> Result<(TurnQueue, TurnPass), AllocError>
    requires new { is_new writer }
    ensures queue { IfOk result (λ q. (ruled_capacity q.0 ≡ 1) × IsPassOf q.0 q.1) }
    ensures handed { IfOk result
        (λ q. HasHanded 0 writer.table (totals_in scripts.now) (view q.1)) }
    ensures sizes { IfOk result
        (λ q. ((view q.1).nodes ≡ writer.nodes) × ((view q.1).passes ≡ writer.passes)) }
{
    let totals = totals_of(alloc, scripts)?;
    let turn = Turn::open(alloc, writer, totals.as_slice())?;
    let (queue, mut chief) = make(alloc)?;
    start(rt, &queue, &mut chief, turn);
    Ok((queue, chief))
}

/// The writer meets all passes.
pub(crate) fn meet_all(list: &ImageList, writer: Writer, images: Vec<Pass>) -> Writer
    requires list { writer.table ≡ list.now }
    requires rest { IsAtRest writer }
    requires images { All (λ (i : WalkerState). i.table ≡ list.now) images.items }
    ensures met { HasMetThese images.items writer result }
    ensures rest { IsAtRest result }
    ensures list { result.table ≡ list.now }
{
    let mut writer = writer;
    let mut images = images;
    while let Some(image) = images.pop() {
        writer = writer.meet(list, image);
    }
    writer
}
