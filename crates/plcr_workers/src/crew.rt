//! The workers of all scripts: hired, run on threads, and taken in again.
ghost use Rattle.std.specs.Prelude.{◌≡◌, ◌+◌, ◌<◌, ◌≤◌, ◌++◌, All, [], ◌∷◌, length, map, reverse, vec_len, vec_capacity, IfOk, IfSome, OnOk, None, Some};
ghost use Rattle.plcr_imagelist.specs.Holds.{WalkerState};
ghost use Rattle.crossbeam_queue.specs.Passes.{view, IsSamePass, IsPassOf, ruled_capacity};
ghost use Rattle.plcr_turns.specs.Gathering.{AreWorking, HasHanded, HasGathered};
ghost use Rattle.plcr_script.specs.Meanings.{meanings};
ghost use Rattle.plcr_script.specs.Reading.{file_of, files_of};
ghost use Rattle.plcr_turns.specs.Views.{HasAll};
ghost use Rattle.plcr_workers.specs.Asking.{asked_in, change_lines};
ghost use Rattle.plcr_workers.specs.inner.Drafts.{HasOutputs, HasTaken, HaveTaken};
ghost use Rattle.plcr_workers.specs.inner.Hired.{IsHired, IsReadyToRun, IsGone, IsWholeOf, AreNew, AreNumbered, AreInOrder, AreFromTheLast, totals_in, asks_one, writes_one, lines_left, passes_left, views_of, AreUntouched, KnowsSameSizes};
ghost use Rattle.plcr_workers.specs.inner.Own.{KnowsOwnOf};
ghost use Rattle.plcr_workers.specs.inner.Outputs.{in_order, outputs_of};
ghost use Rattle.plcr_workers.specs.inner.Reports.{HasReports, HaveReports};
ghost use Rattle.plcr_workers.specs.inner.Traces.{ActsWholeOf, HaveActed};

use crate::drafts::Draft;
use crate::gate::Gate;
use crate::lines::PassLine;
use crate::worker::Worker;
use plcr_command::MOST_SCRIPTS;
use plcr_encode::Context;
use plcr_imagelist::{ImageList, Pass};
use plcr_io::Sink;
use plcr_script::{Process, Script, Statement};
use plcr_turns::{TurnPass, TurnQueue, hand_out, take_in};
use std::alloc::{AllocError, Global};
use std::sync::Wait;
use std::thread;
use std::thread::Threads;

/// What workers leave: their passes of the list; for each script the outputs of its reports, the
/// first script and the first report last; and the other lines of each script, in the order of the
/// scripts.
#[derive(Drop)]
pub(crate) struct Left<K> {
    pub(crate) images: Vec<Pass>,
    pub(crate) drafts: Vec<Vec<Draft<K>>>,
    pub(crate) others: Vec<Vec<PassLine>>,
}

/// How many loads and unloads each script has.
pub(crate) fn totals_of(alloc: Global, scripts: &[Script]) -> Result<Vec<u32>, AllocError>
    ensures { IfOk result (λ totals. totals.items ≡ totals_in scripts.now) }
{
    let mut totals = Vec::with_capacity(alloc, scripts.len())?;
    for script in scripts {
        totals.push_reserved(changes_of(script)?);
    }
    Ok(totals)
}

/// How many loads and unloads a script has.
fn changes_of(script: &Script) -> Result<u32, AllocError>
    ensures { IfOk result (λ count. count ≡ length (change_lines script.now.statements)) }
{
    let mut count = 0u32;
    for at in 0..script.len() {
        count = match count.checked_add(asks(script.statement(at))) {
            Some(more) => more,
            None => return Err(AllocError),
        };
    }
    Ok(count)
}

/// How many changes a statement asks for: one or none.
fn asks(statement: &Statement) -> u32
    ensures { result ≡ asks_one (asked_in statement.now) }
{
    match statement {
        Statement::Load { .. } | Statement::Unload { .. } => 1,
        _ => 0,
    }
}

/// How many files a script writes.
fn reports_of(script: &Script) -> usize
    ensures { result ≡ length (files_of script.now.statements) }
{
    let mut count = 0usize;
    for at in 0..script.len() {
        count += writes(script.statement(at));
    }
    count
}

/// How many files a statement writes: one or none.
fn writes(statement: &Statement) -> usize
    ensures one { result ≡ writes_one (file_of statement.now) }
    ensures few { result ≤ 1 }
{
    match statement {
        Statement::Report { .. } => 1,
        _ => 0,
    }
}

/// A worker for each script, with room for the outputs of its reports and for its lines.
pub(crate) fn hire<K: Sink + Drop>(
    alloc: Global,
    queue: &TurnQueue,
    list: &ImageList,
    chief: &mut TurnPass,
    scripts: &[Script],
    images: Vec<Pass>,
) -> Result<Vec<Worker<K>>, AllocError>
    requires queue { IsPassOf queue.now chief.old }
    requires handed { HasHanded 0 list.now (totals_in scripts.now) (view chief.old) }
    requires few { length scripts.now ≤ MOST_SCRIPTS }
    requires images { AreInOrder list.now images.items }
    requires untouched { AreUntouched images.items }
    requires count { length images.items ≡ length scripts.now }
    ensures queue { OnOk result (IsSamePass chief.old chief.new) }
    ensures chief { OnOk result (HasGathered (length scripts.now) list.now [] (view chief.new)) }
    ensures sizes { OnOk result (KnowsSameSizes (view chief.old) (view chief.new)) }
    ensures count { IfOk result (λ workers. vec_len workers ≡ length scripts.now) }
    ensures new { IfOk result (λ workers. AreNew scripts.now workers.items) }
    ensures hired { IfOk result (λ workers.
        All (λ w. IsHired queue.now.table.shared.table_id list.now scripts.now w) workers.items) }
{
    let mut images = from_the_last(list, images);
    let mut workers = Vec::with_capacity(alloc, scripts.len())?;
    for script in 0..scripts.len() {
        let Some(image) = images.pop() else {
            break;
        };
        let drafts = Vec::with_capacity(alloc, reports_of(&scripts[script]))?;
        let lines = Vec::with_capacity(alloc, scripts[script].len())?;
        let turns = hand_out(queue, chief);
        workers.push_reserved(Worker {
            script: script as u32,
            turns,
            image: Some(image),
            drafts,
            lines,
        });
    }
    Ok(workers)
}

/// The passes of a list the other way round.
fn from_the_last(list: &ImageList, images: Vec<Pass>) -> Vec<Pass>
    requires { AreInOrder list.now images.items }
    ensures order { AreFromTheLast (length images.items) list.now result.items }
    ensures count { length result.items ≡ length images.items }
    ensures items { result.items ≡ reverse images.items }
{
    let _ = list;
    turned_round(images)
}

/// The same things the other way round.
fn turned_round<T: Drop>(items: Vec<T>) -> Vec<T>
    ensures { result.items ≡ reverse items.items }
{
    let mut items = items;
    items.reverse();
    items
}

/// All workers run, each on a thread of its own where one can be made.
pub(crate) fn run_all<R: Threads + Wait + Sync, P: Process + Sync, G: Gate, K: Sink + Drop + Send>(
    rt: &R,
    queue: &TurnQueue,
    list: &ImageList,
    scripts: &[Script],
    process: &P,
    context: &Context,
    gate: &G,
    workers: &mut [Worker<K>],
)
    requires context { P.accepts process.now context.now }
    requires queue { ruled_capacity queue.now ≡ 1 }
    requires ready { All (λ w. IsReadyToRun K.faults queue.now.table.shared.table_id list.now
        scripts.now w) workers.old }
    ensures taken { HaveTaken K.faults workers.old workers.new }
    ensures reports { HaveReports K.written (P.report process.now context.now) workers.old
        workers.new }
    ensures acted { HaveActed K.written (P.report process.now context.now) scripts.now workers.old
        workers.new }
    ensures own { All (λ w.
        KnowsOwnOf (meanings (P.image_fault process.now) (P.report process.now context.now))
        scripts.now w) workers.new }
    ensures gone { All (λ w. IsGone queue.now.table.shared.table_id list.now scripts.now w)
        workers.new }
    ensures whole { All (λ w. IsWholeOf scripts.now w) workers.new }
{
    thread::for_each_mut(
        rt,
        workers,
        MOST_SCRIPTS,
        &|_, worker: &mut Worker<K>|
            requires { P.accepts process.now context.now × (ruled_capacity queue.now ≡ 1)
                × IsReadyToRun K.faults queue.now.table.shared.table_id list.now scripts.now
                worker.old }
            ensures { IsGone queue.entry.now.table.shared.table_id list.entry.now scripts.entry.now
                worker.new × HasTaken K.faults worker.old worker.new
                × HasReports K.written (P.report process.entry.now context.entry.now) worker.old
                worker.new × KnowsOwnOf
                (meanings (P.image_fault process.entry.now)
                (P.report process.entry.now context.entry.now)) scripts.entry.now worker.new
                × IsWholeOf scripts.entry.now worker.new
                × ActsWholeOf K.written (P.report process.entry.now context.entry.now)
                scripts.entry.now worker.old worker.new }
        {
            let script = &scripts[worker.script as usize];
            worker.run(rt, queue, list, script, process, context, gate)
        },
    );
}

/// Room for what workers leave.
pub(crate) fn room_for<K: Sink + Drop>(
    alloc: Global,
    scripts: &[Script],
) -> Result<Left<K>, AllocError>
    ensures images { IfOk result (λ left. (vec_len left.images ≡ 0)
        × (length scripts.now ≤ vec_capacity left.images)) }
    ensures drafts { IfOk result (λ left. (vec_len left.drafts ≡ 0)
        × (length scripts.now ≤ vec_capacity left.drafts)) }
    ensures others { IfOk result (λ left. (vec_len left.others ≡ 0)
        × (length scripts.now ≤ vec_capacity left.others)) }
{
    let images = Vec::with_capacity(alloc, scripts.len())?;
    let others = Vec::with_capacity(alloc, scripts.len())?;
    let drafts = Vec::with_capacity(alloc, scripts.len())?;
    Ok(Left {
        images,
        drafts,
        others,
    })
}

/// The workers are taken in, the last one first.
pub(crate) fn gather<K: Sink + Drop>(
    queue: &TurnQueue,
    list: &ImageList,
    scripts: &[Script],
    chief: &mut TurnPass,
    workers: Vec<Worker<K>>,
    room: Left<K>,
) -> Left<K>
    requires queue { IsPassOf queue.now chief.old }
    requires chief { HasGathered (length scripts.now) list.now [] (view chief.old) }
    requires count { vec_len workers ≡ length scripts.now }
    requires numbers { AreNumbered workers.items }
    requires gone { All (λ w. IsGone queue.now.table.shared.table_id list.now scripts.now w)
        workers.items }
    requires images_room { vec_len room.images + vec_len workers ≤ vec_capacity room.images }
    requires drafts_room { vec_len room.drafts + vec_len workers ≤ vec_capacity room.drafts }
    requires others_room { vec_len room.others + vec_len workers ≤ vec_capacity room.others }
    requires none { (vec_len room.images ≡ 0) × (vec_len room.drafts ≡ 0)
        × (vec_len room.others ≡ 0) }
    ensures queue { IsSamePass chief.old chief.new }
    ensures chief { HasGathered (length scripts.now) list.now (views_of workers.items)
        (view chief.new) }
    ensures sizes { KnowsSameSizes (view chief.old) (view chief.new) }
    ensures working { AreWorking 0 list.now (views_of workers.items) }
    ensures all { HasAll (view chief.new) }
    ensures images { AreFromTheLast (length scripts.now) list.now result.images.items }
    ensures passes { map Some result.images.items ≡ reverse (passes_left workers.items) }
    ensures met { vec_len result.images ≡ length scripts.now }
    ensures drafts { in_order result.drafts.items ≡ outputs_of workers.items }
    ensures others { result.others.items ≡ lines_left workers.items }
{
    let _ = list;
    let _ = scripts;
    let mut left = room;
    let mut workers = workers;
    while let Some(worker) = workers.pop() {
        let Worker {
            script: _,
            turns,
            image,
            drafts,
            lines,
        } = worker;
        take_in(queue, chief, turns);
        add_image(&mut left.images, image);
        left.others.push_reserved(lines);
        left.drafts.push_reserved(turned_round(drafts));
    }
    let Left {
        images,
        drafts,
        others,
    } = left;
    Left {
        images,
        drafts,
        others: turned_round(others),
    }
}

/// Adds the pass of a worker.
fn add_image(images: &mut Vec<Pass>, image: Option<Pass>)
    requires room { vec_len images.old < vec_capacity images.old }
    ensures added { IfSome image (λ (i : WalkerState). images.new.items ≡ images.old.items ++ i
        ∷ []) }
    ensures capacity { vec_capacity images.new ≡ vec_capacity images.old }
    ensures len { vec_len images.new ≤ vec_len images.old + 1 }
{
    if let Some(image) = image {
        images.push_reserved(image);
    }
}
