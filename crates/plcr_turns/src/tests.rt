//! Workers on threads, whose turns go round.
ghost use Rattle.std.specs.Prelude.{◌≡◌, ◌≤◌, ◌<◌, ◌*◌, All, length, replicate, None, Some, OnOk, IfOk, IfSome};
ghost use Rattle.crossbeam_queue.specs.Passes.{view, IsSamePass, IsPassOf, ruled_capacity};
ghost use Rattle.plcr_imagelist.specs.Holds.{WalkerState};
ghost use Rattle.plcr_turns.specs.Gathering.{HasHanded};
ghost use Rattle.plcr_turns.specs.inner.Ready.{IsReady};
ghost use Rattle.plcr_turns.specs.declared.tests.Runner.{Runner};
ghost use Rattle.plcr_turns.specs.declared.tests.TheConstants.{LINES};
ghost use Rattle.plcr_turns.specs.declared.view.Role.TheVariants.{Chief, Worker};

use crate::{
    Asked, ChangeLine, Request, Said, ScriptLine, Turn, TurnPass, TurnQueue, apply_outside,
    hand_out, make, start, take, take_in,
};
use plcr_imagelist::{ImageList, Pass, Writer};
use plcr_machine::COUNT_UNIT;
use std::alloc::{AllocError, Global};
use std::sync::Wait;
use std::test::Fail;
use std::thread;
use std::thread::Threads;

/// How many lines each script has.
const LINES: u32 = 200;

/// A worker: the number of its script, and its passes of the queue and of the list.
#[derive(Drop)]
struct Runner {
    script: u32,
    turns: TurnPass,
    image: Pass,
}

// What a line asks for: of seven headers, each is loaded two times for each unload.
fn request_of(script: u32, line: u32) -> Request<'static>
    requires { (script < 64) × (line < 2 * LINES) }
{
    let header = u64::from((line + script) % 7);
    if line % 3 == 2 {
        Request::Unload { header }
    } else {
        Request::Load {
            header,
            name: b"a",
            fault: None,
        }
    }
}

impl Runner {
    fn run<R: Wait>(&mut self, rt: &R, queue: &TurnQueue, list: &ImageList)
        requires queue { IsPassOf queue.now self.old.turns × (ruled_capacity queue.now ≡ 1) }
        requires few { self.old.script < 64 }
        requires ready { IsReady list.now self.old.script 0 LINES (view self.old.turns)
            self.old.image }
        ensures queue { IsSamePass self.old.turns self.new.turns }
        ensures worker { ((view self.new.turns).role ≡ Worker)
            × ((view self.new.turns).turn ≡ None) }
        ensures list { self.new.image.table ≡ list.now }
    {
        for applied in 0..LINES {
            let line = ScriptLine {
                script: self.script,
                line: applied + 1,
                request: request_of(self.script, applied),
            };
            apply_outside(rt, queue, list, &mut self.turns, &line, &mut self.image);
        }
    }
}

// A worker for each script.
fn hire(
    alloc: Global,
    queue: &TurnQueue,
    list: &ImageList,
    pass: &mut TurnPass,
    totals: &[u32],
    images: Vec<Pass>,
) -> Result<Vec<Runner>, AllocError>
    requires queue { IsPassOf queue.now pass.old }
    requires handed { HasHanded 0 list.now totals.now (view pass.old) }
    requires few { length totals.now ≤ 64 }
    requires totals { All (λ t. t ≡ LINES) totals.now }
    requires images { All (λ (i : WalkerState). i.table ≡ list.now) images.items }
    ensures queue { OnOk result (IsSamePass pass.old pass.new) }
    ensures chief { OnOk result (((view pass.new).role ≡ Chief) × ((view pass.new).turn ≡ None)
        × ((view pass.new).list ≡ Some list.now)) }
    ensures ready { IfOk result
        (λ all. All (λ (r : Runner). IsPassOf queue.now r.turns × (r.script < 64)
        × IsReady list.now r.script 0 LINES (view r.turns) r.image) all.items) }
{
    let _ = list;
    let mut images = images;
    let mut runners = Vec::with_capacity(alloc, totals.len())?;
    for script in 0..totals.len() as u32 {
        let Some(image) = images.pop() else {
            break;
        };
        let turns = hand_out(queue, pass);
        runners.push_reserved(Runner {
            script,
            turns,
            image,
        });
    }
    Ok(runners)
}

// All workers run, each on a thread of its own where one can be made.
fn run_all<R: Threads + Wait + Sync>(
    rt: &R,
    queue: &TurnQueue,
    list: &ImageList,
    runners: &mut [Runner],
)
    requires queue { ruled_capacity queue.now ≡ 1 }
    requires ready { All (λ (r : Runner). IsPassOf queue.now r.turns × (r.script < 64)
        × IsReady list.now r.script 0 LINES (view r.turns) r.image) runners.old }
    ensures done { All (λ (r : Runner). IsPassOf queue.now r.turns × ((view r.turns).role ≡ Worker)
        × ((view r.turns).turn ≡ None) × (r.image.table ≡ list.now)) runners.new }
{
    thread::for_each_mut(
        rt,
        runners,
        64,
        &|_, runner: &mut Runner|
            requires { (ruled_capacity queue.now ≡ 1) × IsPassOf queue.now runner.old.turns
                × (runner.old.script < 64)
                × IsReady list.now runner.old.script 0 LINES (view runner.old.turns)
                runner.old.image }
            ensures { IsPassOf queue.entry.now runner.new.turns
                × ((view runner.new.turns).role ≡ Worker) × ((view runner.new.turns).turn ≡ None)
                × (runner.new.image.table ≡ list.entry.now) }
        { runner.run(rt, queue, list) },
    );
}

// The same of workers in a `Vec`.
fn run_each<R: Threads + Wait + Sync>(
    rt: &R,
    queue: &TurnQueue,
    list: &ImageList,
    runners: Vec<Runner>,
) -> Vec<Runner>
    requires queue { ruled_capacity queue.now ≡ 1 }
    requires ready { All (λ (r : Runner). IsPassOf queue.now r.turns × (r.script < 64)
        × IsReady list.now r.script 0 LINES (view r.turns) r.image) runners.items }
    ensures done { All (λ (r : Runner). IsPassOf queue.now r.turns × ((view r.turns).role ≡ Worker)
        × ((view r.turns).turn ≡ None) × (r.image.table ≡ list.now)) result.items }
{
    let mut runners = runners;
    run_all(rt, queue, list, runners.as_mut_slice());
    runners
}

// The workers are taken in, and give their passes of the list.
fn gather(
    alloc: Global,
    queue: &TurnQueue,
    list: &ImageList,
    pass: &mut TurnPass,
    runners: Vec<Runner>,
) -> Result<Vec<Pass>, AllocError>
    requires queue { IsPassOf queue.now pass.old }
    requires chief { ((view pass.old).role ≡ Chief) × ((view pass.old).turn ≡ None)
        × ((view pass.old).list ≡ Some list.now) }
    requires done { All (λ (r : Runner). IsPassOf queue.now r.turns × ((view r.turns).role ≡ Worker)
        × ((view r.turns).turn ≡ None) × (r.image.table ≡ list.now)) runners.items }
    ensures queue { OnOk result (IsSamePass pass.old pass.new) }
    ensures chief { OnOk result (((view pass.new).role ≡ Chief) × ((view pass.new).turn ≡ None)
        × ((view pass.new).list ≡ Some list.now)) }
    ensures images { IfOk result (λ all. All (λ (i : WalkerState). i.table ≡ list.now) all.items) }
{
    let _ = list;
    let mut runners = runners;
    let mut images = Vec::new(alloc);
    while let Some(runner) = runners.pop() {
        let Runner {
            script: _,
            turns,
            image,
        } = runner;
        take_in(queue, pass, turns);
        images.push(image)?;
    }
    Ok(images)
}

// The writer meets all passes.
fn meet_all(list: &ImageList, writer: Writer, images: Vec<Pass>) -> Writer
    requires writer { writer.table ≡ list.now }
    requires images { All (λ (i : WalkerState). i.table ≡ list.now) images.items }
    ensures { result.table ≡ list.now }
{
    let mut writer = writer;
    let mut images = images;
    while let Some(image) = images.pop() {
        writer = writer.meet(list, image);
    }
    writer
}

/// How many nodes the list has: fewer than the images that are wanted.
const NODES: u32 = 16;

// What a load or an unload of a list by itself comes to, after this list was left by so many loads
// and changes. No pass is ever inside, so nothing is held back.
fn expected(
    list: &mut Vec<(u64, u32)>,
    asked: Asked,
    loads: u32,
    changes: u64,
) -> Result<Said, AllocError> {
    match asked {
        Asked::Load { header: _ } if list.len() >= NODES as usize => Ok(Said::Full {
            live: NODES,
            held: 0,
            seen: changes.saturating_mul(COUNT_UNIT),
        }),
        Asked::Load { header } => {
            let load = loads.saturating_add(1);
            list.push((header, load))?;
            Ok(Said::Loaded { load })
        }
        Asked::Unload { header } => match list.iter().position(|image| image.0 == header) {
            Some(at) => {
                let (_, load) = list.remove(at);
                Ok(Said::Unloaded { load })
            }
            None => Ok(Said::NotLoaded),
        },
    }
}

// Whether each line came to what it comes to after those before it.
fn is_run(alloc: Global, journal: &[ChangeLine]) -> Result<bool, AllocError> {
    let mut list = Vec::new(alloc);
    let mut loads = 0u32;
    let mut changes = 0u64;
    for line in journal {
        let said = expected(&mut list, line.wanted.asked, loads, changes)?;
        if line.said != said {
            return Ok(false);
        }
        match said {
            Said::Loaded { load } => {
                loads = load;
                changes = changes.saturating_add(1);
            }
            Said::Unloaded { load: _ } => changes = changes.saturating_add(1),
            _ => {}
        }
    }
    Ok(true)
}

// Whether the lines of each script stand there once each, in their order.
fn is_each_once(journal: &[ChangeLine], script: u32) -> bool {
    let mut last = 0u32;
    for line in journal {
        if line.script == script {
            let next = last.saturating_add(1);
            if line.wanted.line != next {
                return false;
            }
            last = next;
        }
    }
    last == LINES
}

// The journal of workers that run beside each other, one for each script.
fn run_scripts<R: Threads + Wait + Sync>(
    rt: &R,
    alloc: Global,
    totals: &[u32],
) -> Result<Vec<ChangeLine>, AllocError>
    requires few { length totals.now ≤ 64 }
    requires totals { All (λ t. t ≡ LINES) totals.now }
{
    let opened = ImageList::open(alloc, NODES, 64);
    let Ok((list, writer, images)) = opened else {
        return Err(AllocError);
    };
    let turn = Turn::open(alloc, writer, totals)?;
    let (queue, mut pass) = make(alloc)?;
    start(rt, &queue, &mut pass, turn);
    let runners = hire(alloc, &queue, &list, &mut pass, totals, images)?;
    let runners = run_each(rt, &queue, &list, runners);
    let images = gather(alloc, &queue, &list, &mut pass, runners)?;
    let (writer, journal) = take(rt, &queue, &mut pass).end();
    let _ = meet_all(&list, writer, images);
    Ok(journal)
}

#[test]
fn turns_go_round(rt: HostRuntime) -> Result<(), Fail> {
    let journal = run_scripts(&rt, rt.alloc(), &[LINES, LINES, LINES])?;
    assert_eq!(rt; journal.len(), 3 * LINES as usize);
    assert!(rt; is_run(rt.alloc(), journal.as_slice())?);
    for script in 0..3u32 {
        assert!(rt; is_each_once(journal.as_slice(), script));
    }
    Ok(())
}
