//! One statement of a worker.
ghost use Rattle.std.specs.Prelude.{◌≡◌, ◌<◌, IsNone, None, IfOk, IfSome, OnOk, OnErr, is_some, length};
ghost use Rattle.std.specs.Io.KnownBytes.{append_known};
ghost use Rattle.plcr_base.specs.Causes.{Rose};
ghost use Rattle.crossbeam_queue.specs.Passes.{view, IsSamePass, IsPassOf, ruled_capacity};
ghost use Rattle.plcr_imagelist.specs.Walk.{IsSameWalk, images_of};
ghost use Rattle.plcr_script.specs.Meanings.{meanings};
ghost use Rattle.plcr_script.specs.Reading.{file_of};
ghost use Rattle.plcr_turns.specs.Working.{IsWorking, HasNext, AppliesLine};
ghost use Rattle.plcr_workers.specs.Asking.{asked_in};
ghost use Rattle.plcr_workers.specs.inner.Drafts.{IsNoReport, IsOutput, TakesOutputs, WritesNext};
ghost use Rattle.plcr_workers.specs.inner.Moves.{Acts, Moves, OnlyHears, ReportsNext, ReportsTo};
ghost use Rattle.plcr_workers.specs.inner.Own.{AddsOwn};
ghost use Rattle.plcr_workers.specs.inner.Places.{IsAt, PassGoes, walker_of, Asks, Advances};
ghost use Rattle.plcr_workers.specs.inner.Reports.{HasReport};
ghost use Rattle.plcr_workers.specs.inner.Traces.{Applies};

use crate::drafts::{Draft, Progress};
use crate::gate::Gate;
use crate::lines::PassSaid;
use crate::places::{Place, come_in, move_pass};
use plcr_command::MOST_SCRIPTS;
use plcr_encode::Context;
use plcr_imagelist::{Hold, ImageList, Pass};
use plcr_io::{PutFailed, Sink};
use plcr_run::walk_to_end;
use plcr_script::{Process, Statement};
use plcr_turns::{Request, ScriptLine, TurnPass, TurnQueue, apply_inside, apply_outside};
use std::sync::Wait;

/// What a statement came to for its worker.
#[derive(Clone, Copy, Debug, PartialEq, Eq)]
pub enum Took {
    /// It says nothing here: its line stands in the journal.
    Silent,
    /// Its line is one of the script's other lines.
    Said(PassSaid),
    /// The output of its report failed, which ends the script.
    Unwritten,
}

/// What a statement asks of the writer, if it does.
pub(crate) fn request_of<'a, P: Process>(
    process: &P,
    statement: &'a Statement,
) -> Option<Request<'a>>
    ensures some { IfSome result (Asks (P.image_fault process.now) statement.now) }
    ensures none { IsNone result → asked_in statement.now ≡ None }
{
    match statement {
        Statement::Load { header, name } => Some(Request::Load {
            header: *header,
            name: name.as_slice(),
            fault: process.fault(*header),
        }),
        Statement::Unload { header } => Some(Request::Unload { header: *header }),
        _ => None,
    }
}

/// Applies a line once the worker has the turn: its pass and the writer then know what the other
/// had seen.
pub(crate) fn apply<R: Wait>(
    rt: &R,
    queue: &TurnQueue,
    list: &ImageList,
    turns: &mut TurnPass,
    line: &ScriptLine,
    place: Place,
) -> Place
    requires queue { IsPassOf queue.now turns.old × (ruled_capacity queue.now ≡ 1) }
    requires list { IsAt list.now place }
    requires working { IsWorking line.now.script list.now (view turns.old) }
    requires left { HasNext (view turns.old) }
    ensures queue { IsSamePass turns.old turns.new }
    ensures list { IsAt list.now result }
    ensures hears { OnlyHears place result }
    ensures goes { PassGoes (walker_of place) (walker_of result) }
    ensures applies { AppliesLine line.now (view turns.old) (walker_of place).history
        (view turns.new) (walker_of result).history (walker_of result).names }
    ensures working { IsWorking line.now.script list.now (view turns.new) }
{
    match place {
        Place::Out(pass) => {
            let mut pass = pass;
            apply_outside(rt, queue, list, turns, line, &mut pass);
            Place::Out(pass)
        }
        Place::In(hold) => {
            let mut hold = hold;
            apply_inside(rt, queue, list, turns, line, &mut hold);
            Place::In(hold)
        }
    }
}

/// The pass goes in, if it is out, walks to its end, and comes out; before it does, the report of
/// the process with the images that it met is written.
pub(crate) fn report<P: Process, G: Gate, K: Sink>(
    process: &P,
    context: &Context,
    list: &ImageList,
    gate: &G,
    script: u32,
    line: u32,
    place: Place,
    draft: &mut Draft<K>,
) -> (Pass, Took)
    requires context { P.accepts process.now context.now }
    requires list { IsAt list.now place }
    requires few { script < MOST_SCRIPTS }
    ensures list { result.0.table ≡ list.now }
    ensures reports { ReportsTo K.written (P.report process.now context.now) place result.0 result.1
        draft.old draft.new }
    ensures goes { PassGoes (walker_of place) result.0 }
    ensures output { IsOutput K.faults
        (HasReport K.written (P.report process.now context.now) result.0) result.1 draft.old
        draft.new }
{
    let mut hold = come_in(list, gate, script, line, place);
    walk_to_end(&mut hold, list);
    let captured = write_walk(process, context, list, &mut hold, draft);
    let images = hold.met();
    let (pass, window) = hold.leave(list);
    match captured {
        Ok(bytes) => {
            let said = PassSaid::Reported {
                bytes,
                images,
                low: window.low,
                high: window.high,
            };
            (pass, Took::Said(said))
        }
        Err(PutFailed) => (pass, Took::Unwritten),
    }
}

/// Writes the report with the images that a hold met.
fn write_walk<P: Process, K: Sink>(
    process: &P,
    context: &Context,
    list: &ImageList,
    hold: &mut Hold,
    draft: &mut Draft<K>,
) -> Result<u64, PutFailed>
    requires context { P.accepts process.now context.now }
    requires list { hold.old.walker.table ≡ list.now }
    ensures list { hold.new.walker.table ≡ list.now }
    ensures same { IsSameWalk hold.old hold.new }
    ensures place { (draft.new.script ≡ draft.old.script) × (draft.new.at ≡ draft.old.at) }
    ensures ok { OnOk result (draft.new.progress ≡ Progress.Written) }
    ensures written { OnOk result (K.written draft.new.out ≡ append_known (K.written draft.old.out)
        (P.report process.now context.now (images_of hold.old))) }
    ensures length { IfOk result
        (λ n. n ≡ length (P.report process.now context.now (images_of hold.old))) }
    ensures err { OnErr result (draft.new.progress ≡ Progress.Failed) }
    ensures cause { OnErr result (Rose (K.faults draft.old.out) (K.faults draft.new.out)) }
{
    let mut images = hold.images(list);
    draft.write(process, context, &mut images)
}

/// Whether a statement is a report.
fn is_report(statement: &Statement) -> bool
    ensures { result ≡ is_some (file_of statement.now) }
{
    matches!(statement, Statement::Report { .. })
}

/// The same, into the next of the script's outputs.
fn write_next<P: Process, G: Gate, K: Sink>(
    process: &P,
    context: &Context,
    list: &ImageList,
    gate: &G,
    script: u32,
    line: u32,
    place: Place,
    drafts: &mut Vec<Draft<K>>,
    next: usize,
) -> (Place, Took)
    requires context { P.accepts process.now context.now }
    requires list { IsAt list.now place }
    requires few { script < MOST_SCRIPTS }
    requires next { next < length drafts.old.items }
    ensures list { IsAt list.now result.0 }
    ensures reports { ReportsNext K.written (P.report process.now context.now) place result.0
        result.1 next drafts.old.items drafts.new.items }
    ensures goes { PassGoes (walker_of place) (walker_of result.0) }
    ensures outputs { WritesNext K.faults
        (HasReport K.written (P.report process.now context.now) (walker_of result.0)) next result.1
        drafts.old.items drafts.new.items }
{
    let draft = &mut drafts[next];
    let (pass, took) = report(process, context, list, gate, script, line, place, draft);
    (Place::Out(pass), took)
}

/// A statement that moves the pass.
fn move_on<G: Gate>(
    list: &ImageList,
    gate: &G,
    script: u32,
    line: u32,
    statement: &Statement,
    place: Place,
) -> (Place, Took)
    requires list { IsAt list.now place }
    requires few { script < MOST_SCRIPTS }
    ensures list { IsAt list.now result.0 }
    ensures goes { PassGoes (walker_of place) (walker_of result.0) }
    ensures said { IsNoReport result.1 }
    ensures moves { asked_in statement.now ≡ None → file_of statement.now ≡ None →
        Moves statement.now place result.0 result.1 }
{
    let (place, said) = move_pass(list, gate, script, line, statement, place);
    match said {
        Some(said) => (place, Took::Said(said)),
        None => (place, Took::Silent),
    }
}

/// Takes a statement of a script. The script's number counts from 0, and `next` is the number of
/// its next output.
pub(crate) fn take_statement<R: Wait, P: Process, G: Gate, K: Sink>(
    rt: &R,
    queue: &TurnQueue,
    list: &ImageList,
    process: &P,
    context: &Context,
    gate: &G,
    script: u32,
    line: u32,
    statement: &Statement,
    turns: &mut TurnPass,
    place: Place,
    drafts: &mut Vec<Draft<K>>,
    next: usize,
) -> (Place, Took)
    requires context { P.accepts process.now context.now }
    requires queue { IsPassOf queue.now turns.old × (ruled_capacity queue.now ≡ 1) }
    requires list { IsAt list.now place }
    requires few { script < MOST_SCRIPTS }
    requires working { IsWorking script list.now (view turns.old) }
    requires left { IfSome (asked_in statement.now) (λ asked. HasNext (view turns.old)) }
    requires next { IfSome (file_of statement.now) (λ file. next < length drafts.old.items) }
    ensures queue { IsSamePass turns.old turns.new }
    ensures list { IsAt list.now result.0 }
    ensures goes { PassGoes (walker_of place) (walker_of result.0) }
    ensures acts { Acts K.written (P.report process.now context.now) statement.now place result.0
        result.1 next drafts.old.items drafts.new.items }
    ensures applies { Applies script line (asked_in statement.now) (walker_of place).history
        (view turns.old) (walker_of result.0).history (view turns.new) }
    ensures working { IsWorking script list.now (view turns.new) }
    ensures advances { Advances script line (asked_in statement.now) (view turns.old)
        (view turns.new) }
    ensures outputs { TakesOutputs K.faults
        (HasReport K.written (P.report process.now context.now) (walker_of result.0)) next
        (file_of statement.now) result.1 drafts.old.items drafts.new.items }
    ensures own { AddsOwn (meanings (P.image_fault process.now) (P.report process.now context.now))
        script line statement.now (asked_in statement.now) (view turns.old) (view turns.new)
        (walker_of result.0).names }
{
    if let Some(request) = request_of(process, statement) {
        gate.before_change(script + 1, line);
        let asked = ScriptLine {
            script,
            line,
            request,
        };
        let place = apply(rt, queue, list, turns, &asked, place);
        return (place, Took::Silent);
    }
    if is_report(statement) {
        return write_next(
            process, context, list, gate, script, line, place, drafts, next,
        );
    }
    move_on(list, gate, script, line, statement, place)
}
