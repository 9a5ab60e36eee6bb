//! The run of scripts side by side, once all memory for it was taken.
ghost use Rattle.std.specs.Prelude.{◌≡◌, ◌≤◌, ◌<◌, ◌+◌, [], All, IfErr, OnOk, OnErr, Ok, Some, length, vec_len, vec_capacity};
ghost use Rattle.std.specs.Io.KnownBytes.{append_known};
ghost use Rattle.crossbeam_queue.specs.Passes.{view, IsPassOf, ruled_capacity};
ghost use Rattle.plcr_base.specs.Causes.{Rose};
ghost use Rattle.plcr_base.specs.Told.{AppendsProperFront, Prints};
ghost use Rattle.plcr_command.specs.Endings.{GoesOn};
ghost use Rattle.plcr_command.specs.Jobs.{IsLawfulJob};
ghost use Rattle.plcr_command.specs.Lines.{cannot_write};
ghost use Rattle.plcr_command.specs.Seen.{seen};
ghost use Rattle.plcr_script.specs.Lawful.{IsLawful};
ghost use Rattle.plcr_script.specs.Meanings.{Meanings};
ghost use Rattle.plcr_script.specs.Scripts.{ScriptValue};
ghost use Rattle.plcr_turns.specs.declared.lines.ChangeLine.{ChangeLine as JournalLine};
ghost use Rattle.plcr_turns.specs.Gathering.{HasGathered};
ghost use Rattle.plcr_workers.specs.Command.{IsJournalOf, IsWriterOf, meanings_in};
ghost use Rattle.plcr_workers.specs.Log.{scripts_text, threads_log};
ghost use Rattle.plcr_workers.specs.inner.Hired.{AreNew, AreSizesOf, AreNumbered, IsGone, IsHired};
ghost use Rattle.plcr_workers.specs.inner.Outputs.{AreDone, HasOpenFor, IsDraftOf, NotAllMade, StandsAt, in_order, name_at, outputs_of};
ghost use Rattle.plcr_workers.specs.inner.Own.{HaveOwnLines, KnowsOwnOf};
ghost use Rattle.plcr_workers.specs.inner.Stages.{AppliesAll, AreLinesOf, HasReported, KeptBy, ToldReports, HasWorked, IsStage, LogEnds, RunEnds, RunWhole, Settles, WholeBy, items_of, job_of};
ghost use Rattle.plcr_workers.specs.inner.Traces.{IsActed};

use crate::crew::{Left, gather, run_all};
use crate::drafts::Draft;
use crate::gate::Gate;
use crate::lines::PassLine;
use crate::log::{print_journal, print_script};
use crate::making::{Unwritten, abandon_all, keep_all, make_all, report_file};
use crate::opening::{Stage, meet_all};
use crate::worker::Worker;
use plcr_command::{CoreProcess, Ending, MOST_SCRIPTS, print_unwritten};
use plcr_core::Core;
use plcr_imagelist::{ImageList, Writer};
use plcr_io::{Desk, PutFailed, Sink};
use plcr_script::Script;
use plcr_turns::{ChangeLine, TurnPass, TurnQueue, take_last};
use std::sync::Wait;
use std::thread::Threads;

/// What a run leaves: the writer, which has met all passes; the journal; the outputs, of which the
/// last is the first; and the other lines of each script.
#[derive(Drop)]
struct Ran<K> {
    writer: Writer,
    journal: Vec<ChangeLine>,
    drafts: Vec<Vec<Draft<K>>>,
    others: Vec<Vec<PassLine>>,
}

/// Makes the outputs, runs the workers and ends them, and keeps the files and prints the log.
pub(crate) fn run_stage<R: Threads + Wait + Sync, D: Desk, L: Sink, G: Gate>(
    rt: &R,
    core: &Core,
    scripts: &[Script],
    stage: Stage<D::Out>,
    desk: &mut D,
    lines: &mut L,
    gate: &G,
    past: &mut Option<Writer>,
) -> Ending<'static>
where
    D::Out: Send,
    requires some { 1 ≤ length scripts.now }
    requires few { length scripts.now ≤ MOST_SCRIPTS }
    requires lawful { IsLawfulJob (job_of core.now scripts.now) }
    requires apart { All (λ (script : ScriptValue). HaveOwnLines script.statements) scripts.now }
    requires stage { IsStage scripts.now stage }
    ensures ends { RunEnds (job_of core.now scripts.now)
        (seen (D.told desk.old) (L.written lines.old) (L.faults lines.old))
        (seen (D.told desk.new) (L.written lines.new) (L.faults lines.new)) past.new result }
    ensures kept { KeptBy (job_of core.now scripts.now)
        (seen (D.told desk.old) (L.written lines.old) (L.faults lines.old))
        (seen (D.told desk.new) (L.written lines.new) (L.faults lines.new)) past.new result }
    ensures ran { WholeBy (job_of core.now scripts.now)
        (seen (D.told desk.old) (L.written lines.old) (L.faults lines.old))
        (seen (D.told desk.new) (L.written lines.new) (L.faults lines.new)) past.new result }
    ensures goes_on { GoesOn
        (seen (D.told desk.old) (L.written lines.old) (L.faults lines.old))
        (seen (D.told desk.new) (L.written lines.new) (L.faults lines.new)) }
    ensures mark { L.mark lines.new ≡ L.mark lines.old }
{
    let Stage {
        list,
        queue,
        mut chief,
        mut workers,
        room,
    } = stage;
    let made = work(
        rt,
        core,
        scripts,
        &queue,
        &list,
        desk,
        gate,
        workers.as_mut_slice(),
    );
    let ran = end_workers(rt, &queue, &list, scripts, &mut chief, workers, room);
    let Ran {
        writer,
        journal,
        drafts,
        others,
    } = ran;
    *past = Some(writer);
    match settle(scripts, desk, made, drafts) {
        Ok(()) => {
            let applied = journal.as_slice();
            let rest = others.as_slice();
            print_log(scripts, applied, rest, lines)
        }
        Err(unwritten) => {
            print_failed(scripts, unwritten, lines);
            Ending::Stopped
        }
    }
}

/// Makes all outputs, and then all workers run on the core.
///
/// # Errors
///
/// The report whose output was not made. Then no worker ran.
fn work<R: Threads + Wait + Sync, D: Desk, G: Gate>(
    rt: &R,
    core: &Core,
    scripts: &[Script],
    queue: &TurnQueue,
    list: &ImageList,
    desk: &mut D,
    gate: &G,
    workers: &mut [Worker<D::Out>],
) -> Result<(), Unwritten>
where
    D::Out: Send,
    requires some { 1 ≤ length scripts.now }
    requires few { length scripts.now ≤ MOST_SCRIPTS }
    requires lawful { IsLawfulJob (job_of core.now scripts.now) }
    requires apart { All (λ (script : ScriptValue). HaveOwnLines script.statements) scripts.now }
    requires queue { ruled_capacity queue.now ≡ 1 }
    requires count { length workers.old ≡ length scripts.now }
    requires new { AreNew scripts.now workers.old }
    requires hired { All (λ w. IsHired queue.now.table.shared.table_id list.now scripts.now w)
        workers.old }
    ensures ok { OnOk result
        (HasWorked D.Out.faults scripts.now workers.new (D.told desk.old) (D.told desk.new)) }
    ensures err { IfErr result (λ unwritten. NotAllMade scripts.now workers.new unwritten.script
        unwritten.at (D.told desk.old) (D.told desk.new)) }
    ensures reports { OnOk result
        (HasReported D.Out.written D.Out.faults (meanings_in core.now scripts.now) workers.new) }
    ensures acted { OnOk result
        (All (λ w. IsActed D.Out.written (meanings_in core.now scripts.now).report scripts.now w)
        workers.new) }
    ensures own { All (λ w. KnowsOwnOf (meanings_in core.now scripts.now) scripts.now w)
        workers.new }
    ensures count { length workers.new ≡ length scripts.now }
    ensures numbers { AreNumbered workers.new }
    ensures gone { All (λ w. IsGone queue.now.table.shared.table_id list.now scripts.now w)
        workers.new }
{
    if let Err(unwritten) = make_all(scripts, desk, workers) {
        return Err(unwritten);
    }
    let process = CoreProcess { core };
    let context = scripts[0].context(core.arch);
    run_all(rt, queue, list, scripts, &process, &context, gate, workers);
    Ok(())
}

/// The workers are taken in, the turn is taken apart, and all passes meet its writer.
fn end_workers<R: Wait, K: Sink + Drop>(
    rt: &R,
    queue: &TurnQueue,
    list: &ImageList,
    scripts: &[Script],
    chief: &mut TurnPass,
    workers: Vec<Worker<K>>,
    room: Left<K>,
) -> Ran<K>
    requires few { length scripts.now ≤ MOST_SCRIPTS }
    requires queue { IsPassOf queue.now chief.old }
    requires chief { HasGathered (length scripts.now) list.now [] (view chief.old) }
    requires sizes { AreSizesOf scripts.now (view chief.old).nodes (view chief.old).passes }
    requires count { vec_len workers ≡ length scripts.now }
    requires numbers { AreNumbered workers.items }
    requires gone { All (λ w. IsGone queue.now.table.shared.table_id list.now scripts.now w)
        workers.items }
    requires images_room { vec_len room.images + vec_len workers ≤ vec_capacity room.images }
    requires drafts_room { vec_len room.drafts + vec_len workers ≤ vec_capacity room.drafts }
    requires others_room { vec_len room.others + vec_len workers ≤ vec_capacity room.others }
    requires none { (vec_len room.images ≡ 0) × (vec_len room.drafts ≡ 0)
        × (vec_len room.others ≡ 0) }
    ensures writer { IsWriterOf scripts.now (Some result.writer) }
    ensures tells { (process : Meanings) →
        All (λ w. KnowsOwnOf process scripts.now w) workers.items →
        IsJournalOf process scripts.now result.journal.items result.writer
        × AppliesAll scripts.now workers.items result.journal.items }
    ensures reported { (process : Meanings) → HasReported K.written K.faults process workers.items →
        ToldReports K.written process result.writer workers.items }
    ensures runs { (process : Meanings) →
        RunWhole K.written process scripts.now workers.items result.writer result.journal.items
        (items_of result.others.items) }
    ensures journal { All (λ (l : JournalLine). l.script < length scripts.now)
        result.journal.items }
    ensures drafts { in_order result.drafts.items ≡ outputs_of workers.items }
    ensures others { AreLinesOf scripts.now result.others.items }
{
    let left = gather(queue, list, scripts, chief, workers, room);
    let (writer, journal) = take_last(rt, queue, chief).end();
    let Left {
        images,
        drafts,
        others,
    } = left;
    let writer = meet_all(list, writer, images);
    Ran {
        writer,
        journal,
        drafts,
        others,
    }
}

/// Keeps the outputs, if all were made, and gives them up otherwise.
///
/// # Errors
///
/// The report whose file was not made or not kept.
fn settle<D: Desk>(
    scripts: &[Script],
    desk: &mut D,
    made: Result<(), Unwritten>,
    drafts: Vec<Vec<Draft<D::Out>>>,
) -> Result<(), Unwritten>
    requires scripts { All IsLawful scripts.now }
    requires drafts { made ≡ Ok tt → All (IsDraftOf scripts.now) (in_order drafts.items) }
    requires done { made ≡ Ok tt → AreDone D.Out.faults (in_order drafts.items) }
    requires open { HasOpenFor (length (in_order drafts.items)) (D.told desk.old) }
    ensures settles { Settles D.Out.written scripts.now (in_order drafts.items) made
        (D.told desk.old) (D.told desk.new) result }
{
    match made {
        Ok(()) => keep_all(scripts, desk, drafts),
        Err(unwritten) => {
            abandon_all(desk, drafts);
            Err(unwritten)
        }
    }
}

/// Prints the journal, and then the other lines script by script.
fn print_log<L: Sink>(
    scripts: &[Script],
    journal: &[ChangeLine],
    others: &[Vec<PassLine>],
    lines: &mut L,
) -> Ending<'static>
    requires few { length scripts.now ≤ MOST_SCRIPTS }
    requires journal { All (λ (l : JournalLine). l.script < length scripts.now) journal.now }
    requires others { AreLinesOf scripts.now others.now }
    ensures ends { LogEnds (L.written lines.old) (L.written lines.new)
        (threads_log scripts.now journal.now (items_of others.now)) (L.faults lines.old)
        (L.faults lines.new) result }
    ensures later { L.faults lines.old ≤ L.faults lines.new }
    ensures mark { L.mark lines.new ≡ L.mark lines.old }
{
    match print_all(scripts, journal, others, lines) {
        Ok(()) => Ending::Done,
        Err(PutFailed) => Ending::Stopped,
    }
}

fn print_all<L: Sink>(
    scripts: &[Script],
    journal: &[ChangeLine],
    others: &[Vec<PassLine>],
    lines: &mut L,
) -> Result<(), PutFailed>
    requires few { length scripts.now ≤ MOST_SCRIPTS }
    requires journal { All (λ (l : JournalLine). l.script < length scripts.now) journal.now }
    requires others { AreLinesOf scripts.now others.now }
    ensures ok { OnOk result
        (L.written lines.new ≡ append_known (L.written lines.old)
        (threads_log scripts.now journal.now (items_of others.now))) }
    ensures err { OnErr result (AppendsProperFront (L.written lines.old) (L.written lines.new)
        (threads_log scripts.now journal.now (items_of others.now))) }
    ensures cause { OnErr result (Rose (L.faults lines.old) (L.faults lines.new)) }
    ensures later { L.faults lines.old ≤ L.faults lines.new }
    ensures mark { L.mark lines.new ≡ L.mark lines.old }
{
    match print_journal(journal, lines) {
        Ok(()) => print_others(scripts, others, lines),
        Err(PutFailed) => Err(PutFailed),
    }
}

/// Prints the other lines, script by script.
fn print_others<L: Sink>(
    scripts: &[Script],
    others: &[Vec<PassLine>],
    lines: &mut L,
) -> Result<(), PutFailed>
    requires few { length scripts.now ≤ MOST_SCRIPTS }
    requires others { AreLinesOf scripts.now others.now }
    ensures ok { OnOk result (L.written lines.new
        ≡ append_known (L.written lines.old) (scripts_text 1 scripts.now (items_of others.now))) }
    ensures err { OnErr result (AppendsProperFront (L.written lines.old) (L.written lines.new)
        (scripts_text 1 scripts.now (items_of others.now))) }
    ensures cause { OnErr result (Rose (L.faults lines.old) (L.faults lines.new)) }
    ensures later { L.faults lines.old ≤ L.faults lines.new }
    ensures mark { L.mark lines.new ≡ L.mark lines.old }
{
    for script in 0..scripts.len() {
        let told = others[script].as_slice();
        if let Err(PutFailed) = print_script(script as u32 + 1, &scripts[script], told, lines) {
            return Err(PutFailed);
        }
    }
    Ok(())
}

/// Prints that the file of a report was not kept.
fn print_failed<L: Sink>(scripts: &[Script], unwritten: Unwritten, lines: &mut L)
    requires scripts { All IsLawful scripts.now }
    requires stands { StandsAt scripts.now unwritten.script unwritten.at }
    ensures printed { Prints (L.written lines.old) (L.written lines.new)
        (cannot_write (name_at scripts.now unwritten.script unwritten.at)) (L.faults lines.old)
        (L.faults lines.new) }
    ensures later { L.faults lines.old ≤ L.faults lines.new }
    ensures mark { L.mark lines.new ≡ L.mark lines.old }
{
    let name = report_file(scripts, unwritten.script, unwritten.at);
    print_unwritten(lines, name.as_bytes());
}
