//! A worker, which runs one script.
ghost use Rattle.std.specs.Prelude.{◌≡◌, ◌+◌, ◌^◌, ◌<◌, ◌≤◌, ◌++◌, ℕ, All, vec_len, vec_capacity};
ghost use Rattle.plcr_workers.specs.declared.lines.PassLine.{PassLine as Line};
ghost use Rattle.crossbeam_queue.specs.Passes.{ruled_capacity, view};
ghost use Rattle.plcr_script.specs.Meanings.{meanings};
ghost use Rattle.plcr_turns.specs.Lines.{lines_of};
ghost use Rattle.plcr_workers.specs.inner.Own.{AreOwn, HaveOwnLines, KnowsOwn};
ghost use Rattle.plcr_workers.specs.inner.Places.{IsAt, PassGoes, walker_of};
ghost use Rattle.plcr_workers.specs.inner.Reports.{AreReports, HasReports};
ghost use Rattle.plcr_workers.specs.inner.Drafts.{HasOutputs, HasTaken, next_after};
ghost use Rattle.plcr_workers.specs.inner.Traces.{ActsWhole, TracesWhole, lines_said};
ghost use Rattle.plcr_workers.specs.inner.Hired.{IsReady, IsWhole, HasRun, Begins, Goes};

use crate::acting::{Took, take_statement};
use crate::drafts::Draft;
use crate::gate::Gate;
use crate::lines::{PassLine, PassSaid};
use crate::places::{Place, come_out};
use plcr_encode::Context;
use plcr_imagelist::{ImageList, Pass};
use plcr_io::Sink;
use plcr_script::{Process, Script};
use plcr_turns::{TurnPass, TurnQueue};
use std::sync::Wait;

/// A worker: the number of its script, from 0, its passes of the queue and of the list, the outputs
/// of its reports, and the lines of its script that don't stand in the journal.
#[derive(Drop)]
pub struct Worker<K> {
    pub(crate) script: u32,
    pub(crate) turns: TurnPass,
    pub(crate) image: Option<Pass>,
    pub(crate) drafts: Vec<Draft<K>>,
    pub(crate) lines: Vec<PassLine>,
}

impl<K: Sink> Worker<K> {
    /// Runs the script, up to its end or to the first output that fails. The pass comes out at the
    /// end.
    pub(crate) fn run<R: Wait, P: Process, G: Gate>(
        &mut self,
        rt: &R,
        queue: &TurnQueue,
        list: &ImageList,
        script: &Script,
        process: &P,
        context: &Context,
        gate: &G,
    )
        requires context { P.accepts process.now context.now }
        requires queue { ruled_capacity queue.now ≡ 1 }
        requires ready { IsReady queue.now.table.shared.table_id list.now script.now self.old }
        requires outputs { HasOutputs K.faults script.now self.old }
        requires apart { HaveOwnLines script.now.statements }
        ensures run { HasRun queue.entry.now.table.shared.table_id list.entry.now script.entry.now
            self.old self.new }
        ensures taken { HasTaken K.faults self.old self.new }
        ensures whole { IsWhole script.entry.now self.new }
        ensures reports { HasReports K.written (P.report process.entry.now context.entry.now)
            self.old self.new }
        ensures acted { ActsWhole K.written (P.report process.entry.now context.entry.now)
            script.entry.now.statements self.old self.new }
        ensures own { KnowsOwn
            (meanings (P.image_fault process.entry.now)
            (P.report process.entry.now context.entry.now)) script.entry.now.statements self.new }
    {
        let Some(pass) = self.image.take() else {
            return;
        };
        let place = Place::Out(pass);
        let place = self.take_statements(rt, queue, list, script, process, context, gate, place);
        self.image = Some(come_out(list, place));
    }

    /// Takes the statements of the script, up to the first whose output fails.
    fn take_statements<R: Wait, P: Process, G: Gate>(
        &mut self,
        rt: &R,
        queue: &TurnQueue,
        list: &ImageList,
        script: &Script,
        process: &P,
        context: &Context,
        gate: &G,
        place: Place,
    ) -> Place
        requires context { P.accepts process.now context.now }
        requires queue { ruled_capacity queue.now ≡ 1 }
        requires begins { Begins queue.now.table.shared.table_id list.now script.now self.old }
        requires outputs { HasOutputs K.faults script.now self.old }
        requires apart { HaveOwnLines script.now.statements }
        requires place { IsAt list.now place }
        ensures goes { Goes queue.entry.now.table.shared.table_id list.entry.now script.entry.now
            self.old self.new }
        ensures place { IsAt list.entry.now result }
        ensures image { PassGoes (walker_of place) (walker_of result) }
        ensures taken { HasTaken K.faults self.old self.new }
        ensures whole { IsWhole script.entry.now self.new }
        ensures reports { AreReports K.written (P.report process.entry.now context.entry.now)
            (walker_of result) self.old.drafts.items self.new.drafts.items }
        ensures traced { TracesWhole K.written (P.report process.entry.now context.entry.now)
            script.entry.now.statements place result self.old self.new }
        ensures own { AreOwn
            (meanings (P.image_fault process.entry.now)
            (P.report process.entry.now context.entry.now)) script.entry.now.statements
            (walker_of result).names (lines_of self.new.script (view self.new.turns).journal) }
    {
        let mut place = place;
        let mut next = 0;
        for at in 0..script.len() {
            let (moved, took) = take_statement(
                rt,
                queue,
                list,
                process,
                context,
                gate,
                self.script,
                script.line(at),
                script.statement(at),
                &mut self.turns,
                place,
                &mut self.drafts,
                next,
            );
            place = moved;
            match add_line(&mut self.lines, at, took, next) {
                Some(more) => next = more,
                None => return place,
            }
        }
        place
    }
}

/// Adds the line of a statement, if it has one here. Gives the number of the script's next output,
/// behind this one; none where an output failed.
fn add_line(lines: &mut Vec<PassLine>, at: usize, took: Took, next: usize) -> Option<usize>
    requires room { vec_len lines.old < vec_capacity lines.old }
    requires small { next + 1 < 2 ^ 64 }
    ensures lines { (n : ℕ) → at < n → All (λ (l : Line). l.at < n) lines.old.items →
        All (λ (l : Line). l.at < n) lines.new.items }
    ensures said { lines.new.items ≡ lines.old.items ++ lines_said at took }
    ensures len { vec_len lines.new ≤ vec_len lines.old + 1 }
    ensures capacity { vec_capacity lines.new ≡ vec_capacity lines.old }
    ensures next { result ≡ next_after took next }
{
    match took {
        Took::Said(said) => {
            lines.push_reserved(PassLine { at, said });
            match said {
                PassSaid::Reported { .. } => Some(next + 1),
                _ => Some(next),
            }
        }
        Took::Silent => Some(next),
        Took::Unwritten => None,
    }
}
