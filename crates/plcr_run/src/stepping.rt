//! One step of a run: what a statement comes to, its file if it writes one, and its line of the
//! log.
ghost use Rattle.std.specs.Prelude.{◌≡◌, ◌≢◌, ◌≤◌, ◌<◌, [], List, Option, ℕ, None, IsTrue, OnOk, length};
ghost use Rattle.plcr_io.specs.Desk.{Told};
ghost use Rattle.plcr_macho.specs.Images.{Listed};
ghost use Rattle.plcr_script.specs.Sayings.{is_file_name};
ghost use Rattle.plcr_script.specs.Lawful.{IsFitStatement};
ghost use Rattle.plcr_script.specs.Meanings.{meanings};
ghost use Rattle.plcr_script.specs.RunTurns.{turn_of};
ghost use Rattle.plcr_script.specs.Log.{log_line};
ghost use Rattle.plcr_command.specs.Seen.{seen};
ghost use Rattle.plcr_command.specs.Endings.{GoesOn};
ghost use Rattle.plcr_run.specs.inner.Slots.{slot_at, IsOutAt};
ghost use Rattle.plcr_run.specs.inner.Tokens.{writer_of, AreTokens, Turns};
ghost use Rattle.plcr_run.specs.inner.Changes.{WriterTurns};
ghost use Rattle.plcr_run.specs.inner.Stepping.{IsChange, IsMove, MayStand, MovesOnly, StepEnds, ReportEnds, Steps};

use crate::changing::{begin_load, begin_unload, end, load, step, unload};
use crate::passes::{enter, leave, walk_on};
use crate::reporting::{enter_if_out, save};
use crate::slots::Slot;
use crate::writing::Writing;
use plcr_command::{Unsaved, print_unwritten};
use plcr_encode::Context;
use plcr_imagelist::ImageList;
use plcr_io::{Desk, PutFailed, Sink};
use plcr_script::{Outcome, Process, Statement, write_outcome};

/// Why a run stops.
#[derive(Clone, Copy, Debug, PartialEq, Eq)]
pub enum Stop {
    /// A file wasn't kept.
    Unwritten,
    /// A line of the log wasn't printed whole.
    Unprinted,
}

/// Takes the step of a statement.
#[inline(always)]
pub(crate) fn take_step<P: Process, D: Desk, L: Sink>(
    process: &P,
    context: &Context,
    number: u32,
    statement: &Statement,
    list: &ImageList,
    writing: Writing,
    slots: &mut [Slot],
    desk: &mut D,
    lines: &mut L,
) -> (Writing, Result<(), Stop>)
    requires context { P.accepts process.now context.now }
    requires fit { IsFitStatement statement.now }
    requires tokens { AreTokens list.now writing slots.old }
    requires stands { MayStand slots.old statement.now }
    ensures tokens { AreTokens list.now result.0 slots.new }
    ensures steps { Steps (meanings (P.image_fault process.now) (P.report process.now context.now))
        number statement.now
        writing slots.old
        (seen (D.told desk.old) (L.written lines.old) (L.faults lines.old))
        result.0 slots.new
        (seen (D.told desk.new) (L.written lines.new) (L.faults lines.new)) result.1 }
    ensures moves { OnOk result.1 (MovesOnly statement.now slots.old slots.new) }
    ensures count { length slots.new ≡ length slots.old }
    ensures goes_on { GoesOn
        (seen (D.told desk.old) (L.written lines.old) (L.faults lines.old))
        (seen (D.told desk.new) (L.written lines.new) (L.faults lines.new)) }
    ensures mark { L.mark lines.new ≡ L.mark lines.old }
{
    match statement {
        Statement::Report { pass, file } => {
            let mut writing = writing;
            let told = report(
                process,
                context,
                number,
                *pass,
                file.as_slice(),
                list,
                &mut writing,
                slots,
                desk,
                lines,
            );
            (writing, told)
        }
        Statement::Enter { .. } | Statement::Walk { .. } | Statement::Leave { .. } => {
            let mut writing = writing;
            let outcome = move_pass(statement, list, &mut writing, slots);
            (writing, tell(number, &outcome, lines))
        }
        _ => {
            let (writing, outcome) = change_list(process, statement, list, writing);
            (writing, tell(number, &outcome, lines))
        }
    }
}

/// Takes the step of a statement of the writer, but for its line.
#[inline(always)]
fn change_list<P: Process>(
    process: &P,
    statement: &Statement,
    list: &ImageList,
    writing: Writing,
) -> (Writing, Outcome<'static>)
    requires list { (writer_of writing).table ≡ list.now }
    requires change { IsChange statement.now }
    ensures turns { (report : List Listed → List ℕ) →
        WriterTurns list.now writing (λ nodes passes state.
        turn_of (meanings (P.image_fault process.now) report) nodes passes state statement.now)
        result.0 result.1 }
    ensures list { (writer_of result.0).table ≡ list.now }
{
    match statement {
        Statement::Load { header, name } => load(process, list, writing, *header, name.as_slice()),
        Statement::Unload { header } => unload(list, writing, *header),
        Statement::BeginLoad { header, name } => {
            begin_load(process, list, writing, *header, name.as_slice())
        }
        Statement::BeginUnload { header } => begin_unload(list, writing, *header),
        Statement::Step { most } => step(list, writing, *most),
        Statement::End => end(list, writing),
        _ => unreachable!(),
    }
}

/// Takes the step of a statement of a pass that writes no file, but for its line.
fn move_pass(
    statement: &Statement,
    list: &ImageList,
    writing: &mut Writing,
    slots: &mut [Slot],
) -> Outcome<'static>
    requires tokens { AreTokens list.now writing.old slots.old }
    requires stands { MayStand slots.old statement.now }
    requires moves { IsMove statement.now }
    ensures tokens { AreTokens list.now writing.new slots.new }
    ensures turns { (fault : ℕ → Option ℕ) (report : List Listed → List ℕ) →
        Turns writing.old slots.old
        (λ state. turn_of (meanings fault report) (writer_of writing.old).nodes
        (writer_of writing.old).passes state statement.now) writing.new slots.new result }
    ensures moves { MovesOnly statement.now slots.old slots.new }
    ensures count { length slots.new ≡ length slots.old }
{
    match statement {
        Statement::Enter { pass } => {
            enter(list, writing, slots, *pass);
            Outcome::Entered { pass: *pass }
        }
        Statement::Walk { pass, most } => walk_on(list, writing, slots, *pass, *most),
        Statement::Leave { pass } => {
            let (met, window) = leave(list, writing, slots, *pass);
            Outcome::Left {
                pass: *pass,
                met,
                low: window.low,
                high: window.high,
            }
        }
        _ => unreachable!(),
    }
}

/// Prints the line of a statement that writes no file.
fn tell<L: Sink>(number: u32, outcome: &Outcome, lines: &mut L) -> Result<(), Stop>
    ensures ends { (desk : Told) → StepEnds result [] (log_line None number outcome.now)
        (seen desk (L.written lines.old) (L.faults lines.old))
        (seen desk (L.written lines.new) (L.faults lines.new)) }
    ensures later { L.faults lines.old ≤ L.faults lines.new }
    ensures mark { L.mark lines.new ≡ L.mark lines.old }
{
    match write_outcome(None, number, outcome, lines) {
        Ok(()) => Ok(()),
        Err(PutFailed) => Err(Stop::Unprinted),
    }
}

/// Keeps the report of a pass as a file, and prints the line of its statement. Where the file isn't
/// kept, the pass stays in.
fn report<P: Process, D: Desk, L: Sink>(
    process: &P,
    context: &Context,
    number: u32,
    pass: u32,
    file: &[u8],
    list: &ImageList,
    writing: &mut Writing,
    slots: &mut [Slot],
    desk: &mut D,
    lines: &mut L,
) -> Result<(), Stop>
    requires context { P.accepts process.now context.now }
    requires named { IsTrue (is_file_name file.now) }
    requires tokens { AreTokens list.now writing.old slots.old }
    requires place { pass < length slots.old }
    ensures tokens { AreTokens list.now writing.new slots.new }
    ensures ends { ReportEnds
        (meanings (P.image_fault process.now) (P.report process.now context.now)) number pass
        file.now
        writing.old slots.old
        (seen (D.told desk.old) (L.written lines.old) (L.faults lines.old))
        writing.new slots.new
        (seen (D.told desk.new) (L.written lines.new) (L.faults lines.new)) result }
    ensures out { OnOk result (IsOutAt slots.new pass) }
    ensures others { (k : ℕ) → k ≢ pass → slot_at slots.new k ≡ slot_at slots.old k }
    ensures count { length slots.new ≡ length slots.old }
    ensures goes_on { GoesOn
        (seen (D.told desk.old) (L.written lines.old) (L.faults lines.old))
        (seen (D.told desk.new) (L.written lines.new) (L.faults lines.new)) }
    ensures mark { L.mark lines.new ≡ L.mark lines.old }
{
    enter_if_out(list, writing, slots, pass);
    match save(
        process,
        context,
        list,
        writing,
        slots,
        pass,
        file_name(file),
        desk,
    ) {
        Err(Unsaved) => {
            print_unwritten(lines, file);
            Err(Stop::Unwritten)
        }
        Ok(bytes) => {
            let (images, window) = leave(list, writing, slots, pass);
            let outcome = Outcome::Reported {
                file,
                bytes,
                images,
                low: window.low,
                high: window.high,
            };
            match write_outcome(None, number, &outcome, lines) {
                Ok(()) => Ok(()),
                Err(PutFailed) => Err(Stop::Unprinted),
            }
        }
    }
}

/// The name of a file as text: it has visible characters of ASCII alone.
fn file_name(file: &[u8]) -> &str
    requires { IsTrue (is_file_name file.now) }
    ensures { result.now ≡ file.now }
{
    match str::from_utf8(file) {
        Ok(name) => name,
        Err(_) => unreachable!(),
    }
}
