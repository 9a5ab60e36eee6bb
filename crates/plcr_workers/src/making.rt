//! The outputs of all reports: made before the workers start, and kept or given up after they have
//! ended.
ghost use Rattle.std.specs.Prelude.{◌≡◌, ◌⊎◌, ◌+◌, ◌≤◌, ◌<◌, [], ◌∷◌, ℕ, length, All, reverse, vec_len, vec_capacity, OnOk, OnErr, IfErr, IsTrue};
ghost use Rattle.plcr_io.specs.Desk.{HasOpen};
ghost use Rattle.plcr_script.specs.Lawful.{IsLawful};
ghost use Rattle.plcr_script.specs.Reading.{files_of, written_by};
ghost use Rattle.plcr_script.specs.Sayings.{is_file_name};
ghost use Rattle.plcr_workers.specs.inner.Hired.{AreNew};
ghost use Rattle.plcr_workers.specs.inner.Outputs.{AllMade, AreEmpty, AreMade, HaveEmpty, AreSameWorkers, HasMade, IsSameWorker, IsUnmade, NotAllMade, name_at, StandsAt, IsDraftOf, AreDone, HasKeptAll, HasKeptUpTo, HasDropped, HasOpenFor, in_order};

use crate::drafts::{Draft, Progress};
use crate::worker::Worker;
use plcr_command::MOST_SCRIPTS;
use plcr_io::{Desk, MakeFailed};
use plcr_script::{Script, Statement};

/// A report whose file was not made or not kept: the number of its script and the place of its
/// statement there, from 0.
#[derive(Clone, Copy, Debug, PartialEq, Eq)]
pub(crate) struct Unwritten {
    pub(crate) script: u32,
    pub(crate) at: usize,
}

/// Makes the outputs of all workers' reports, in the order of script and line.
///
/// # Errors
///
/// The report whose output was not made.
pub(crate) fn make_all<D: Desk>(
    scripts: &[Script],
    desk: &mut D,
    workers: &mut [Worker<D::Out>],
) -> Result<(), Unwritten>
    requires scripts { All IsLawful scripts.now }
    requires few { length scripts.now ≤ MOST_SCRIPTS }
    requires count { length workers.old ≡ length scripts.now }
    requires new { AreNew scripts.now workers.old }
    ensures ok { OnOk result
        (AllMade D.Out.faults scripts.now workers.new (D.told desk.old) (D.told desk.new)) }
    ensures err { IfErr result (λ unwritten. NotAllMade scripts.now workers.new unwritten.script
        unwritten.at (D.told desk.old) (D.told desk.new)) }
    ensures empty { HaveEmpty D.Out.written workers.new }
    ensures same { AreSameWorkers workers.old workers.new }
{
    for script in 0..scripts.len() {
        let number = script as u32;
        if let Err(at) = make_for(&scripts[script], number, desk, &mut workers[script]) {
            return Err(Unwritten { script: number, at });
        }
    }
    Ok(())
}

/// Makes the outputs of a worker.
fn make_for<D: Desk>(
    script: &Script,
    number: u32,
    desk: &mut D,
    worker: &mut Worker<D::Out>,
) -> Result<(), usize>
    requires script { IsLawful script.now }
    requires none { vec_len worker.old.drafts ≡ 0 }
    requires room { length (files_of script.now.statements) ≤ vec_capacity worker.old.drafts }
    ensures ok { OnOk result
        (AreMade D.Out.faults number script.now.statements (length script.now.statements)
        worker.new.drafts.items
        × HasMade (files_of script.now.statements) (D.told desk.old) (D.told desk.new)) }
    ensures err { IfErr result (λ at. IsUnmade D.Out.faults number script.now.statements at
        worker.new.drafts.items (D.told desk.old) (D.told desk.new)) }
    ensures empty { AreEmpty D.Out.written worker.new.drafts.items }
    ensures same { IsSameWorker worker.old worker.new }
{
    make_drafts(script, number, desk, &mut worker.drafts)
}

/// Makes the outputs of a script's reports, in order.
///
/// # Errors
///
/// The place of the statement whose output was not made.
fn make_drafts<D: Desk>(
    script: &Script,
    number: u32,
    desk: &mut D,
    drafts: &mut Vec<Draft<D::Out>>,
) -> Result<(), usize>
    requires script { IsLawful script.now }
    requires none { vec_len drafts.old ≡ 0 }
    requires room { length (files_of script.now.statements) ≤ vec_capacity drafts.old }
    ensures ok { OnOk result
        (AreMade D.Out.faults number script.now.statements (length script.now.statements)
        drafts.new.items × HasMade (files_of script.now.statements) (D.told desk.old)
        (D.told desk.new)) }
    ensures err { IfErr result (λ at. IsUnmade D.Out.faults number script.now.statements at
        drafts.new.items (D.told desk.old) (D.told desk.new)) }
    ensures empty { AreEmpty D.Out.written drafts.new.items }
{
    for at in 0..script.len() {
        if let Statement::Report { pass: _, file } = script.statement(at) {
            match desk.make(file_name(file.as_slice())) {
                Ok(out) => drafts.push_reserved(Draft {
                    script: number,
                    at,
                    out,
                    progress: Progress::Waiting,
                }),
                Err(MakeFailed) => return Err(at),
            }
        }
    }
    Ok(())
}

/// Keeps the files of all scripts, of which the last is the first, up to the first that was not
/// written whole or is not kept; the others are given up.
///
/// # Errors
///
/// The report whose file was not kept.
pub(crate) fn keep_all<D: Desk>(
    scripts: &[Script],
    desk: &mut D,
    all: Vec<Vec<Draft<D::Out>>>,
) -> Result<(), Unwritten>
    requires scripts { All IsLawful scripts.now }
    requires drafts { All (IsDraftOf scripts.now) (in_order all.items) }
    requires done { AreDone D.Out.faults (in_order all.items) }
    requires open { HasOpenFor (length (in_order all.items)) (D.told desk.old) }
    ensures ok { OnOk result (HasKeptAll D.Out.written scripts.now (in_order all.items)
        (D.told desk.old) (D.told desk.new)) }
    ensures err { IfErr result (λ unwritten.
        HasKeptUpTo D.Out.written scripts.now (in_order all.items) unwritten.script unwritten.at
        (D.told desk.old) (D.told desk.new)) }
{
    let mut all = all;
    while let Some(drafts) = all.pop() {
        if let Err(unwritten) = keep_each(scripts, desk, drafts) {
            abandon_all(desk, all);
            return Err(unwritten);
        }
    }
    Ok(())
}

/// The same of one script.
fn keep_each<D: Desk>(
    scripts: &[Script],
    desk: &mut D,
    drafts: Vec<Draft<D::Out>>,
) -> Result<(), Unwritten>
    requires scripts { All IsLawful scripts.now }
    requires drafts { All (IsDraftOf scripts.now) (reverse drafts.items) }
    requires done { AreDone D.Out.faults (reverse drafts.items) }
    requires open { HasOpenFor (length drafts.items) (D.told desk.old) }
    ensures ok { OnOk result (HasKeptAll D.Out.written scripts.now (reverse drafts.items)
        (D.told desk.old) (D.told desk.new)) }
    ensures err { IfErr result (λ unwritten.
        HasKeptUpTo D.Out.written scripts.now (reverse drafts.items) unwritten.script unwritten.at
        (D.told desk.old) (D.told desk.new)) }
    ensures open { (count : ℕ) → HasOpenFor (count + length drafts.items) (D.told desk.old) →
        HasOpenFor count (D.told desk.new) }
{
    let mut drafts = drafts;
    while let Some(draft) = drafts.pop() {
        if let Err(unwritten) = keep(scripts, desk, draft) {
            abandon_each(desk, drafts);
            return Err(unwritten);
        }
    }
    Ok(())
}

/// Keeps an output that was written whole, and gives up another.
fn keep<D: Desk>(scripts: &[Script], desk: &mut D, draft: Draft<D::Out>) -> Result<(), Unwritten>
    requires scripts { All IsLawful scripts.now }
    requires draft { IsDraftOf scripts.now draft }
    requires done { AreDone D.Out.faults (draft ∷ []) }
    requires open { HasOpen (D.told desk.old) }
    ensures ok { OnOk result (HasKeptAll D.Out.written scripts.now (draft ∷ []) (D.told desk.old)
        (D.told desk.new)) }
    ensures err { IfErr result (λ unwritten. HasKeptUpTo D.Out.written scripts.now (draft ∷ [])
        unwritten.script unwritten.at (D.told desk.old) (D.told desk.new)) }
    ensures open { (count : ℕ) → HasOpenFor (count + 1) (D.told desk.old) →
        HasOpenFor count (D.told desk.new) }
{
    let Draft {
        script,
        at,
        out,
        progress,
    } = draft;
    match progress {
        Progress::Written => match desk.keep(report_file(scripts, script, at), out) {
            Ok(()) => Ok(()),
            Err(MakeFailed) => Err(Unwritten { script, at }),
        },
        Progress::Waiting => {
            desk.abandon(out);
            Err(Unwritten { script, at })
        }
        Progress::Failed => {
            desk.abandon(out);
            Err(Unwritten { script, at })
        }
    }
}

/// Gives up the outputs of all scripts.
pub(crate) fn abandon_all<D: Desk>(desk: &mut D, all: Vec<Vec<Draft<D::Out>>>)
    requires open { HasOpenFor (length (in_order all.items)) (D.told desk.old) }
    ensures dropped { HasDropped (D.told desk.old) (D.told desk.new) }
{
    let mut all = all;
    while let Some(drafts) = all.pop() {
        abandon_each(desk, drafts);
    }
}

/// Gives up the outputs of one script.
fn abandon_each<D: Desk>(desk: &mut D, drafts: Vec<Draft<D::Out>>)
    requires open { HasOpenFor (length drafts.items) (D.told desk.old) }
    ensures dropped { HasDropped (D.told desk.old) (D.told desk.new) }
    ensures open { (count : ℕ) → HasOpenFor (count + length drafts.items) (D.told desk.old) →
        HasOpenFor count (D.told desk.new) }
{
    let mut drafts = drafts;
    while let Some(draft) = drafts.pop() {
        desk.abandon(draft.out);
    }
}

/// The name of the file of a report of a script; none for another statement.
pub(crate) fn report_file(scripts: &[Script], script: u32, at: usize) -> &str
    requires scripts { All IsLawful scripts.now }
    requires stands { StandsAt scripts.now script at }
    ensures { result.now ≡ name_at scripts.now script at }
{
    match scripts[script as usize].statement(at) {
        Statement::Report { pass: _, file } => file_name(file.as_slice()),
        _ => "",
    }
}

/// The name of a file as text: it has visible characters of ASCII alone.
fn file_name(file: &[u8]) -> &str
    requires { IsTrue (is_file_name file.now) }
    ensures { result.now ≡ file.now }
{
    match str::from_utf8(file) {
        Ok(name) => name,
        Err(_) => unreachable!(),
    }
}
