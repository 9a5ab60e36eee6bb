//! Where a worker's pass of the list is, and the statements that move it.
ghost use Rattle.std.specs.Prelude.{◌≡◌, ◌<◌, ℕ, IfSome, None, length};
ghost use Rattle.plcr_imagelist.specs.Carrying.{OnlySees};
ghost use Rattle.plcr_imagelist.specs.Holds.{IsHeld, IsReleased, IsWalking};
ghost use Rattle.plcr_run.specs.Walks.{IsFurther};
ghost use Rattle.plcr_script.specs.Reading.{file_of};
ghost use Rattle.plcr_workers.specs.Asking.{asked_in};
ghost use Rattle.plcr_workers.specs.inner.Drafts.{IsNoReportSaid};
ghost use Rattle.plcr_workers.specs.inner.Moves.{ComesIn, ComesOut, Moves, took_of};
ghost use Rattle.plcr_workers.specs.inner.Places.{IsAt, PassGoes, walker_of};

use crate::gate::Gate;
use crate::lines::PassSaid;
use plcr_command::MOST_SCRIPTS;
use plcr_imagelist::{Hold, ImageList, Pass};
use plcr_run::walk;
use plcr_script::Statement;

/// A worker's pass of the list.
pub(crate) enum Place {
    /// It is out.
    Out(Pass),
    /// It is in, with its walk.
    In(Hold),
}

/// The pass goes in, at a line of a script. The script's number counts from 0.
pub(crate) fn enter<G: Gate>(list: &ImageList, gate: &G, script: u32, line: u32, pass: Pass) -> Hold
    requires list { pass.table ≡ list.now }
    requires few { script < MOST_SCRIPTS }
    ensures list { result.walker.table ≡ list.now }
    ensures walking { IsWalking result }
    ensures held { IsHeld pass result }
    ensures goes { PassGoes pass result.walker }
{
    let hold = pass.enter(list);
    gate.inside_hold(script + 1, line);
    hold
}

/// The pass goes in, if it is out.
pub(crate) fn come_in<G: Gate>(
    list: &ImageList,
    gate: &G,
    script: u32,
    line: u32,
    place: Place,
) -> Hold
    requires list { IsAt list.now place }
    requires few { script < MOST_SCRIPTS }
    ensures list { result.walker.table ≡ list.now }
    ensures walking { IsWalking result }
    ensures comes { ComesIn place result }
    ensures goes { PassGoes (walker_of place) result.walker }
{
    match place {
        Place::Out(pass) => enter(list, gate, script, line, pass),
        Place::In(hold) => hold,
    }
}

/// The pass comes out, if it is in.
pub(crate) fn come_out(list: &ImageList, place: Place) -> Pass
    requires list { IsAt list.now place }
    ensures list { result.table ≡ list.now }
    ensures comes { ComesOut place result }
    ensures goes { PassGoes (walker_of place) result }
{
    match place {
        Place::Out(pass) => pass,
        Place::In(hold) => hold.leave(list).0,
    }
}

/// Takes a statement of the pass that writes no file, and gives what it came to. One that finds the
/// pass where it may not be is never read, and does nothing.
pub(crate) fn move_pass<G: Gate>(
    list: &ImageList,
    gate: &G,
    script: u32,
    line: u32,
    statement: &Statement,
    place: Place,
) -> (Place, Option<PassSaid>)
    requires list { IsAt list.now place }
    requires few { script < MOST_SCRIPTS }
    ensures list { IsAt list.now result.0 }
    ensures said { IfSome result.1 IsNoReportSaid }
    ensures moves { asked_in statement.now ≡ None → file_of statement.now ≡ None →
        Moves statement.now place result.0 (took_of result.1) }
    ensures goes { PassGoes (walker_of place) (walker_of result.0) }
{
    match place {
        Place::Out(pass) => match statement {
            Statement::Enter { .. } => (
                Place::In(enter(list, gate, script, line, pass)),
                Some(PassSaid::Entered),
            ),
            _ => (Place::Out(pass), None),
        },
        Place::In(hold) => match statement {
            Statement::Walk { pass: _, most } => {
                let (hold, said) = walk_on(list, hold, *most);
                (Place::In(hold), Some(said))
            }
            Statement::Leave { .. } => {
                let (pass, said) = leave(list, hold);
                (Place::Out(pass), Some(said))
            }
            _ => (Place::In(hold), None),
        },
    }
}

/// At most so many images more of the walk.
fn walk_on(list: &ImageList, hold: Hold, most: u32) -> (Hold, PassSaid)
    requires list { hold.walker.table ≡ list.now }
    requires walking { IsWalking hold }
    ensures list { result.0.walker.table ≡ list.now }
    ensures walking { IsWalking result.0 }
    ensures said { result.1 ≡ PassSaid.Walked (length result.0.met) result.0.ended }
    ensures further { IsFurther hold most result.0 }
    ensures sees { OnlySees hold.walker result.0.walker }
    ensures goes { PassGoes hold.walker result.0.walker }
{
    let mut hold = hold;
    walk(&mut hold, list, most);
    let met = hold.met();
    let ended = hold.has_ended();
    (hold, PassSaid::Walked { met, ended })
}

/// The pass comes out.
fn leave(list: &ImageList, hold: Hold) -> (Pass, PassSaid)
    requires list { hold.walker.table ≡ list.now }
    ensures list { result.0.table ≡ list.now }
    ensures said { (low : ℕ) × (high : ℕ) × IsReleased hold result.0 low high
        × (result.1 ≡ PassSaid.Left (length hold.met) low high) }
    ensures goes { PassGoes hold.walker result.0 }
{
    let met = hold.met();
    let (pass, window) = hold.leave(list);
    let said = PassSaid::Left {
        met,
        low: window.low,
        high: window.high,
    };
    (pass, said)
}
