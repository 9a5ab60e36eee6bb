//! The statements of a script, one after the other.
ghost use Rattle.std.specs.Prelude.{◌≡◌, length, OnOk, OnErr};
ghost use Rattle.plcr_script.specs.Lawful.{IsLawful};
ghost use Rattle.plcr_script.specs.Meanings.{meanings};
ghost use Rattle.plcr_command.specs.Seen.{seen};
ghost use Rattle.plcr_command.specs.Endings.{GoesOn};
ghost use Rattle.plcr_run.specs.inner.Tokens.{AreTokens};
ghost use Rattle.plcr_run.specs.inner.Running.{IsFresh, RunDone, RunStopped};

use crate::slots::Slot;
use crate::stepping::{Stop, take_step};
use crate::writing::Writing;
use plcr_encode::Context;
use plcr_imagelist::ImageList;
use plcr_io::{Desk, Sink};
use plcr_script::{Process, Script};

/// Takes the steps of a script in order, up to the first that stops the run.
pub(crate) fn run<P: Process, D: Desk, L: Sink>(
    process: &P,
    script: &Script,
    context: &Context,
    list: &ImageList,
    writing: Writing,
    slots: &mut [Slot],
    desk: &mut D,
    lines: &mut L,
) -> (Writing, Result<(), Stop>)
    requires context { P.accepts process.now context.now }
    requires lawful { IsLawful script.now }
    requires tokens { AreTokens list.now writing slots.old }
    requires fresh { IsFresh script.now writing slots.old }
    ensures tokens { AreTokens list.now result.0 slots.new }
    ensures done { OnOk result.1
        (RunDone (meanings (P.image_fault process.now) (P.report process.now context.now))
        script.now
        (seen (D.told desk.old) (L.written lines.old) (L.faults lines.old))
        result.0 slots.new
        (seen (D.told desk.new) (L.written lines.new) (L.faults lines.new))) }
    ensures stopped { OnErr result.1
        (RunStopped (meanings (P.image_fault process.now) (P.report process.now context.now))
        script.now
        (seen (D.told desk.old) (L.written lines.old) (L.faults lines.old))
        result.0 slots.new
        (seen (D.told desk.new) (L.written lines.new) (L.faults lines.new))) }
    ensures goes_on { GoesOn
        (seen (D.told desk.old) (L.written lines.old) (L.faults lines.old))
        (seen (D.told desk.new) (L.written lines.new) (L.faults lines.new)) }
    ensures mark { L.mark lines.new ≡ L.mark lines.old }
{
    let mut writing = writing;
    for i in 0..script.len() {
        let (next, told) = take_step(
            process,
            context,
            script.line(i),
            script.statement(i),
            list,
            writing,
            slots,
            desk,
            lines,
        );
        writing = next;
        if let Err(stop) = told {
            return (writing, Err(stop));
        }
    }
    (writing, Ok(()))
}
