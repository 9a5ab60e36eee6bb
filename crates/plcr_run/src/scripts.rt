//! The run of a whole script, on an image list of its own.
ghost use Rattle.std.specs.Prelude.{◌≡◌, None, IfOk, map};
ghost use Rattle.plcr_script.specs.Lawful.{AreSizes, IsLawful};
ghost use Rattle.plcr_script.specs.Meanings.{meanings};
ghost use Rattle.plcr_command.specs.Seen.{seen};
ghost use Rattle.plcr_command.specs.Endings.{GoesOn};
ghost use Rattle.plcr_run.specs.declared.slots.Slot.TheVariants.{Out};
ghost use Rattle.plcr_run.specs.Past.{RunIs, PlayIs};
ghost use Rattle.plcr_run.specs.inner.Opening.{IsOpened};

use crate::ending::end_script;
use crate::running::run;
use crate::slots::Slot;
use crate::writing::Writing;
use plcr_command::{Ending, Refusal, status};
use plcr_encode::Context;
use plcr_imagelist::{ImageList, OpenError, Pass, Writer};
use plcr_io::{Desk, Sink};
use plcr_script::{Process, Script};
use std::alloc::{AllocError, Global};

/// A list that was opened for a run, and its tokens.
#[derive(Drop)]
struct Opened {
    list: ImageList,
    writer: Writer,
    slots: Vec<Slot>,
}

/// Runs a script over a process, on an image list that is opened with the script's sizes: keeps
/// each report that it asks for, and prints the log. Gives 0 where all was done, 5 where a file
/// wasn't kept or a line not printed whole, and 7 for want of memory. At 0 and 5 it leaves the
/// writer of the list in `past`, after each pass has met it. All memory is taken before the first
/// output is made and the first line printed.
pub fn run_script<P: Process, D: Desk, L: Sink>(
    alloc: Global,
    process: &P,
    script: &Script,
    context: &Context,
    desk: &mut D,
    lines: &mut L,
    past: &mut Option<Writer>,
) -> u8
    requires context { P.accepts process.now context.now }
    requires empty { past.old ≡ None }
    ensures ran { RunIs (meanings (P.image_fault process.now) (P.report process.now context.now))
        script.now
        (seen (D.told desk.old) (L.written lines.old) (L.faults lines.old))
        (seen (D.told desk.new) (L.written lines.new) (L.faults lines.new)) past.new result }
    ensures goes_on { GoesOn
        (seen (D.told desk.old) (L.written lines.old) (L.faults lines.old))
        (seen (D.told desk.new) (L.written lines.new) (L.faults lines.new)) }
    ensures mark { L.mark lines.new ≡ L.mark lines.old }
{
    status(play(alloc, process, script, context, desk, lines, past))
}

/// The same, and gives how it ended: all was done, it stopped, or memory was wanting.
pub fn play<P: Process, D: Desk, L: Sink>(
    alloc: Global,
    process: &P,
    script: &Script,
    context: &Context,
    desk: &mut D,
    lines: &mut L,
    past: &mut Option<Writer>,
) -> Ending<'static>
    requires context { P.accepts process.now context.now }
    requires empty { past.old ≡ None }
    ensures played { PlayIs
        (meanings (P.image_fault process.now) (P.report process.now context.now)) script.now
        (seen (D.told desk.old) (L.written lines.old) (L.faults lines.old))
        (seen (D.told desk.new) (L.written lines.new) (L.faults lines.new)) past.new result }
    ensures goes_on { GoesOn
        (seen (D.told desk.old) (L.written lines.old) (L.faults lines.old))
        (seen (D.told desk.new) (L.written lines.new) (L.faults lines.new)) }
    ensures mark { L.mark lines.new ≡ L.mark lines.old }
{
    match open(alloc, script.nodes(), script.passes()) {
        Ok(opened) => play_on(process, script, context, opened, desk, lines, past),
        Err(AllocError) => Ending::Refused {
            refusal: Refusal::OutOfMemory,
        },
    }
}

/// Opens a list, with all room for a run.
fn open(alloc: Global, nodes: u32, passes: u32) -> Result<Opened, AllocError>
    requires { AreSizes nodes passes }
    ensures { IfOk result (IsOpened nodes passes) }
{
    match ImageList::open(alloc, nodes, passes) {
        Ok((list, writer, all)) => {
            let slots = slots_of(alloc, all)?;
            Ok(Opened {
                list,
                writer,
                slots,
            })
        }
        Err(OpenError::Memory) => Err(AllocError),
        Err(OpenError::BadSize { .. }) => unreachable!(),
    }
}

/// A slot for each pass, in the same order.
fn slots_of(alloc: Global, all: Vec<Pass>) -> Result<Vec<Slot>, AllocError>
    ensures { IfOk result (λ slots. slots.items ≡ map Out all.items) }
{
    let mut rest = all;
    rest.reverse();
    let mut slots = Vec::with_capacity(alloc, rest.len())?;
    while let Some(pass) = rest.pop() {
        slots.push(Slot::Out(pass))?;
    }
    Ok(slots)
}

/// Runs the statements of a script on a list that was opened for it, and ends the script.
fn play_on<P: Process, D: Desk, L: Sink>(
    process: &P,
    script: &Script,
    context: &Context,
    opened: Opened,
    desk: &mut D,
    lines: &mut L,
    past: &mut Option<Writer>,
) -> Ending<'static>
    requires context { P.accepts process.now context.now }
    requires lawful { IsLawful script.now }
    requires opened { IsOpened script.now.nodes script.now.passes opened }
    ensures played { PlayIs
        (meanings (P.image_fault process.now) (P.report process.now context.now)) script.now
        (seen (D.told desk.old) (L.written lines.old) (L.faults lines.old))
        (seen (D.told desk.new) (L.written lines.new) (L.faults lines.new)) past.new result }
    ensures goes_on { GoesOn
        (seen (D.told desk.old) (L.written lines.old) (L.faults lines.old))
        (seen (D.told desk.new) (L.written lines.new) (L.faults lines.new)) }
    ensures mark { L.mark lines.new ≡ L.mark lines.old }
{
    let Opened {
        list,
        writer,
        mut slots,
    } = opened;
    let (writing, result) = run(
        process,
        script,
        context,
        &list,
        Writing::Resting(writer),
        slots.as_mut_slice(),
        desk,
        lines,
    );
    *past = Some(end_script(&list, writing, slots));
    match result {
        Ok(()) => Ending::Done,
        Err(_) => Ending::Stopped,
    }
}
