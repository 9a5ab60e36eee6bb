//! The command `make N CORE SCRIPT`.
ghost use Rattle.std.specs.Prelude.{◌≡◌, ◌≤◌, None};
ghost use Rattle.plcr_command.specs.Seen.{seen};
ghost use Rattle.plcr_command.specs.Endings.{Goes};
ghost use Rattle.plcr_command.specs.Endings.{GoesOn};
ghost use Rattle.plcr_make.specs.declared.constants.TheConstants.{MOST_IMAGES};
ghost use Rattle.plcr_maker.specs.Make.{MakeDoes, MakeLeaves, Makes};
ghost use Rattle.plcr_maker.specs.inner.Handing.{HandsOut, LeavesBy};
ghost use Rattle.plcr_maker.specs.inner.Making.{files_of, line_of};

use crate::making::{Made, make};
use crate::saving::save_all;
use plcr_command::{Ending, Refusal, Unsaved, status};
use plcr_imagelist::Writer;
use plcr_io::{Desk, PutFailed, Sink};
use plcr_make::write_summary;
use std::alloc::Global;

/// Makes a core and a script of so many images, and a report by them; keeps the three, and prints a
/// line of the report. Gives the status: 0 done, 5 a file not kept or the line not printed whole, 7
/// want of memory. It takes no file. All memory is taken before the first output is made. At 0 and
/// 5 it leaves the writer of the image list that the script ran on in `past`, after each pass of
/// that list has met it.
pub fn make_command<D: Desk, L: Sink>(
    alloc: Global,
    n: u32,
    core: &str,
    script: &str,
    desk: &mut D,
    lines: &mut L,
    past: &mut Option<Writer>,
) -> u8
    requires images { (1 ≤ n) × (n ≤ MOST_IMAGES) }
    requires empty { past.old ≡ None }
    ensures does { MakeDoes n core.now script.now
        (seen (D.told desk.old) (L.written lines.old) (L.faults lines.old))
        (seen (D.told desk.new) (L.written lines.new) (L.faults lines.new)) result }
    ensures past { MakeLeaves n past.new result }
    ensures mark { L.mark lines.new ≡ L.mark lines.old }
{
    status(made(alloc, n, core, script, desk, lines, past))
}

fn made<D: Desk, L: Sink>(
    alloc: Global,
    n: u32,
    core: &str,
    script: &str,
    desk: &mut D,
    lines: &mut L,
    past: &mut Option<Writer>,
) -> Ending<'static>
    requires images { (1 ≤ n) × (n ≤ MOST_IMAGES) }
    requires empty { past.old ≡ None }
    ensures did { Makes n core.now script.now
        (seen (D.told desk.old) (L.written lines.old) (L.faults lines.old))
        (seen (D.told desk.new) (L.written lines.new) (L.faults lines.new)) result }
    ensures leaves { LeavesBy n past.new result }
    ensures goes { Goes
        (seen (D.told desk.old) (L.written lines.old) (L.faults lines.old))
        (seen (D.told desk.new) (L.written lines.new) (L.faults lines.new)) }
    ensures mark { L.mark lines.new ≡ L.mark lines.old }
{
    match make(alloc, n) {
        None => Ending::Refused {
            refusal: Refusal::OutOfMemory,
        },
        Some(made) => {
            let ending = hand_out(&made, core, script, desk, lines);
            let Made {
                core: _,
                script: _,
                report: _,
                counts: _,
                writer,
            } = made;
            *past = Some(writer);
            ending
        }
    }
}

/// Keeps what was made, and prints the line of the report.
fn hand_out<D: Desk, L: Sink>(
    made: &Made,
    core: &str,
    script: &str,
    desk: &mut D,
    lines: &mut L,
) -> Ending<'static>
    ensures hands { HandsOut (files_of core.now script.now made.now) (line_of made.now)
        (seen (D.told desk.old) (L.written lines.old) (L.faults lines.old))
        (seen (D.told desk.new) (L.written lines.new) (L.faults lines.new)) result }
    ensures goes_on { GoesOn
        (seen (D.told desk.old) (L.written lines.old) (L.faults lines.old))
        (seen (D.told desk.new) (L.written lines.new) (L.faults lines.new)) }
    ensures mark { L.mark lines.new ≡ L.mark lines.old }
{
    match save_all(made, core, script, desk, lines) {
        Err(Unsaved) => Ending::Stopped,
        Ok(()) => {
            let counts = &made.counts;
            let bytes = made.report.len() as u64;
            match write_summary(counts.images, counts.threads, counts.frames, bytes, lines) {
                Ok(()) => Ending::Done,
                Err(PutFailed) => Ending::Stopped,
            }
        }
    }
}
