//! The command `report CORE SCRIPT`.
ghost use Rattle.std.specs.Prelude.{◌≡◌, [], ◌∷◌, None, length};
ghost use Rattle.plcr_command.specs.Seen.{seen};
ghost use Rattle.plcr_command.specs.Jobs.{IsLawfulJob};
ghost use Rattle.plcr_command.specs.Endings.{Goes, GoesOn};
ghost use Rattle.plcr_tool.specs.Headline.{ReportsTellTruly};
ghost use Rattle.plcr_tool.specs.Past.{ReportLeaves};
ghost use Rattle.plcr_tool.specs.Report.{ReportDoes, Reports};
ghost use Rattle.plcr_tool.specs.inner.Report.{Leaves, RunEnds, TrulyBy};

use plcr_command::{CoreProcess, Ending, Job, Modes, read_job, refuse, status};
use plcr_imagelist::Writer;
use plcr_io::{Desk, Sink};
use plcr_run::play;
use plcr_script::{Mode, Script};
use std::alloc::Global;

/// A script that runs by itself.
const ALONE: Modes = Modes {
    first: Mode::Single,
    later: Mode::Single,
};

/// Runs a script on a core: keeps each report that it asks for, and prints the log. Gives the
/// status: 0 done, 2 a file couldn't be taken, 3 no core, 4 no script, 5 a file not kept or a line
/// not printed, 7 want of memory. All memory is taken before the first output is made and the first
/// line printed. At 0 and 5 it leaves the writer of the image list that it opened in `past`, after
/// each pass of that list has met it.
pub fn report_command<D: Desk, L: Sink>(
    alloc: Global,
    core: &str,
    script: &str,
    desk: &mut D,
    lines: &mut L,
    past: &mut Option<Writer>,
) -> u8
    requires { past.old ≡ None }
    ensures does { ReportDoes core.now script.now
        (seen (D.told desk.old) (L.written lines.old) (L.faults lines.old))
        (seen (D.told desk.new) (L.written lines.new) (L.faults lines.new)) result }
    ensures past { ReportLeaves core.now script.now
        (seen (D.told desk.old) (L.written lines.old) (L.faults lines.old))
        (seen (D.told desk.new) (L.written lines.new) (L.faults lines.new)) past.new result }
    ensures headline { ReportsTellTruly core.now script.now
        (seen (D.told desk.old) (L.written lines.old) (L.faults lines.old))
        (seen (D.told desk.new) (L.written lines.new) (L.faults lines.new)) past.new result }
    ensures mark { L.mark lines.new ≡ L.mark lines.old }
{
    status(report(alloc, core, script, desk, lines, past))
}

fn report<'a, D: Desk, L: Sink>(
    alloc: Global,
    core: &'a str,
    script: &'a str,
    desk: &mut D,
    lines: &mut L,
    past: &mut Option<Writer>,
) -> Ending<'a>
    requires { past.old ≡ None }
    ensures did { Reports core.now script.now
        (seen (D.told desk.old) (L.written lines.old) (L.faults lines.old))
        (seen (D.told desk.new) (L.written lines.new) (L.faults lines.new)) result }
    ensures leaves { Leaves core.now script.now
        (seen (D.told desk.old) (L.written lines.old) (L.faults lines.old))
        (seen (D.told desk.new) (L.written lines.new) (L.faults lines.new)) past.new result }
    ensures truly { TrulyBy core.now script.now
        (seen (D.told desk.old) (L.written lines.old) (L.faults lines.old))
        (seen (D.told desk.new) (L.written lines.new) (L.faults lines.new)) past.new result }
    ensures goes { Goes
        (seen (D.told desk.old) (L.written lines.old) (L.faults lines.old))
        (seen (D.told desk.new) (L.written lines.new) (L.faults lines.new)) }
    ensures mark { L.mark lines.new ≡ L.mark lines.old }
{
    match read_job(alloc, ALONE, core, &[script], desk) {
        Ok(job) => run_job(alloc, job, desk, lines, past),
        Err(refusal) => Ending::Refused {
            refusal: refuse(alloc, refusal, lines),
        },
    }
}

/// Runs the script of a job on its core.
fn run_job<D: Desk, L: Sink>(
    alloc: Global,
    job: Job,
    desk: &mut D,
    lines: &mut L,
    past: &mut Option<Writer>,
) -> Ending<'static>
    requires alone { length job.scripts ≡ 1 }
    requires lawful { IsLawfulJob job }
    requires empty { past.old ≡ None }
    ensures ends { RunEnds job
        (seen (D.told desk.old) (L.written lines.old) (L.faults lines.old))
        (seen (D.told desk.new) (L.written lines.new) (L.faults lines.new)) past.new result }
    ensures goes_on { GoesOn
        (seen (D.told desk.old) (L.written lines.old) (L.faults lines.old))
        (seen (D.told desk.new) (L.written lines.new) (L.faults lines.new)) }
    ensures mark { L.mark lines.new ≡ L.mark lines.old }
{
    let process = CoreProcess { core: &job.core };
    let script = script_of(&job);
    let context = script.context(job.core.arch);
    play(alloc, &process, script, &context, desk, lines, past)
}

/// The one script of a job.
fn script_of(job: &Job) -> &Script
    requires { length job.now.scripts ≡ 1 }
    ensures { job.now.scripts ≡ result.now ∷ [] }
{
    match job.scripts.as_slice() {
        [script] => script,
        _ => unreachable!(),
    }
}
