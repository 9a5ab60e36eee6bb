//! The command `threads CORE SCRIPT...`.
ghost use Rattle.std.specs.Prelude.{◌≡◌, ◌≤◌, All, IfOk, None, length, map, string_bytes};
ghost use Rattle.plcr_command.specs.Endings.{Goes, GoesOn};
ghost use Rattle.plcr_command.specs.Jobs.{IsLawfulJob, texts};
ghost use Rattle.plcr_command.specs.Seen.{seen};
ghost use Rattle.plcr_script.specs.Scripts.{ScriptValue};
ghost use Rattle.plcr_workers.specs.Command.{Threads, ThreadsKept, ThreadsDoes, ThreadsLeave, ThreadsTell, ThreadsRan};
ghost use Rattle.plcr_workers.specs.inner.Own.{HaveOwnLines};
ghost use Rattle.plcr_workers.specs.inner.Stages.{KeptBy, KeptIn, LeavesBy, RunEnds, TellsBy, WholeBy, WholeIn};

use crate::gate::Gate;
use crate::opening::open;
use crate::stage::run_stage;
use plcr_command::{Ending, Job, MOST_SCRIPTS, Modes, Refusal, read_job, refuse, status};
use plcr_imagelist::Writer;
use plcr_io::{Desk, Sink};
use plcr_script::Mode;
use std::alloc::{AllocError, Global};
use std::sync::Wait;
use std::thread::Threads;

/// Scripts that run side by side. The first has the sizes and values of all.
pub const SIDE_BY_SIDE: Modes = Modes {
    first: Mode::Worker { first: true },
    later: Mode::Worker { first: false },
};

/// Runs scripts on a core, each on a worker of its own, over one image list: keeps each report that
/// they ask for, and prints the log. Gives the status: 0 done, 2 a file couldn't be taken, 3 no
/// core, 4 no script, 5 a file not kept or a line not printed, 7 want of memory. All memory is
/// taken before the first output is made. At 0 and 5 it leaves the writer of the image list in
/// `past`, after each pass of that list has met it. It waits for the turn, so it may never return.
pub fn threads_command<R: Threads + Wait + Sync, D: Desk, L: Sink, G: Gate>(
    rt: &R,
    alloc: Global,
    core: &str,
    scripts: &[String],
    desk: &mut D,
    lines: &mut L,
    gate: &G,
    past: &mut Option<Writer>,
) -> u8
where
    D::Out: Send,
    requires scripts { (1 ≤ length scripts.now) × (length scripts.now ≤ MOST_SCRIPTS) }
    requires empty { past.old ≡ None }
    ensures does { ThreadsDoes core.now (map string_bytes scripts.now)
        (seen (D.told desk.old) (L.written lines.old) (L.faults lines.old))
        (seen (D.told desk.new) (L.written lines.new) (L.faults lines.new)) result }
    ensures past { ThreadsLeave core.now (map string_bytes scripts.now)
        (seen (D.told desk.old) (L.written lines.old) (L.faults lines.old))
        (seen (D.told desk.new) (L.written lines.new) (L.faults lines.new)) past.new result }
    ensures journal { ThreadsTell core.now (map string_bytes scripts.now)
        (seen (D.told desk.old) (L.written lines.old) (L.faults lines.old))
        (seen (D.told desk.new) (L.written lines.new) (L.faults lines.new)) past.new result }
    ensures kept { ThreadsKept core.now (map string_bytes scripts.now)
        (seen (D.told desk.old) (L.written lines.old) (L.faults lines.old))
        (seen (D.told desk.new) (L.written lines.new) (L.faults lines.new)) past.new result }
    ensures ran { ThreadsRan core.now (map string_bytes scripts.now)
        (seen (D.told desk.old) (L.written lines.old) (L.faults lines.old))
        (seen (D.told desk.new) (L.written lines.new) (L.faults lines.new)) past.new result }
    ensures mark { L.mark lines.new ≡ L.mark lines.old }
{
    status(threads(rt, alloc, core, scripts, desk, lines, gate, past))
}

/// The same by its ending.
fn threads<'a, R: Threads + Wait + Sync, D: Desk, L: Sink, G: Gate>(
    rt: &R,
    alloc: Global,
    core: &'a str,
    scripts: &'a [String],
    desk: &mut D,
    lines: &mut L,
    gate: &G,
    past: &mut Option<Writer>,
) -> Ending<'a>
where
    D::Out: Send,
    requires scripts { (1 ≤ length scripts.now) × (length scripts.now ≤ MOST_SCRIPTS) }
    requires empty { past.old ≡ None }
    ensures did { Threads core.now (map string_bytes scripts.now)
        (seen (D.told desk.old) (L.written lines.old) (L.faults lines.old))
        (seen (D.told desk.new) (L.written lines.new) (L.faults lines.new)) result }
    ensures leaves { LeavesBy core.now (map string_bytes scripts.now)
        (seen (D.told desk.old) (L.written lines.old) (L.faults lines.old))
        (seen (D.told desk.new) (L.written lines.new) (L.faults lines.new)) past.new result }
    ensures tells { TellsBy core.now (map string_bytes scripts.now)
        (seen (D.told desk.old) (L.written lines.old) (L.faults lines.old))
        (seen (D.told desk.new) (L.written lines.new) (L.faults lines.new)) past.new result }
    ensures kept { KeptIn core.now (map string_bytes scripts.now)
        (seen (D.told desk.old) (L.written lines.old) (L.faults lines.old))
        (seen (D.told desk.new) (L.written lines.new) (L.faults lines.new)) past.new result }
    ensures ran { WholeIn core.now (map string_bytes scripts.now)
        (seen (D.told desk.old) (L.written lines.old) (L.faults lines.old))
        (seen (D.told desk.new) (L.written lines.new) (L.faults lines.new)) past.new result }
    ensures goes { Goes
        (seen (D.told desk.old) (L.written lines.old) (L.faults lines.old))
        (seen (D.told desk.new) (L.written lines.new) (L.faults lines.new)) }
    ensures mark { L.mark lines.new ≡ L.mark lines.old }
{
    match names_of(alloc, scripts) {
        Ok(names) => {
            let lent = names.as_slice();
            threads_named(rt, alloc, core, lent, desk, lines, gate, past)
        }
        Err(AllocError) => Ending::Refused {
            refusal: Refusal::OutOfMemory,
        },
    }
}

/// The names of files, lent.
fn names_of<'a>(alloc: Global, words: &'a [String]) -> Result<Vec<&'a str>, AllocError>
    ensures names { IfOk result (λ names. texts names.items ≡ map string_bytes words.now) }
    ensures count { IfOk result (λ names. length names.items ≡ length words.now) }
{
    let mut names = Vec::with_capacity(alloc, words.len())?;
    for word in words {
        names.push_reserved(word.as_str());
    }
    Ok(names)
}

/// The same by the names.
fn threads_named<'a, R: Threads + Wait + Sync, D: Desk, L: Sink, G: Gate>(
    rt: &R,
    alloc: Global,
    core: &'a str,
    scripts: &[&'a str],
    desk: &mut D,
    lines: &mut L,
    gate: &G,
    past: &mut Option<Writer>,
) -> Ending<'a>
where
    D::Out: Send,
    requires scripts { (1 ≤ length scripts.now) × (length scripts.now ≤ MOST_SCRIPTS) }
    requires empty { past.old ≡ None }
    ensures did { Threads core.now (texts scripts.now)
        (seen (D.told desk.old) (L.written lines.old) (L.faults lines.old))
        (seen (D.told desk.new) (L.written lines.new) (L.faults lines.new)) result }
    ensures leaves { LeavesBy core.now (texts scripts.now)
        (seen (D.told desk.old) (L.written lines.old) (L.faults lines.old))
        (seen (D.told desk.new) (L.written lines.new) (L.faults lines.new)) past.new result }
    ensures tells { TellsBy core.now (texts scripts.now)
        (seen (D.told desk.old) (L.written lines.old) (L.faults lines.old))
        (seen (D.told desk.new) (L.written lines.new) (L.faults lines.new)) past.new result }
    ensures kept { KeptIn core.now (texts scripts.now)
        (seen (D.told desk.old) (L.written lines.old) (L.faults lines.old))
        (seen (D.told desk.new) (L.written lines.new) (L.faults lines.new)) past.new result }
    ensures ran { WholeIn core.now (texts scripts.now)
        (seen (D.told desk.old) (L.written lines.old) (L.faults lines.old))
        (seen (D.told desk.new) (L.written lines.new) (L.faults lines.new)) past.new result }
    ensures goes { Goes
        (seen (D.told desk.old) (L.written lines.old) (L.faults lines.old))
        (seen (D.told desk.new) (L.written lines.new) (L.faults lines.new)) }
    ensures mark { L.mark lines.new ≡ L.mark lines.old }
{
    match read_job(alloc, SIDE_BY_SIDE, core, scripts, desk) {
        Ok(job) => run_job(rt, alloc, job, desk, lines, gate, past),
        Err(refusal) => Ending::Refused {
            refusal: refuse(alloc, refusal, lines),
        },
    }
}

/// Runs the scripts of a job on its core.
fn run_job<R: Threads + Wait + Sync, D: Desk, L: Sink, G: Gate>(
    rt: &R,
    alloc: Global,
    job: Job,
    desk: &mut D,
    lines: &mut L,
    gate: &G,
    past: &mut Option<Writer>,
) -> Ending<'static>
where
    D::Out: Send,
    requires scripts { (1 ≤ length job.scripts) × (length job.scripts ≤ MOST_SCRIPTS) }
    requires lawful { IsLawfulJob job }
    requires apart { All (λ (script : ScriptValue). HaveOwnLines script.statements) job.scripts }
    requires empty { past.old ≡ None }
    ensures ends { RunEnds job
        (seen (D.told desk.old) (L.written lines.old) (L.faults lines.old))
        (seen (D.told desk.new) (L.written lines.new) (L.faults lines.new)) past.new result }
    ensures kept { KeptBy job
        (seen (D.told desk.old) (L.written lines.old) (L.faults lines.old))
        (seen (D.told desk.new) (L.written lines.new) (L.faults lines.new)) past.new result }
    ensures ran { WholeBy job
        (seen (D.told desk.old) (L.written lines.old) (L.faults lines.old))
        (seen (D.told desk.new) (L.written lines.new) (L.faults lines.new)) past.new result }
    ensures goes_on { GoesOn
        (seen (D.told desk.old) (L.written lines.old) (L.faults lines.old))
        (seen (D.told desk.new) (L.written lines.new) (L.faults lines.new)) }
    ensures mark { L.mark lines.new ≡ L.mark lines.old }
{
    let scripts = job.scripts.as_slice();
    match open(rt, alloc, scripts) {
        Ok(stage) => run_stage(rt, &job.core, scripts, stage, desk, lines, gate, past),
        Err(AllocError) => Ending::Refused {
            refusal: Refusal::OutOfMemory,
        },
    }
}
