//! The run of the script that is made, on the core that is made.
ghost use Rattle.std.specs.Prelude.{◌≡◌, [], Some, IfSome};
ghost use Rattle.plcr_core.specs.Cores.{AreThreads};
ghost use Rattle.plcr_io.specs.MemDesk.{contents, file_now};
ghost use Rattle.plcr_script.specs.Lawful.{IsLawful};
ghost use Rattle.plcr_make.specs.Scripts.{report_name};
ghost use Rattle.plcr_maker.specs.inner.Making.{IsRun};

use crate::ignored::Ignored;
use plcr_command::{CoreProcess, Ending};
use plcr_core::Core;
use plcr_imagelist::Writer;
use plcr_io::{MemDesk, MemOut};
use plcr_make::MADE_REPORT;
use plcr_run::play;
use plcr_script::Script;
use std::alloc::Global;

/// Room for the report.
const REPORT_ROOM: usize = 1_048_576;

/// The bytes of the one report of a run, and the writer of its list.
#[derive(Drop)]
pub(crate) struct Ran {
    pub report: Vec<u8>,
    pub writer: Writer,
}

/// Runs a script that keeps one report, in memory; none where memory is wanting, or the room for
/// the report.
pub(crate) fn run_made(alloc: Global, core: &Core, script: &Script) -> Option<Ran>
    requires threads { AreThreads core.now.arch core.now.threads }
    requires script { IsLawful script.now }
    ensures { IfSome result (IsRun core.now script.now) }
{
    let mut desk = desk_of(alloc)?;
    let mut past = None;
    let process = CoreProcess { core };
    let context = script.context(core.arch);
    let ending = play(
        alloc,
        &process,
        script,
        &context,
        &mut desk,
        &mut Ignored,
        &mut past,
    );
    let Ending::Done = ending else {
        return None;
    };
    let writer = past?;
    let report = report_in(alloc, &desk)?;
    Some(Ran { report, writer })
}

/// The report that a desk has kept.
fn report_in(alloc: Global, desk: &MemDesk) -> Option<Vec<u8>>
    ensures { IfSome result (λ bytes.
        file_now (contents desk.now) report_name ≡ Some bytes.items) }
{
    let bytes = desk.file(MADE_REPORT)?;
    match bytes.to_vec(alloc) {
        Ok(report) => Some(report),
        Err(_) => None,
    }
}

/// A desk in memory for one report.
fn desk_of(alloc: Global) -> Option<MemDesk>
    ensures files { IfSome result (λ desk. (contents desk).files ≡ []) }
    ensures kept { IfSome result (λ desk. (contents desk).kept ≡ []) }
{
    let out = MemOut::new(alloc, REPORT_ROOM, REPORT_ROOM, Vec::new(alloc)).ok()?;
    let mut outs = Vec::new(alloc);
    outs.push(out).ok()?;
    MemDesk::new(alloc, Vec::new(alloc), outs, Vec::new(alloc)).ok()
}
