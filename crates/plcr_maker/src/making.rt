//! What is made, in memory.
ghost use Rattle.std.specs.Prelude.{◌≡◌, ◌≤◌, ℕ, Ok, IfSome};
ghost use Rattle.plcr_report.specs.declared.messages.Report.{Report};
ghost use Rattle.plcr_decode.specs.Reads.{reads};
ghost use Rattle.plcr_core.specs.Cores.{AreThreads};
ghost use Rattle.plcr_core.specs.declared.read.Core.{Core};
ghost use Rattle.plcr_script.specs.Lawful.{IsLawful};
ghost use Rattle.plcr_command.specs.Jobs.{IsCore};
ghost use Rattle.plcr_make.specs.declared.constants.TheConstants.{MOST_IMAGES};
ghost use Rattle.plcr_make.specs.Cores.{core_of};
ghost use Rattle.plcr_make.specs.Scripts.{script_of};
ghost use Rattle.plcr_make.specs.MadeScripts.{made_script};
ghost use Rattle.plcr_make.specs.MadeScripts as scripts;
ghost use Rattle.plcr_maker.specs.inner.Making.{AreCounts, IsRun, IsMade};

use crate::counts::{Counts, counts_of};
use crate::runs::{Ran, run_made};
use plcr_command::SCRIPT_LIMIT;
use plcr_core::{Core, read_core};
use plcr_decode::decode;
use plcr_imagelist::Writer;
use plcr_make::{core_bytes, script_bytes};
use plcr_script::{Mode, Script, read_script};
use std::alloc::Global;

/// The bytes of the three files, what the summary tells of the report, and the writer of the list
/// that the script ran on.
#[derive(Drop)]
pub(crate) struct Made {
    pub core: Vec<u8>,
    pub script: Vec<u8>,
    pub report: Vec<u8>,
    pub counts: Counts,
    pub writer: Writer,
}

/// Makes all, for so many images; none where memory is wanting.
pub(crate) fn make(alloc: Global, images: u32) -> Option<Made>
    requires { (1 ≤ images) × (images ≤ MOST_IMAGES) }
    ensures { IfSome result (IsMade images) }
{
    let core = core_in(alloc, images)?;
    let script = script_in(alloc, images)?;
    let ran = ran_of(alloc, &core, &script)?;
    let counts = counts_in(alloc, &ran.report)?;
    let Ran { report, writer } = ran;
    Some(Made {
        core,
        script,
        report,
        counts,
        writer,
    })
}

/// The bytes of the core.
fn core_in(alloc: Global, images: u32) -> Option<Vec<u8>>
    requires { (1 ≤ images) × (images ≤ MOST_IMAGES) }
    ensures { IfSome result (λ bytes. bytes.items ≡ core_of images) }
{
    match core_bytes(alloc, images) {
        Ok(bytes) => Some(bytes),
        Err(_) => None,
    }
}

/// The bytes of the script.
fn script_in(alloc: Global, images: u32) -> Option<Vec<u8>>
    requires { images ≤ MOST_IMAGES }
    ensures { IfSome result (λ bytes. bytes.items ≡ script_of images) }
{
    match script_bytes(alloc, images) {
        Ok(bytes) => Some(bytes),
        Err(_) => None,
    }
}

/// The counts of the report that these bytes spell; none where they spell none.
fn counts_in(alloc: Global, bytes: &[u8]) -> Option<Counts>
    ensures { IfSome result (λ counts.
        (report : Report) × (reads bytes.now ≡ Ok report) × AreCounts report counts) }
{
    match decode(alloc, bytes) {
        Ok(report) => counts_of(&report),
        Err(_) => None,
    }
}

/// The run of a made script on a made core.
fn ran_of(alloc: Global, core: &[u8], script: &[u8]) -> Option<Ran>
    ensures { IfSome result (λ ran. (images : ℕ) → images ≤ MOST_IMAGES →
        script.now ≡ script_of images →
        (value : Core) × IsCore core.now value × IsRun value (made_script images) ran) }
{
    let core = made_core(alloc, core)?;
    let script = made_script(alloc, script)?;
    run_made(alloc, &core, &script)
}

/// The core of these bytes, which are copied.
fn made_core(alloc: Global, bytes: &[u8]) -> Option<Core>
    ensures core { IfSome result (IsCore bytes.now) }
    ensures threads { IfSome result (λ core. AreThreads core.arch core.threads) }
{
    let Ok(bytes) = Vec::from_slice(alloc, bytes) else {
        return None;
    };
    match read_core(alloc, bytes) {
        Ok(core) => Some(core),
        Err(_) => None,
    }
}

/// The script of these bytes.
fn made_script(alloc: Global, bytes: &[u8]) -> Option<Script>
    ensures is { IfSome result (λ script. (images : ℕ) → images ≤ MOST_IMAGES →
        bytes.now ≡ script_of images → script ≡ scripts.made_script images) }
    ensures lawful { IfSome result IsLawful }
{
    if bytes.len() as u64 > SCRIPT_LIMIT {
        return None;
    }
    match read_script(alloc, bytes, Mode::Single, &[]) {
        Ok(script) => Some(script),
        Err(_) => None,
    }
}
