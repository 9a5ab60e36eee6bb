//! A core and the scripts that are run on it, taken and read.
ghost use Rattle.std.specs.Prelude.{◌≡◌, ◌+◌, ◌<◌, ◌≤◌, ◌^◌, ◌∷◌, All, List, ℕ, length, map, MatchResult, IfOk, Ok, vec_len};
ghost use Rattle.plcr_base.specs.Bytes.{IsBytes};
ghost use Rattle.plcr_core.specs.Cores.{AreThreads};
ghost use Rattle.plcr_script.specs.Lawful.{IsLawful};
ghost use Rattle.plcr_script.specs.Reading.{script_in};
ghost use Rattle.plcr_command.specs.Files as spec;
ghost use Rattle.plcr_command.specs.Taking.{MadeNothing, TookAll, Untaken};
ghost use Rattle.plcr_command.specs.Refusals.{IsRead, Refuses};
ghost use Rattle.plcr_command.specs.Jobs.{IsCore, IsJob, IsLawfulJob, JobMisread, ScriptsMisread, job_files, scripts_in, texts};
ghost use Rattle.plcr_command.specs.inner.Jobs.{CoreMisread, ScriptMisread};

use crate::files::{core_file, script_file};
use crate::limits::MOST_SCRIPTS;
use crate::refusals::Refusal;
use crate::taking::take_file;
use plcr_base::{Bytes, Rows};
use plcr_core::{Core, CoreFault, read_core};
use plcr_io::Desk;
use plcr_script::{Mode, Script, ScriptFault, read_script};
use std::alloc::Global;

/// A core, and the scripts that are run on it.
#[derive(Drop)]
pub struct Job {
    pub core: Core,
    pub scripts: Rows<Script>,
}

/// What scripts are read for: the first of them, and those behind it.
#[derive(Clone, Copy, Debug)]
pub struct Modes {
    pub first: Mode,
    pub later: Mode,
}

/// The bytes of a core and of scripts.
#[derive(Drop)]
struct JobFiles {
    core: Bytes,
    scripts: Vec<Bytes>,
}

/// Takes and reads a core and scripts: first all are taken, in this order, then the core is read,
/// and then the scripts, each behind those before it.
///
/// # Errors
///
/// The first refusal in that order; `OutOfMemory` may come at any time.
pub fn read_job<'a, D: Desk>(
    alloc: Global,
    modes: Modes,
    core: &'a str,
    scripts: &[&'a str],
    desk: &mut D,
) -> Result<Job, Refusal<'a>>
    requires { length scripts.now ≤ MOST_SCRIPTS }
    ensures read { MatchResult result
        (IsRead (IsJob modes) (job_files core.now (texts scripts.now)) (D.told desk.old)
        (D.told desk.new))
        (Refuses (JobMisread modes) (job_files core.now (texts scripts.now)) (D.told desk.old)
        (D.told desk.new)) }
    ensures count { IfOk result (λ job. length job.scripts ≡ length scripts.now) }
    ensures lawful { IfOk result IsLawfulJob }
    ensures nothing { MadeNothing (D.told desk.old) (D.told desk.new) }
{
    let files = take_job(alloc, core, scripts, desk)?;
    job_of(alloc, modes, files)
}

/// Takes the core and then the scripts.
fn take_job<'a, D: Desk>(
    alloc: Global,
    core: &'a str,
    scripts: &[&'a str],
    desk: &mut D,
) -> Result<JobFiles, Refusal<'a>>
    ensures taken { MatchResult result
        (λ files. TookAll (job_files core.now (texts scripts.now))
        (files.core ∷ files.scripts.items) (D.told desk.old) (D.told desk.new))
        (Untaken (job_files core.now (texts scripts.now)) (D.told desk.old) (D.told desk.new)) }
    ensures count { IfOk result (λ files. vec_len files.scripts ≡ length scripts.now) }
    ensures short { IfOk result
        (λ files. All (λ (bytes : List ℕ). length bytes < 2 ^ 32) files.scripts.items) }
    ensures nothing { MadeNothing (D.told desk.old) (D.told desk.new) }
{
    let core = take_file(alloc, core_file(core), desk)?;
    let scripts = take_scripts(alloc, scripts, desk)?;
    Ok(JobFiles { core, scripts })
}

/// Takes the scripts.
fn take_scripts<'a, D: Desk>(
    alloc: Global,
    scripts: &[&'a str],
    desk: &mut D,
) -> Result<Vec<Bytes>, Refusal<'a>>
    ensures taken { MatchResult result
        (λ taken. TookAll (map spec.script_file (texts scripts.now)) taken.items (D.told desk.old)
        (D.told desk.new))
        (Untaken (map spec.script_file (texts scripts.now)) (D.told desk.old) (D.told desk.new)) }
    ensures count { IfOk result (λ taken. vec_len taken ≡ length scripts.now) }
    ensures short { IfOk result
        (λ taken. All (λ (bytes : List ℕ). length bytes < 2 ^ 32) taken.items) }
    ensures nothing { MadeNothing (D.told desk.old) (D.told desk.new) }
{
    let mut taken = Vec::new(alloc);
    for script in scripts {
        let bytes = take_file(alloc, script_file(script), desk)?;
        taken.push(bytes)?;
    }
    Ok(taken)
}

/// Reads the core and then the scripts.
fn job_of<'a>(alloc: Global, modes: Modes, files: JobFiles) -> Result<Job, Refusal<'a>>
    requires few { vec_len files.scripts ≤ MOST_SCRIPTS }
    requires short { All (λ (bytes : List ℕ). length bytes < 2 ^ 32) files.scripts.items }
    ensures read { MatchResult result
        (IsJob modes (files.core ∷ files.scripts.items))
        (JobMisread modes (files.core ∷ files.scripts.items)) }
    ensures count { IfOk result (λ job. length job.scripts ≡ vec_len files.scripts) }
    ensures lawful { IfOk result IsLawfulJob }
{
    let JobFiles { core, scripts } = files;
    let core = core_of(alloc, core)?;
    let scripts = scripts_of(alloc, modes, scripts.as_slice())?;
    Ok(Job { core, scripts })
}

/// The core that the bytes are.
fn core_of<'a>(alloc: Global, bytes: Bytes) -> Result<Core, Refusal<'a>>
    ensures read { MatchResult result (IsCore bytes) (CoreMisread bytes) }
    ensures threads { IfOk result (λ core. AreThreads core.arch core.threads) }
    ensures bytes { IfOk result (λ core. IsBytes core.memory.file) }
{
    let bytes = bytes.into_vec();
    match read_core(alloc, bytes) {
        Ok(core) => Ok(core),
        Err(CoreFault::Memory) => Err(Refusal::OutOfMemory),
        Err(fault) => Err(Refusal::CoreRefused { fault }),
    }
}

/// The scripts that the bytes are.
fn scripts_of<'a>(
    alloc: Global,
    modes: Modes,
    contents: &[Bytes],
) -> Result<Rows<Script>, Refusal<'a>>
    requires few { length contents.now ≤ MOST_SCRIPTS }
    requires short { All (λ (bytes : List ℕ). length bytes < 2 ^ 32) contents.now }
    ensures read { MatchResult result (λ scripts. scripts_in modes contents.now ≡ Ok scripts)
        (ScriptsMisread modes contents.now) }
    ensures count { IfOk result (λ scripts. length scripts ≡ length contents.now) }
    ensures lawful { IfOk result (λ scripts. All IsLawful scripts) }
{
    let mut scripts = Vec::new(alloc);
    let mut mode = modes.first;
    for bytes in contents {
        let script = script_of(alloc, mode, scripts.as_slice(), bytes.as_slice())?;
        scripts.push(script)?;
        mode = modes.later;
    }
    Ok(Rows::new(scripts))
}

/// The script that the bytes are, behind these.
fn script_of<'a>(
    alloc: Global,
    mode: Mode,
    before: &[Script],
    bytes: &[u8],
) -> Result<Script, Refusal<'a>>
    requires few { length before.now < MOST_SCRIPTS }
    requires short { length bytes.now < 2 ^ 32 }
    ensures read { MatchResult result
        (λ script. script_in mode before.now bytes.now ≡ Ok script)
        (ScriptMisread (length before.now + 1) mode before.now bytes.now) }
    ensures lawful { IfOk result IsLawful }
{
    match read_script(alloc, bytes, mode, before) {
        Ok(script) => Ok(script),
        Err(ScriptFault::Memory) => Err(Refusal::OutOfMemory),
        Err(ScriptFault::Refused { line, kind }) => Err(Refusal::ScriptRefused {
            script: before.len() as u32 + 1,
            line,
            kind,
        }),
    }
}
