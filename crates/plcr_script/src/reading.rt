//! A script is read from its bytes.
ghost use Rattle.std.specs.Prelude.{◌≡◌, ◌<◌, ◌^◌, ℕ, false, length, IfOk, OnOk, IfErr, Ok};
ghost use Rattle.plcr_script.specs.Refusals.{refused_at};
ghost use Rattle.plcr_script.specs.Splits.{lines};
ghost use Rattle.plcr_script.specs.Reading as reading;
ghost use Rattle.plcr_script.specs.Reading.{no_lines, passes_of, with_said, with_line, with_lines, script_in, Tells, IsAnswer};
ghost use Rattle.plcr_script.specs.inner.Names.{IsIndexOf};
ghost use Rattle.plcr_script.specs.inner.Wording.{stated, said};
ghost use Rattle.plcr_script.specs.inner.Fits.{IsFit, IsLawfulDraft};
ghost use Rattle.plcr_script.specs.Places.{HasPass};
ghost use Rattle.plcr_script.specs.Sayings.{States};
ghost use Rattle.plcr_script.specs.Lawful.{IsLawful};

use crate::drafts::Draft;
use crate::faults::{Kind, ScriptFault, refused};
use crate::modes::Mode;
use crate::names::Index;
use crate::scripts::Script;
use crate::splitting::first_line;
use crate::stating::Stating;
use crate::wording::{Wording, says_nothing, wording_of};
use std::alloc::{AllocError, Global};

/// Reads a script. `before` are the scripts read before it for the same run.
///
/// # Errors
///
/// `Refused` has the first refused line, from 1, and what is wrong with it. `Memory` is want of
/// memory.
#[tactic(auto, unfolding(crate::specs::Reading::script_in))]
pub fn read_script(
    alloc: Global,
    bytes: &[u8],
    mode: Mode,
    before: &[Script],
) -> Result<Script, ScriptFault>
    requires { length bytes.now < 2 ^ 32 }
    ensures exact { IsAnswer result (script_in mode before.now bytes.now) }
    ensures lawful { IfOk result IsLawful }
{
    match read_lines(alloc, bytes, mode, before) {
        Ok(draft) => Ok(draft.finish()),
        Err(fault) => Err(fault),
    }
}

/// What the lines of a script make.
fn read_lines<'a>(
    alloc: Global,
    bytes: &'a [u8],
    mode: Mode,
    before: &'a [Script],
) -> Result<Draft<'a>, ScriptFault>
    requires { length bytes.now < 2 ^ 32 }
    ensures read { IfOk result (λ draft. with_lines (no_lines mode before.now) 1 (lines bytes.now)
        ≡ Ok draft) }
    ensures refused { IfErr result
        (λ fault. Tells fault (with_lines (no_lines mode before.now) 1 (lines bytes.now))) }
    ensures lawful { IfOk result (λ draft. IsLawful draft.script) }
{
    let mut draft = Draft::new(alloc, mode, before)?;
    let mut index = Index::new(alloc, before)?;
    let mut rest = bytes;
    let mut number: u64 = 1;
    while !rest.is_empty() {
        let (line, after) = first_line(rest);
        add_line(alloc, &mut draft, &mut index, number as u32, line)?;
        number += 1;
        rest = after;
    }
    Ok(draft)
}

/// Adds what a line says, if anything.
fn add_line<'a>(
    alloc: Global,
    draft: &mut Draft<'a>,
    index: &mut Index<'a>,
    number: u32,
    line: &'a [u8],
) -> Result<(), ScriptFault>
    requires index { IsIndexOf index.old draft.old }
    requires lawful { IsLawfulDraft draft.old }
    requires short { length line.now < 2 ^ 32 }
    ensures added { OnOk result (with_line draft.old number line.now ≡ Ok draft.new) }
    ensures index { OnOk result (IsIndexOf index.new draft.new) }
    ensures lawful { OnOk result (IsLawfulDraft draft.new) }
    ensures refused { IfErr result
        (λ fault. Tells fault (refused_at number (with_line draft.old number line.now))) }
{
    if says_nothing(line) {
        return Ok(());
    }
    let wording = match wording_of(draft.passes(), line) {
        Ok(wording) => wording,
        Err(kind) => return Err(refused(number, kind)),
    };
    if is_out_of_place(draft, index, wording)? {
        return Err(refused(number, Kind::OutOfPlace));
    }
    draft.add(alloc, number, wording)?;
    Ok(())
}

/// Whether this may not be said behind the lines so far. Where it may, the index is that of the
/// lines with it.
fn is_out_of_place<'a>(
    draft: &Draft<'a>,
    index: &mut Index<'a>,
    wording: Wording<'a>,
) -> Result<bool, AllocError>
    requires index { IsIndexOf index.old draft.now }
    requires lawful { IsLawful draft.now.script }
    requires fits { IsFit (passes_of draft.now.mode draft.now.script.passes) (said wording) }
    ensures out { IfOk result
        (λ out. out ≡ reading.is_out_of_place draft.now (said wording.entry)) }
    ensures index { IfOk result (λ out. out ≡ false → (line : ℕ) →
        IsIndexOf index.new (with_said draft.now line (said wording.entry))) }
{
    match wording {
        Wording::Sizes {
            nodes: _,
            passes: _,
        } => Ok(draft.is_sized()),
        Wording::Number { key: _, number: _ } => Ok(draft.is_set()),
        Wording::Words { key: _, text: _ } => Ok(draft.is_set()),
        Wording::States(stating) => is_misplaced(draft, index, stating),
    }
}

/// Whether a statement may not stand behind the lines so far. Where it may, the index is that of
/// the lines with it.
fn is_misplaced<'a>(
    draft: &Draft<'a>,
    index: &mut Index<'a>,
    stating: Stating<'a>,
) -> Result<bool, AllocError>
    requires index { IsIndexOf index.old draft.now }
    requires lawful { IsLawful draft.now.script }
    requires fits { HasPass (passes_of draft.now.mode draft.now.script.passes) (stated stating) }
    ensures out { IfOk result
        (λ out. out ≡ reading.is_out_of_place draft.now (States (stated stating.entry))) }
    ensures index { IfOk result (λ out. out ≡ false → (line : ℕ) →
        IsIndexOf index.new (with_said draft.now line (States (stated stating.entry)))) }
{
    match stating {
        Stating::Load { header: _, name: _ } => Ok(false),
        Stating::Unload { header: _ } => Ok(false),
        Stating::BeginLoad { header: _, name: _ } => Ok(draft.is_worker()),
        Stating::BeginUnload { header: _ } => Ok(draft.is_worker()),
        Stating::Step { most: _ } => Ok(draft.is_worker()),
        Stating::End => Ok(draft.is_worker()),
        Stating::Enter { pass } => Ok(index.replace(pass, true)),
        Stating::Walk { pass, most: _ } => Ok(!index.is_in(pass)),
        Stating::Leave { pass } => Ok(!index.replace(pass, false)),
        Stating::Report { pass, file } => {
            index.replace(pass, false);
            Ok(!index.add(file)?)
        }
    }
}
