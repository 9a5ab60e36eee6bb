//! Reads the file of a report.
ghost use Rattle.std.specs.Prelude.{◌≡◌, ◌≢◌, ◌≤◌, [], length, IfOk, IfErr, IsOk, Ok, Err};
ghost use Rattle.plcr_wire.specs.Reading.{Returns};
ghost use Rattle.plcr_decode.specs.Reads as spec;
ghost use Rattle.plcr_decode.specs.Reads.{reads};

use crate::checking::check_root;
use crate::faults::DecodeFault;
use crate::nodes::build_report;
use plcr_report::{MAGIC, Report, VERSION};
use std::alloc::Global;

/// What stands behind this text and the version.
fn behind<'a>(text: &[u8], bytes: &'a [u8], at: usize) -> Result<&'a [u8], DecodeFault>
    ensures reads { Returns (λ rest. rest.now) result (spec.behind text.now at bytes.now) }
    ensures shorter { IfOk result (λ rest. length rest.now ≤ length bytes.now) }
    ensures real { IfErr result (λ e. e ≢ DecodeFault.Memory) }
{
    let Some((first, text)) = text.split_first() else {
        return versioned(bytes, at);
    };
    let Some((byte, rest)) = bytes.split_first() else {
        return Err(DecodeFault::Magic);
    };
    if *byte != *first {
        return Err(DecodeFault::Magic);
    }
    behind(text, rest, at)
}

/// What stands behind the version.
fn versioned(bytes: &[u8], at: usize) -> Result<&[u8], DecodeFault>
    ensures reads { Returns (λ rest. rest.now) result (spec.behind [] at bytes.now) }
    ensures shorter { IfOk result (λ rest. length rest.now ≤ length bytes.now) }
    ensures real { IfErr result (λ e. e ≢ DecodeFault.Memory) }
{
    let Some((version, rest)) = bytes.split_first() else {
        return Err(DecodeFault::Truncated { at });
    };
    if *version != VERSION {
        return Err(DecodeFault::Version { found: *version });
    }
    Ok(rest)
}

/// The root message of a file.
#[tactic(auto, unfolding(crate::specs::Reads::root_of))]
fn root_of(bytes: &[u8]) -> Result<&[u8], DecodeFault>
    ensures reads { Returns (λ rest. rest.now) result (spec.root_of bytes.now) }
    ensures shorter { IfOk result (λ rest. length rest.now ≤ length bytes.now) }
    ensures real { IfErr result (λ e. e ≢ DecodeFault.Memory) }
{
    behind(&MAGIC, bytes, bytes.len())
}

/// The report that a file spells.
///
/// # Errors
///
/// The first fault of the file, in reading order: its beginning, then its fields, each submessage
/// where it stands, and then the fields that a message has to have. `Memory` comes only where the
/// file spells a report.
#[tactic(auto, unfolding(crate::specs::Reads::reads))]
pub fn decode(alloc: Global, bytes: &[u8]) -> Result<Report, DecodeFault>
    ensures report { IfOk result (λ report. reads bytes.now ≡ Ok report) }
    ensures fault { IfErr result (λ e. e ≢ DecodeFault.Memory → reads bytes.now ≡ Err e) }
    ensures memory { IfErr result (λ e. e ≡ DecodeFault.Memory → IsOk (reads bytes.now)) }
{
    let root = root_of(bytes)?;
    let found = check_root(root, bytes.len())?;
    build_report(alloc, root, &found).map_err(|_| DecodeFault::Memory)
}
