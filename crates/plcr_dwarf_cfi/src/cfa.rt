//! Definitions of the canonical frame address, and where rows begin (DWARF 4, sections 6.4.2.1 and
//! 6.4.2.2).
ghost use Rattle.std.specs.Prelude.{◌≡◌};
ghost use Rattle.plcr_dwarf_cfi.specs.Rows.{advanced, created, defined, with_offset, with_register};

use crate::entries::CommonInformation;
use crate::fault::CallFrameFault;
use crate::instructions::{CfaDefinition, RowCreation};
use crate::row::{CfaRule, factored};

// The location so many code alignment factors behind another.
fn advanced(common: &CommonInformation, n: u64, location: u64) -> u64
    ensures { result ≡ advanced common.now n location }
{
    location.wrapping_add(factored(n, common.code_alignment_factor))
}

/// The location behind an instruction.
pub fn created(common: &CommonInformation, creation: RowCreation, location: u64) -> u64
    ensures { result ≡ created common.now creation location }
{
    match creation {
        RowCreation::SetLoc(location) => location,
        RowCreation::AdvanceLoc(n) | RowCreation::AdvanceLoc1(n) => {
            advanced(common, u64::from(n), location)
        }
        RowCreation::AdvanceLoc2(n) => advanced(common, u64::from(n), location),
        RowCreation::AdvanceLoc4(n) => advanced(common, u64::from(n), location),
    }
}

// The same offset from another register.
fn with_register(register: u64, cfa: Option<CfaRule>) -> Result<CfaRule, CallFrameFault>
    ensures { result ≡ with_register register cfa }
{
    match cfa {
        Some(CfaRule::RegisterOffset(_, offset)) => Ok(CfaRule::RegisterOffset(register, offset)),
        _ => Err(CallFrameFault::CfaRule),
    }
}

// Another offset from the same register.
fn with_offset(offset: u64, cfa: Option<CfaRule>) -> Result<CfaRule, CallFrameFault>
    ensures { result ≡ with_offset offset cfa }
{
    match cfa {
        Some(CfaRule::RegisterOffset(register, _)) => Ok(CfaRule::RegisterOffset(register, offset)),
        _ => Err(CallFrameFault::CfaRule),
    }
}

/// The rule of the canonical frame address behind an instruction.
pub fn defined(
    common: &CommonInformation,
    definition: CfaDefinition,
    cfa: Option<CfaRule>,
) -> Result<CfaRule, CallFrameFault>
    ensures { result ≡ defined common.now definition cfa }
{
    let factor = common.data_alignment_factor;
    match definition {
        CfaDefinition::DefCfa(register, offset) => Ok(CfaRule::RegisterOffset(register, offset)),
        CfaDefinition::DefCfaSf(register, offset) => {
            Ok(CfaRule::RegisterOffset(register, factored(offset, factor)))
        }
        CfaDefinition::DefCfaRegister(register) => with_register(register, cfa),
        CfaDefinition::DefCfaOffset(offset) => with_offset(offset, cfa),
        CfaDefinition::DefCfaOffsetSf(offset) => with_offset(factored(offset, factor), cfa),
        CfaDefinition::DefCfaExpression(block) => Ok(CfaRule::Expression(block)),
    }
}
