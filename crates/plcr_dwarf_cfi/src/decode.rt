//! The instructions that bytes spell (DWARF 4, sections 6.4.2 and 7.23).
ghost use Rattle.std.specs.Prelude.{◌≡◌, ◌+◌, ◌<◌, ◌^◌, OnOk, IfOk};
ghost use Rattle.plcr_dwarf_cfi.specs.Instructions.{among_or, block_read, cfa_rows, expression_rows, extended_reading, instruction_at, instruction_before, offset_rows, other_rows, register_rows, unknown};
ghost use Rattle.plcr_dwarf_cfi.specs.inner.Settings.{section};

use crate::entries::Encoding;
use crate::fault::CallFrameFault;
use crate::instructions::{
    Block, CfaDefinition, Instruction, RowCreation, RowState, RuleDefinition,
};
use crate::opcodes::*;
use crate::pointers::pointer_at;
use crate::sections::{Surroundings, byte, four_bytes, signed, two_bytes, unsigned};
use plcr_leb128::Cells;

/// An instruction, and the place behind its operands.
#[derive(Clone, Copy)]
pub struct Decoded {
    pub instruction: Instruction,
    pub next: u64,
}

impl Instruction {
    // The instruction with the place behind its operands.
    fn until(self, next: u64) -> Decoded
        ensures instruction { result.instruction ≡ self }
        ensures next { result.next ≡ next }
    {
        Decoded {
            instruction: self,
            next,
        }
    }
}

// The block at a place, and the place behind it.
fn block_at<C: Cells>(
    cells: &C,
    around: &Surroundings<'_>,
    at: u64,
) -> Result<(Block, u64), CallFrameFault>
    ensures { result ≡ block_read (section (C.cells cells.now) around.now) at }
{
    let size = unsigned(cells, at)?;
    if !cells.has(size.next, size.value) {
        return Err(CallFrameFault::Truncated);
    }
    let block = Block {
        at: around.at.wrapping_add(size.next),
        size: size.value,
    };
    Ok((block, size.next + size.value))
}

// An instruction that needs no row, or of rows that are remembered.
fn other<C: Cells>(
    cells: &C,
    around: &Surroundings<'_>,
    encoding: Encoding,
    opcode: u8,
    at: u64,
) -> Result<Decoded, CallFrameFault>
    ensures { result ≡ among_or opcode other_rows unknown (section (C.cells cells.now) around.now)
        encoding at }
{
    match opcode {
        DW_CFA_remember_state => Ok(Instruction::State(RowState::RememberState).until(at)),
        DW_CFA_restore_state => Ok(Instruction::State(RowState::RestoreState).until(at)),
        DW_CFA_nop => Ok(Instruction::Nop.until(at)),
        DW_CFA_GNU_args_size => {
            let size = unsigned(cells, at)?;
            Ok(Instruction::GnuArgsSize(size.value).until(size.next))
        }
        _ => Err(CallFrameFault::UnknownInstruction),
    }
}

// A register's rule by an expression, or another instruction.
fn rule_by_expression<C: Cells>(
    cells: &C,
    around: &Surroundings<'_>,
    encoding: Encoding,
    opcode: u8,
    at: u64,
) -> Result<Decoded, CallFrameFault>
    ensures { result ≡ among_or opcode expression_rows (among_or opcode other_rows unknown)
        (section (C.cells cells.now) around.now) encoding at }
{
    let (rule, next) = match opcode {
        DW_CFA_expression => {
            let r = unsigned(cells, at)?;
            let (block, next) = block_at(cells, around, r.next)?;
            (RuleDefinition::Expression(r.value, block), next)
        }
        DW_CFA_val_expression => {
            let r = unsigned(cells, at)?;
            let (block, next) = block_at(cells, around, r.next)?;
            (RuleDefinition::ValExpression(r.value, block), next)
        }
        _ => return other(cells, around, encoding, opcode, at),
    };
    Ok(Instruction::Rule(rule).until(next))
}

// A register's rule by an offset, or another instruction.
fn rule_by_offset<C: Cells>(
    cells: &C,
    around: &Surroundings<'_>,
    encoding: Encoding,
    opcode: u8,
    at: u64,
) -> Result<Decoded, CallFrameFault>
    ensures { result ≡ among_or opcode offset_rows
        (among_or opcode expression_rows (among_or opcode other_rows unknown))
        (section (C.cells cells.now) around.now) encoding at }
{
    let (rule, next) = match opcode {
        DW_CFA_offset_extended => {
            let r = unsigned(cells, at)?;
            let offset = unsigned(cells, r.next)?;
            (
                RuleDefinition::OffsetExtended(r.value, offset.value),
                offset.next,
            )
        }
        DW_CFA_offset_extended_sf => {
            let r = unsigned(cells, at)?;
            let offset = signed(cells, r.next)?;
            (
                RuleDefinition::OffsetExtendedSf(r.value, offset.value),
                offset.next,
            )
        }
        DW_CFA_val_offset => {
            let r = unsigned(cells, at)?;
            let offset = unsigned(cells, r.next)?;
            (
                RuleDefinition::ValOffset(r.value, offset.value),
                offset.next,
            )
        }
        DW_CFA_val_offset_sf => {
            let r = unsigned(cells, at)?;
            let offset = signed(cells, r.next)?;
            (
                RuleDefinition::ValOffsetSf(r.value, offset.value),
                offset.next,
            )
        }
        _ => return rule_by_expression(cells, around, encoding, opcode, at),
    };
    Ok(Instruction::Rule(rule).until(next))
}

// Another rule of a register, or another instruction.
fn rule_of_register<C: Cells>(
    cells: &C,
    around: &Surroundings<'_>,
    encoding: Encoding,
    opcode: u8,
    at: u64,
) -> Result<Decoded, CallFrameFault>
    ensures { result ≡ among_or opcode register_rows
        (among_or opcode offset_rows
        (among_or opcode expression_rows (among_or opcode other_rows unknown)))
        (section (C.cells cells.now) around.now) encoding at }
{
    let (rule, next) = match opcode {
        DW_CFA_undefined => {
            let r = unsigned(cells, at)?;
            (RuleDefinition::Undefined(r.value), r.next)
        }
        DW_CFA_same_value => {
            let r = unsigned(cells, at)?;
            (RuleDefinition::SameValue(r.value), r.next)
        }
        DW_CFA_register => {
            let r = unsigned(cells, at)?;
            let other = unsigned(cells, r.next)?;
            (RuleDefinition::Register(r.value, other.value), other.next)
        }
        DW_CFA_restore_extended => {
            let r = unsigned(cells, at)?;
            (RuleDefinition::RestoreExtended(r.value), r.next)
        }
        _ => return rule_by_offset(cells, around, encoding, opcode, at),
    };
    Ok(Instruction::Rule(rule).until(next))
}

// A definition of the canonical frame address, or another instruction.
fn definition<C: Cells>(
    cells: &C,
    around: &Surroundings<'_>,
    encoding: Encoding,
    opcode: u8,
    at: u64,
) -> Result<Decoded, CallFrameFault>
    ensures { result ≡ among_or opcode cfa_rows
        (among_or opcode register_rows
        (among_or opcode offset_rows
        (among_or opcode expression_rows (among_or opcode other_rows unknown))))
        (section (C.cells cells.now) around.now) encoding at }
{
    let (cfa, next) = match opcode {
        DW_CFA_def_cfa => {
            let r = unsigned(cells, at)?;
            let offset = unsigned(cells, r.next)?;
            (CfaDefinition::DefCfa(r.value, offset.value), offset.next)
        }
        DW_CFA_def_cfa_sf => {
            let r = unsigned(cells, at)?;
            let offset = signed(cells, r.next)?;
            (CfaDefinition::DefCfaSf(r.value, offset.value), offset.next)
        }
        DW_CFA_def_cfa_register => {
            let r = unsigned(cells, at)?;
            (CfaDefinition::DefCfaRegister(r.value), r.next)
        }
        DW_CFA_def_cfa_offset => {
            let offset = unsigned(cells, at)?;
            (CfaDefinition::DefCfaOffset(offset.value), offset.next)
        }
        DW_CFA_def_cfa_offset_sf => {
            let offset = signed(cells, at)?;
            (CfaDefinition::DefCfaOffsetSf(offset.value), offset.next)
        }
        DW_CFA_def_cfa_expression => {
            let (block, next) = block_at(cells, around, at)?;
            (CfaDefinition::DefCfaExpression(block), next)
        }
        _ => return rule_of_register(cells, around, encoding, opcode, at),
    };
    Ok(Instruction::Cfa(cfa).until(next))
}

// An instruction whose opcode has no operand in its low bits.
fn extended<C: Cells>(
    cells: &C,
    around: &Surroundings<'_>,
    encoding: Encoding,
    opcode: u8,
    at: u64,
) -> Result<Decoded, CallFrameFault>
    ensures { result ≡ extended_reading opcode (section (C.cells cells.now) around.now) encoding
        at }
{
    let (creation, next) = match opcode {
        DW_CFA_set_loc => {
            let location = pointer_at(cells, around, encoding, at)?;
            (RowCreation::SetLoc(location.value), location.next)
        }
        DW_CFA_advance_loc1 => (RowCreation::AdvanceLoc1(byte(cells, at)?), at + 1),
        DW_CFA_advance_loc2 => (RowCreation::AdvanceLoc2(two_bytes(cells, at)?), at + 2),
        DW_CFA_advance_loc4 => (RowCreation::AdvanceLoc4(four_bytes(cells, at)?), at + 4),
        _ => return definition(cells, around, encoding, opcode, at),
    };
    Ok(Instruction::Creation(creation).until(next))
}

// The instruction at a place, and the place behind it.
#[tactic(auto, unfolding(crate::specs::Instructions::reading_of))]
fn decode<C: Cells>(
    cells: &C,
    around: &Surroundings<'_>,
    encoding: Encoding,
    place: u64,
) -> Result<Decoded, CallFrameFault>
    ensures { result ≡ instruction_at (section (C.cells cells.now) around.now) encoding place }
{
    let opcode = byte(cells, place)?;
    let at = place + 1;
    if opcode < DW_CFA_advance_loc {
        return extended(cells, around, encoding, opcode, at);
    }
    if opcode < DW_CFA_offset {
        let creation = RowCreation::AdvanceLoc(opcode - DW_CFA_advance_loc);
        return Ok(Instruction::Creation(creation).until(at));
    }
    if opcode < DW_CFA_restore {
        let offset = unsigned(cells, at)?;
        let rule = RuleDefinition::Offset(opcode - DW_CFA_offset, offset.value);
        return Ok(Instruction::Rule(rule).until(offset.next));
    }
    let rule = RuleDefinition::Restore(opcode - DW_CFA_restore);
    Ok(Instruction::Rule(rule).until(at))
}

/// The instruction at a place and the place of the next one, up to where the instructions end.
#[tactic(auto, unfolding(crate::specs::Instructions::instruction_before))]
pub fn decode_before<C: Cells>(
    cells: &C,
    around: &Surroundings<'_>,
    encoding: Encoding,
    end: u128,
    place: u64,
) -> Result<Option<(Instruction, u64)>, CallFrameFault>
    ensures { result ≡ instruction_before (section (C.cells cells.now) around.now) encoding end
        place }
{
    if u128::from(place) == end {
        return Ok(None);
    }
    let decoded = decode(cells, around, encoding, place)?;
    Ok(Some((decoded.instruction, decoded.next)))
}
