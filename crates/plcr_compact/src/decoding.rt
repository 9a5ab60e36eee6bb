//! The encodings that words spell.
ghost use Rattle.std.specs.Prelude.{◌≡◌, IfOk, IfSome};
ghost use Rattle.plcr_compact.specs.Encodings.{arm64_encoding, encoding_by, frame_register, frame_registers, pairs_of, permutation_of, x86_64_encoding};
ghost use Rattle.plcr_compact.specs.declared.encoding.TheConstants.{FRAME_REGISTERS};

use crate::bad::{DWARF_MODE, NO_REGISTERS, UNKNOWN_MODE};
use crate::encoding::{Encoding, FRAME_REGISTERS, PAIRS, Permutation, SavedRegister};
use crate::masks::{
    UNWIND_ARM64_FRAME_X19_X20_PAIR, UNWIND_ARM64_FRAME_X21_X22_PAIR,
    UNWIND_ARM64_FRAME_X23_X24_PAIR, UNWIND_ARM64_FRAME_X25_X26_PAIR,
    UNWIND_ARM64_FRAME_X27_X28_PAIR, UNWIND_ARM64_FRAMELESS_STACK_SIZE_MASK,
    UNWIND_ARM64_MODE_DWARF, UNWIND_ARM64_MODE_FRAME, UNWIND_ARM64_MODE_FRAMELESS,
    UNWIND_ARM64_MODE_MASK, UNWIND_X86_64_FRAMELESS_STACK_ADJUST,
    UNWIND_X86_64_FRAMELESS_STACK_REG_COUNT, UNWIND_X86_64_FRAMELESS_STACK_REG_PERMUTATION,
    UNWIND_X86_64_FRAMELESS_STACK_SIZE, UNWIND_X86_64_MODE_DWARF, UNWIND_X86_64_MODE_MASK,
    UNWIND_X86_64_MODE_RBP_FRAME, UNWIND_X86_64_MODE_STACK_IMMD, UNWIND_X86_64_MODE_STACK_IND,
    UNWIND_X86_64_RBP_FRAME_OFFSET, UNWIND_X86_64_RBP_FRAME_REGISTERS, UNWIND_X86_64_REG_NONE,
    UNWIND_X86_64_REG_R12, UNWIND_X86_64_REG_R13, UNWIND_X86_64_REG_R14, UNWIND_X86_64_REG_R15,
    UNWIND_X86_64_REG_RBX,
};
use crate::words::field;
use plcr_regs::Arch;

// Sizes of x86-64 are told in words, those of arm64 in pairs of registers.
const WORD_BYTES: u32 = 8;

const PAIR_BYTES: u32 = 16;

// A field of 3 bits has so many values.
const REGISTER_FIELD: u32 = 8;

// The register with a number in a frame with rbp.
#[tactic(auto, unfolding(crate::specs::Encodings::frame_register))]
fn frame_register(number: u32) -> Result<Option<SavedRegister>, u8>
    ensures { result ≡ frame_register number }
{
    match number {
        UNWIND_X86_64_REG_NONE => Ok(None),
        UNWIND_X86_64_REG_RBX => Ok(Some(SavedRegister::Rbx)),
        UNWIND_X86_64_REG_R12 => Ok(Some(SavedRegister::R12)),
        UNWIND_X86_64_REG_R13 => Ok(Some(SavedRegister::R13)),
        UNWIND_X86_64_REG_R14 => Ok(Some(SavedRegister::R14)),
        UNWIND_X86_64_REG_R15 => Ok(Some(SavedRegister::R15)),
        _ => Err(NO_REGISTERS),
    }
}

// The registers of five fields of 3 bits, from the low end on.
fn frame_registers(fields: u32) -> Result<[Option<SavedRegister>; FRAME_REGISTERS], u8>
    ensures { result ≡ frame_registers FRAME_REGISTERS fields }
{
    let first = frame_register(fields % REGISTER_FIELD)?;
    let rest = fields / REGISTER_FIELD;
    let second = frame_register(rest % REGISTER_FIELD)?;
    let rest = rest / REGISTER_FIELD;
    let third = frame_register(rest % REGISTER_FIELD)?;
    let rest = rest / REGISTER_FIELD;
    let fourth = frame_register(rest % REGISTER_FIELD)?;
    let rest = rest / REGISTER_FIELD;
    let fifth = frame_register(rest % REGISTER_FIELD)?;
    Ok([first, second, third, fourth, fifth])
}

fn permutation(word: u32) -> Permutation
    ensures { result ≡ permutation_of word }
{
    Permutation {
        count: field(word, UNWIND_X86_64_FRAMELESS_STACK_REG_COUNT),
        number: field(word, UNWIND_X86_64_FRAMELESS_STACK_REG_PERMUTATION),
    }
}

// An encoding of x86-64. Its offset, size and adjustment are told in words of 8 bytes.
#[tactic(auto, unfolding(crate::specs::Encodings::x86_64_encoding))]
fn x86_64_encoding(word: u32) -> Result<Encoding, u8>
    ensures { result ≡ x86_64_encoding word }
{
    match word & UNWIND_X86_64_MODE_MASK {
        UNWIND_X86_64_MODE_RBP_FRAME => {
            let registers = frame_registers(field(word, UNWIND_X86_64_RBP_FRAME_REGISTERS))?;
            Ok(Encoding::RbpFrame {
                offset: WORD_BYTES * field(word, UNWIND_X86_64_RBP_FRAME_OFFSET),
                registers,
            })
        }
        UNWIND_X86_64_MODE_STACK_IMMD => Ok(Encoding::StackImmediate {
            size: WORD_BYTES * field(word, UNWIND_X86_64_FRAMELESS_STACK_SIZE),
            saved: permutation(word),
        }),
        UNWIND_X86_64_MODE_STACK_IND => Ok(Encoding::StackIndirect {
            size_at: field(word, UNWIND_X86_64_FRAMELESS_STACK_SIZE),
            adjust: WORD_BYTES * field(word, UNWIND_X86_64_FRAMELESS_STACK_ADJUST),
            saved: permutation(word),
        }),
        UNWIND_X86_64_MODE_DWARF => Err(DWARF_MODE),
        _ => Err(UNKNOWN_MODE),
    }
}

// Which pairs of arm64's registers were saved.
fn pairs(word: u32) -> [bool; PAIRS]
    ensures { result ≡ pairs_of word }
{
    [
        word & UNWIND_ARM64_FRAME_X19_X20_PAIR != 0,
        word & UNWIND_ARM64_FRAME_X21_X22_PAIR != 0,
        word & UNWIND_ARM64_FRAME_X23_X24_PAIR != 0,
        word & UNWIND_ARM64_FRAME_X25_X26_PAIR != 0,
        word & UNWIND_ARM64_FRAME_X27_X28_PAIR != 0,
    ]
}

// An encoding of arm64. Its size is told in pairs of registers of 16 bytes.
#[tactic(auto, unfolding(crate::specs::Encodings::arm64_encoding))]
fn arm64_encoding(word: u32) -> Result<Encoding, u8>
    ensures { result ≡ arm64_encoding word }
{
    match word & UNWIND_ARM64_MODE_MASK {
        UNWIND_ARM64_MODE_FRAMELESS => Ok(Encoding::Frameless {
            size: PAIR_BYTES * field(word, UNWIND_ARM64_FRAMELESS_STACK_SIZE_MASK),
            pairs: pairs(word),
        }),
        UNWIND_ARM64_MODE_FRAME => Ok(Encoding::Frame { pairs: pairs(word) }),
        UNWIND_ARM64_MODE_DWARF => Err(DWARF_MODE),
        _ => Err(UNKNOWN_MODE),
    }
}

/// The encoding that a word spells for an architecture.
#[tactic(auto, unfolding(crate::specs::Encodings::encoding_by))]
pub fn encoding(arch: Arch, word: u32) -> Result<Encoding, u8>
    ensures { result ≡ encoding_by arch word }
{
    match arch {
        Arch::X86_64 => x86_64_encoding(word),
        Arch::Arm64 => arm64_encoding(word),
    }
}
