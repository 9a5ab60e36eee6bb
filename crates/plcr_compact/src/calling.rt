//! What an encoding says of the caller, before the stack is read.
ghost use Rattle.std.specs.Prelude.{◌≡◌, ◌≤◌, ◌<◌, ◌+◌, ◌^◌, ◌++◌, ℤ, pos, ◌-ℤ◌, [], int_lt, length, slice_index_or, IsTrue};
ghost use Rattle.plcr_base.specs.Chains.{result_map};
ghost use Rattle.plcr_compact.specs.Callers.{caller_by, field_words, framed, frameless, frameless_by, leaf, link, needed, pair_places, pair_words, register_words, saved_place, size_at};
ghost use Rattle.plcr_compact.specs.inner.Carrying.{caller_of, field_word, pair_top, pair_word};
ghost use Rattle.plcr_compact.specs.declared.caller.TheConstants.{MOST_WORDS};
ghost use Rattle.plcr_compact.specs.declared.encoding.TheConstants.{PAIRS};
ghost use Rattle.plcr_regs.specs.declared.limits.TheConstants.{MOST_REGISTERS};

use crate::bad::{NO_REGISTERS, NOT_MAPPED, OUT_OF_RANGE};
use crate::caller::{Caller, SavedWord, WORD, Words};
use crate::encoding::{Encoding, FRAME_REGISTERS, PAIRS, Permutation, SavedRegister};
use crate::permutation::saved_registers;
use plcr_memory::Memory;
use plcr_regs::{Frame, MOST_REGISTERS, fp_place, lr_place, pc_place, sp_place};

// The same as a signed number.
const SIGNED_WORD: i128 = WORD as i128;

// The place of a register that x86-64's functions save.
#[tactic(auto, unfolding(crate::specs::Callers::saved_place))]
fn saved_place(register: SavedRegister) -> usize
    ensures place { result ≡ saved_place register }
    ensures within { result < MOST_REGISTERS }
{
    match register {
        SavedRegister::Rbx => 1,
        SavedRegister::R12 => 12,
        SavedRegister::R13 => 13,
        SavedRegister::R14 => 14,
        SavedRegister::R15 => 15,
        SavedRegister::Rbp => 6,
    }
}

// Registers one behind the other from an address upwards.
fn push_registers(words: &mut Words, at: i128, registers: &[SavedRegister])
    requires room { length words.old.items + length registers.now ≤ MOST_WORDS }
    requires near { IsTrue (int_lt at (pos (2 ^ 70))) }
    ensures words { words.new.items ≡ words.old.items ++ register_words at registers.now }
    ensures size { length words.new.items ≡ length words.old.items + length registers.now }
{
    let mut at = at;
    for register in registers {
        words.push(SavedWord {
            at,
            place: saved_place(*register),
        });
        at += SIGNED_WORD;
    }
}

// The word of a register, where one was saved.
fn push_field(words: &mut Words, at: i128, register: Option<SavedRegister>)
    requires { length words.old.items < MOST_WORDS }
    ensures words { words.new.items ≡ words.old.items ++ field_word at register }
    ensures size { length words.new.items ≤ length words.old.items + 1 }
{
    if let Some(register) = register {
        words.push(SavedWord {
            at,
            place: saved_place(register),
        });
    }
}

// The same, with words among them that hold none.
fn push_fields(words: &mut Words, at: i128, registers: &[Option<SavedRegister>])
    requires room { length words.old.items + length registers.now ≤ MOST_WORDS }
    requires near { IsTrue (int_lt at (pos (2 ^ 70))) }
    ensures words { words.new.items ≡ words.old.items ++ field_words at registers.now }
    ensures size { length words.new.items ≤ length words.old.items + length registers.now }
{
    let mut at = at;
    for register in registers {
        push_field(words, at, *register);
        at += SIGNED_WORD;
    }
}

// The words of a pair from an address downwards, where it was saved. The answer is where the next
// pair stands.
fn push_pair(words: &mut Words, top: i128, saved: bool, places: (usize, usize)) -> i128
    requires room { length words.old.items + 2 ≤ MOST_WORDS }
    requires near { IsTrue (int_lt (pos 0 -ℤ pos (2 ^ 70)) top) }
    ensures words { words.new.items ≡ words.old.items ++ pair_word top saved places }
    ensures size { length words.new.items ≤ length words.old.items + 2 }
    ensures top { result ≡ pair_top top saved }
{
    if !saved {
        return top;
    }
    words.push(SavedWord {
        at: top,
        place: places.0,
    });
    words.push(SavedWord {
        at: top - SIGNED_WORD,
        place: places.1,
    });
    top - 2 * SIGNED_WORD
}

// The places of a pair of arm64's registers.
#[tactic(auto, using(crate::proofs::Pairs::pair_table))]
fn pair_places(pair: usize) -> (usize, usize)
    requires { pair < PAIRS }
    ensures { result ≡ slice_index_or pair_places pair (0, 0) }
{
    match pair {
        0 => (19, 20),
        1 => (21, 22),
        2 => (23, 24),
        3 => (25, 26),
        _ => (27, 28),
    }
}

// The pairs that were saved, from an address downwards.
fn push_pairs(words: &mut Words, top: i128, pairs: &[bool; PAIRS])
    requires room { length words.old.items + 10 ≤ MOST_WORDS }
    requires near { IsTrue (int_lt (pos 0 -ℤ pos (2 ^ 69)) top) }
    ensures words { words.new.items ≡ words.old.items ++ pair_words top pairs.now pair_places }
    ensures size { length words.new.items ≤ length words.old.items + 10 }
{
    let mut top = top;
    for pair in 0..PAIRS {
        top = push_pair(words, top, pairs[pair], pair_places(pair));
    }
}

// The register at a place, which is needed.
fn needed(frame: &Frame, place: usize) -> Result<u64, u8>
    requires { place < MOST_REGISTERS }
    ensures { result ≡ needed frame.now place }
{
    frame.registers.value[place].ok_or(OUT_OF_RANGE)
}

// The caller of a frame with a frame pointer, with the words that are there besides.
#[tactic(auto, using(std::proofs::lemmas::List::append_assoc))]
fn framed(frame: &Frame, pointer: u64, words: &mut Words) -> Caller
    requires { length words.old.items + 2 ≤ MOST_WORDS }
    ensures { caller_of frame.now words.new.items result
        ≡ framed frame.now pointer words.old.items }
{
    let arch = frame.registers.arch;
    let at = i128::from(pointer);
    words.push(SavedWord {
        at,
        place: fp_place(arch),
    });
    words.push(SavedWord {
        at: at + SIGNED_WORD,
        place: pc_place(arch),
    });
    Caller {
        back: None,
        stack: at + 2 * SIGNED_WORD,
    }
}

// The caller of a frame without one on x86-64.
fn frameless(
    frame: &Frame,
    pointer: u64,
    size: u64,
    registers: &[SavedRegister],
    words: &mut Words,
) -> Caller
    requires room { length registers.now < MOST_WORDS }
    requires none { words.old.items ≡ [] }
    ensures { caller_of frame.now words.new.items result
        ≡ frameless frame.now pointer size registers.now }
{
    let stack = i128::from(pointer) + i128::from(size);
    let first = stack - SIGNED_WORD - SIGNED_WORD * registers.len() as i128;
    push_registers(words, first, registers);
    words.push(SavedWord {
        at: stack - SIGNED_WORD,
        place: pc_place(frame.registers.arch),
    });
    Caller { back: None, stack }
}

// The same, where the stack has room for what was saved.
#[tactic(auto, unfolding(crate::specs::Callers::frameless_by))]
fn frameless_by(
    frame: &Frame,
    size: Option<u64>,
    saved: Permutation,
    words: &mut Words,
) -> Result<Caller, u8>
    requires { words.old.items ≡ [] }
    ensures { result_map (caller_of frame.now words.new.items) result
        ≡ frameless_by frame.now size saved }
{
    let registers = saved_registers(saved).ok_or(NO_REGISTERS)?;
    let least = WORD + WORD * registers.len() as u64;
    if matches!(size, Some(size) if size < least) {
        return Err(NO_REGISTERS);
    }
    let pointer = needed(frame, sp_place(frame.registers.arch))?;
    let size = size.ok_or(NOT_MAPPED)?;
    Ok(frameless(frame, pointer, size, registers.as_slice(), words))
}

// What lr has.
fn link(frame: &Frame) -> Option<u64>
    ensures { result ≡ link frame.now }
{
    let place = lr_place(frame.registers.arch)?;
    frame.registers.value[place]
}

// The caller of a frame without one on arm64.
fn leaf(
    frame: &Frame,
    pointer: u64,
    back: u64,
    size: u32,
    pairs: &[bool; PAIRS],
    words: &mut Words,
) -> Caller
    requires { words.old.items ≡ [] }
    ensures { caller_of frame.now words.new.items result
        ≡ leaf frame.now pointer back size pairs.now }
{
    let stack = i128::from(pointer) + i128::from(size);
    push_pairs(words, stack - SIGNED_WORD, pairs);
    Caller {
        back: Some(back),
        stack,
    }
}

// The size that stands in the code so far from a function's start, and what is added to it.
fn size_at(memory: &Memory, start: u64, place: u32, adjust: u32) -> Option<u64>
    ensures { result ≡ size_at memory.now start place adjust }
{
    let size = memory.read_u32(start.wrapping_add(u64::from(place)))?;
    Some(u64::from(size) + u64::from(adjust))
}

/// The caller by an encoding of a function that starts at an address; its words are put into room
/// that has none.
#[tactic(auto, unfolding(crate::specs::Callers::caller_by))]
pub fn caller_by(
    memory: &Memory,
    start: u64,
    frame: &Frame,
    encoding: &Encoding,
    words: &mut Words,
) -> Result<Caller, u8>
    requires { words.old.items ≡ [] }
    ensures { result_map (caller_of frame.now words.new.items) result
        ≡ caller_by memory.now start frame.now encoding.now }
{
    let arch = frame.registers.arch;
    match encoding {
        Encoding::RbpFrame { offset, registers } => {
            let pointer = needed(frame, fp_place(arch))?;
            let first = i128::from(pointer) - i128::from(*offset);
            push_fields(words, first, registers);
            Ok(framed(frame, pointer, words))
        }
        Encoding::StackImmediate { size, saved } => {
            frameless_by(frame, Some(u64::from(*size)), *saved, words)
        }
        Encoding::StackIndirect {
            size_at: place,
            adjust,
            saved,
        } => {
            let size = size_at(memory, start, *place, *adjust);
            frameless_by(frame, size, *saved, words)
        }
        Encoding::Frameless { size, pairs } => {
            let pointer = needed(frame, sp_place(arch))?;
            let back = link(frame).ok_or(OUT_OF_RANGE)?;
            Ok(leaf(frame, pointer, back, *size, pairs, words))
        }
        Encoding::Frame { pairs } => {
            let pointer = needed(frame, fp_place(arch))?;
            push_pairs(words, i128::from(pointer) - SIGNED_WORD, pairs);
            Ok(framed(frame, pointer, words))
        }
    }
}
