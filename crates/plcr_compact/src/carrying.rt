//! The caller once the stack is read.
ghost use Rattle.std.specs.Prelude.{◌≡◌, IfOk, false, unsigned_abs};
ghost use Rattle.plcr_base.specs.Chains.{result_map};
ghost use Rattle.plcr_memory.specs.Regions.{number_at};
ghost use Rattle.std.specs.List.{list_any};
ghost use Rattle.plcr_regs.specs.Frames.{IsOfThread};
ghost use Rattle.plcr_compact.specs.Callers.{filled, frame_of, is_outside, read_caller};
ghost use Rattle.plcr_compact.specs.inner.Carrying.{AreRegisters, caller_of, value_before};

use crate::bad::{NOT_MAPPED, OUT_OF_RANGE};
use crate::caller::{Caller, SavedWord, WORD};
use plcr_memory::Memory;
use plcr_regs::{Frame, Registers, pc_place, sp_place};

/// Where the addresses of 64 bits end.
const END: i128 = 1 << 64;

// Whether the word begins below 0 or ends above 2^64.
fn is_outside(word: &SavedWord) -> bool
    ensures { result ≡ is_outside word.now }
{
    word.at < 0 || word.at > END - i128::from(WORD)
}

// Whether some word is.
fn any_outside(words: &[SavedWord]) -> bool
    ensures { result ≡ list_any is_outside words.now }
{
    words.iter().any(is_outside)
}

// The number of a word that isn't outside.
fn read(memory: &Memory, word: &SavedWord) -> Option<u64>
    requires { is_outside word.now ≡ false }
    ensures { result ≡ number_at 8 memory.now (unsigned_abs word.now.at) }
{
    memory.read_u64(word.at as u64)
}

// Puts the registers before the stack is read into room: those that functions keep, and the pc
// where it is known.
#[tactic(auto, unfolding(plcr_regs::specs::Frames::kept_of))]
fn before(frame: &Frame, back: Option<u64>, room: &mut Registers)
    ensures value { room.new.value ≡ value_before frame.now back }
    ensures arch { room.new.arch ≡ frame.now.registers.arch }
{
    frame.registers.keep_into(room);
    if let Some(back) = back {
        room.value[pc_place(frame.registers.arch)] = Some(back);
    }
}

// Sets the registers that words hold.
fn fill(memory: &Memory, registers: &mut Registers, words: &[SavedWord]) -> Result<(), u8>
    requires registers { AreRegisters words.now }
    requires inside { list_any is_outside words.now ≡ false }
    ensures filled { result_map (λ _. registers.new.value) result
        ≡ filled memory.now registers.old.value words.now }
    ensures arch { registers.new.arch ≡ registers.old.arch }
{
    for word in words {
        let Some(number) = read(memory, word) else {
            return Err(NOT_MAPPED);
        };
        registers.value[word.place] = Some(number);
    }
    Ok(())
}

// Takes the signature from the pc, and sets the stack pointer.
#[tactic(auto, unfolding(crate::specs::Callers::frame_of))]
fn finish(frame: &Frame, registers: &mut Registers, stack: i128)
    requires { registers.old.arch ≡ frame.now.registers.arch }
    ensures value { registers.new.value
        ≡ (frame_of frame.now registers.old.value stack).registers.value }
    ensures arch { registers.new.arch ≡ registers.old.arch }
{
    let arch = frame.registers.arch;
    let pc = registers.value[pc_place(arch)];
    registers.value[pc_place(arch)] = pc.map(|pc| frame.cut(pc));
    registers.value[sp_place(arch)] = Some((stack.unsigned_abs() % END as u128) as u64);
}

/// Puts the caller into room once the stack is read. No word and no stack pointer may pass the
/// addresses of 64 bits.
#[tactic(auto, unfolding(crate::specs::Callers::read_caller, crate::specs::Callers::frame_of))]
pub fn read_caller(
    memory: &Memory,
    frame: &Frame,
    caller: Caller,
    words: &[SavedWord],
    room: &mut Frame,
) -> Result<(), u8>
    requires { AreRegisters words.now }
    ensures frame { result_map (λ _. room.new) result
        ≡ read_caller memory.now frame.now (caller_of frame.now words.now caller) }
    ensures thread { IfOk result (λ _. IsOfThread frame.now room.new) }
{
    if any_outside(words) || caller.stack > END {
        return Err(OUT_OF_RANGE);
    }
    before(frame, caller.back, &mut room.registers);
    if let Err(bad) = fill(memory, &mut room.registers, words) {
        return Err(bad);
    }
    finish(frame, &mut room.registers, caller.stack);
    room.exact = false;
    room.bits = frame.bits;
    Ok(())
}
