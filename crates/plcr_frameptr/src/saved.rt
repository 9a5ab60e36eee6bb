ghost use Rattle.std.specs.Prelude.{◌≡◌};
ghost use Rattle.plcr_regs.specs.Frames.{IfFrame, IsOfThread};
ghost use Rattle.plcr_regs.specs.Outcomes.{step_in};
ghost use Rattle.plcr_frameptr.specs.Saved.{caller_of, saved_frame};

use crate::bad::{DOES_NOT_RISE, NO_FRAME_POINTER, NOT_MAPPED};
use plcr_base::read_u64;
use plcr_memory::Memory;
use plcr_regs::{Frame, MOST_REGISTERS, Outcome, Step, fp_place, pc_place, sp_place};

/// How many bytes a saved frame has: the frame pointer of the caller, and the address to which the
/// call returns.
pub const SAVED_FRAME: usize = 16;

// Puts the caller of a frame into room, by its frame pointer and the two words there.
#[tactic(auto, unfolding(crate::specs::Saved::caller_of))]
fn put_caller(frame: &Frame, pointer: u64, saved: u64, back: u64, room: &mut Frame)
    ensures caller { room.new ≡ caller_of frame.now pointer saved back }
    ensures thread { IsOfThread frame.now room.new }
{
    let arch = frame.registers.arch;
    room.registers.arch = arch;
    room.registers.value = [None; MOST_REGISTERS];
    room.registers.value[pc_place(arch)] = Some(frame.cut(back));
    room.registers.value[fp_place(arch)] = Some(saved);
    room.registers.value[sp_place(arch)] = Some(pointer.wrapping_add(SAVED_FRAME as u64));
    room.exact = false;
    room.bits = frame.bits;
}

/// What `step` says, where the caller is put into room.
#[tactic(auto, unfolding(crate::specs::Saved::saved_frame))]
pub fn step_into(memory: &Memory, frame: &Frame, room: &mut Frame) -> Outcome
    ensures caller { step_in result room.new ≡ saved_frame memory.now frame.now }
    ensures thread { IfFrame (step_in result room.new) (IsOfThread frame.now) }
{
    let Some(pointer) = frame.registers.value[fp_place(frame.registers.arch)] else {
        return Outcome::Bad(NO_FRAME_POINTER);
    };
    if pointer == 0 {
        return Outcome::End;
    }
    let mut words = [0; SAVED_FRAME];
    if !memory.copy(pointer, &mut words) {
        return Outcome::Bad(NOT_MAPPED);
    }
    let saved = read_u64(&words, 0);
    if saved != 0 && saved <= pointer {
        return Outcome::Bad(DOES_NOT_RISE);
    }
    put_caller(frame, pointer, saved, read_u64(&words, 8), room);
    Outcome::Caller
}

/// The caller of a frame by its saved frame, the two words at its frame pointer: the frame pointer
/// of the caller, and the address to which the call returns. End where the frame pointer is 0. Of
/// the caller pc, fp and sp are known; its pc is without signature.
///
/// Bad 1: the frame pointer isn't known. Bad 2: its 16 bytes aren't all mapped, or pass 2^64. Bad
/// 3: the saved frame pointer is neither 0 nor above the one that leads to it.
pub fn step(memory: &Memory, frame: &Frame) -> Step
    ensures caller { result ≡ saved_frame memory.now frame.now }
    ensures thread { IfFrame result (IsOfThread frame.now) }
{
    let mut room = *frame;
    match step_into(memory, frame, &mut room) {
        Outcome::Caller => Step::Frame(room),
        Outcome::End => Step::End,
        Outcome::Bad(number) => Step::Bad(number),
    }
}
