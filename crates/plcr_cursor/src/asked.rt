//! What the readers of frames are asked of a memory.
ghost use Rattle.std.specs.Prelude.{◌≡◌, ◌≤◌, IsSome, IsSomeAnd};
ghost use Rattle.std.specs.Result.{result_ok};
ghost use Rattle.plcr_memory.specs.Regions.{Contents};
ghost use Rattle.plcr_regs.specs.Frames.{IfFrame, IsOfThread, frame_lookup};
ghost use Rattle.plcr_regs.specs.Outcomes.{step_in};
ghost use Rattle.plcr_macho.specs.Loading.{image_at};
ghost use Rattle.plcr_compact.specs.Callers.{compact_frame};
ghost use Rattle.plcr_dwarf_cfi.specs.Caller.{call_frame};
ghost use Rattle.plcr_frameptr.specs.Saved.{saved_frame};

use plcr_macho::{Image, parse};
use plcr_memory::Memory;
use plcr_regs::{Arch, Frame, Outcome, Step};

/// A memory whose images and frames are asked for.
pub trait Asked {
    /// The memory. No call changes it.
    ghost memory: { Self → Contents };

    /// The image whose header stands at an address, if there is one. `place` is where it stands in
    /// a list.
    fn image(&mut self, place: usize, arch: Arch, header: u64) -> Option<Image>
        ensures image { result ≡ result_ok (image_at (memory self.old) arch header) }
        ensures same { memory self.new ≡ memory self.old };

    /// Puts the caller of a frame into room, by its image's compact unwind information.
    fn compact(&mut self, place: usize, image: &Image, frame: &Frame, room: &mut Frame) -> Outcome
        requires { IsSomeAnd (frame_lookup frame.now) (λ address. image.now.header ≤ address) }
        ensures caller { step_in result room.new ≡ compact_frame (memory self.old) image.now
            frame.now }
        ensures thread { IfFrame (step_in result room.new) (IsOfThread frame.now) }
        ensures same { memory self.new ≡ memory self.old };

    /// Puts it there by its image's call frame information.
    fn call_frame(&mut self, image: &Image, frame: &Frame, room: &mut Frame) -> Outcome
        requires { IsSome (frame_lookup frame.now) }
        ensures caller { step_in result room.new ≡ call_frame (memory self.old) image.now
            frame.now }
        ensures thread { IfFrame (step_in result room.new) (IsOfThread frame.now) }
        ensures same { memory self.new ≡ memory self.old };

    /// Puts it there by the frame that its function saved.
    fn saved(&mut self, frame: &Frame, room: &mut Frame) -> Outcome
        ensures caller { step_in result room.new ≡ saved_frame (memory self.old) frame.now }
        ensures thread { IfFrame (step_in result room.new) (IsOfThread frame.now) }
        ensures same { memory self.new ≡ memory self.old };
}

/// Puts the frame that a step gives into room.
pub fn put(step: &Step, room: &mut Frame) -> Outcome
    ensures { step_in result room.new ≡ step.now }
{
    match step {
        Step::Frame(frame) => {
            *room = *frame;
            Outcome::Caller
        }
        Step::End => Outcome::End,
        Step::Bad(number) => Outcome::Bad(*number),
    }
}

/// A memory of which nothing is kept.
#[derive(Drop)]
pub struct Plain<'m> {
    pub memory: &'m Memory,
}

impl Asked for Plain<'_> {
    ghost memory = { λ p. p.memory.now };

    fn image(&mut self, _place: usize, arch: Arch, header: u64) -> Option<Image> {
        parse(self.memory, arch, header).ok()
    }

    fn compact(
        &mut self,
        _place: usize,
        image: &Image,
        frame: &Frame,
        room: &mut Frame,
    ) -> Outcome {
        put(&plcr_compact::step(self.memory, image, frame), room)
    }

    fn call_frame(&mut self, image: &Image, frame: &Frame, room: &mut Frame) -> Outcome {
        put(&plcr_dwarf_cfi::step(self.memory, image, frame), room)
    }

    fn saved(&mut self, frame: &Frame, room: &mut Frame) -> Outcome {
        plcr_frameptr::step_into(self.memory, frame, room)
    }
}
