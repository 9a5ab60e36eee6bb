ghost use Rattle.std.specs.Prelude.{◌≡◌, option_map};
ghost use Rattle.plcr_regs.specs.declared.frame.Frame.{Frame};
ghost use Rattle.plcr_cursor.specs.Frames.{given_in, is_bad, reader_number};
ghost use Rattle.plcr_cursor.specs.inner.Answering.{answer_in, given_as};

use plcr_regs::{Frame, Outcome};

/// What tells a frame.
#[derive(Clone, Copy, Debug, PartialEq, Eq)]
pub enum Reader {
    /// The thread's state itself.
    ThreadState,
    /// The compact unwind information of the image.
    CompactUnwind,
    /// The image's call frame information.
    CallFrameInformation,
    /// The frame pointer that a function saved.
    FramePointer,
}

impl Reader {
    /// Its number in a report.
    pub fn number(self) -> u8
        ensures { result ≡ reader_number self }
    {
        match self {
            Reader::ThreadState => 0,
            Reader::CompactUnwind => 1,
            Reader::CallFrameInformation => 2,
            Reader::FramePointer => 3,
        }
    }
}

/// A frame, and what told it.
#[derive(Clone, Copy)]
pub struct Given {
    pub frame: Frame,
    pub by: Reader,
}

/// What a reader answers that puts the caller into room.
#[derive(Clone, Copy)]
pub struct Told {
    pub outcome: Outcome,
    pub by: Reader,
}

impl Told {
    /// Whether the reader can't tell.
    pub fn is_bad(&self) -> bool
        ensures { (room : Frame) → result ≡ is_bad (answer_in self.now room).step }
    {
        matches!(self.outcome, Outcome::Bad(_))
    }

    /// What told the frame that stands in the room, where one does.
    pub fn giver(&self) -> Option<Reader>
        ensures { (room : Frame) →
            option_map (given_as room) result ≡ given_in (answer_in self.now room) }
    {
        match self.outcome {
            Outcome::Caller => Some(self.by),
            Outcome::End | Outcome::Bad(_) => None,
        }
    }
}
