//! The frame given last, with room for the next.
ghost use Rattle.std.specs.Prelude.{◌≡◌, List, IfNone, IfSome, IsSome, option_map};
ghost use Rattle.plcr_macho.specs.Images.{Listed};
ghost use Rattle.plcr_regs.specs.Frames.{IsOfThread, frame_pc};
ghost use Rattle.plcr_cursor.specs.Frames.{located_over, next_of};
ghost use Rattle.plcr_cursor.specs.inner.Answering.{IsBelow, given_as};

use crate::asked::Asked;
use crate::given::Reader;
use crate::located::Located;
use crate::readers::next_frame;
use plcr_regs::Frame;
use std::marker::Model;

/// The frame given last, beside room into which the next is put. They change places, so that no
/// frame is copied. Contracts see the frame.
#[derive(Drop)]
pub struct Turning {
    first: Frame,
    second: Frame,
    // Whether the second is the frame, and the first is room.
    turned: bool,
}

impl Model for Turning {
    ghost use Rattle.std.specs.Prelude.{if◌then◌else◌};
    ghost use Rattle.plcr_regs.specs.declared.frame.Frame as frames;

    ghost Value = { frames.Frame };

    ghost view = { λ t. if t.turned then t.second else t.first };
}

impl Turning {
    /// This frame.
    #[inline(always)]
    pub fn at(frame: &Frame) -> Turning
        ensures { result ≡ frame.now }
    {
        Turning {
            first: *frame,
            second: *frame,
            turned: false,
        }
    }

    /// The frame.
    pub fn frame(&self) -> &Frame
        ensures { result.now ≡ self.now }
    {
        if self.turned {
            &self.second
        } else {
            &self.first
        }
    }

    /// Goes on to the frame behind it, where there is one. `over` is the image that has the address
    /// by which the frame's function is looked up. Gives what told the next.
    pub fn turn<A: Asked>(&mut self, asked: &mut A, over: &Option<Located>) -> Option<Reader>
        requires { IsBelow self.old over.now }
        ensures next { (images : List Listed) →
            over.now ≡ located_over (A.memory asked.old) images self.old →
            option_map (given_as self.new) result ≡ next_of (A.memory asked.old) images self.old }
        ensures stays { IfNone result (self.new ≡ self.old) }
        ensures thread { IfSome result (λ _. IsOfThread self.old self.new) }
        ensures known { IfSome result (λ _. IsSome (frame_pc self.new)) }
        ensures memory { A.memory asked.new ≡ A.memory asked.old }
    {
        if self.turned {
            let by = next_frame(asked, over, &self.second, &mut self.first)?;
            self.turned = false;
            return Some(by);
        }
        let by = next_frame(asked, over, &self.first, &mut self.second)?;
        self.turned = true;
        Some(by)
    }
}
