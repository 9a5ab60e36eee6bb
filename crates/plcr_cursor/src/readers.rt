//! The order of the readers of frames.
ghost use Rattle.std.specs.Prelude.{◌≡◌, ◌≤◌, List, IsSome, IsSomeAnd, IfSome, option_map};
ghost use Rattle.plcr_memory.specs.Regions.{Contents};
ghost use Rattle.plcr_macho.specs.Images.{Listed};
ghost use Rattle.plcr_regs.specs.Frames.{IfFrame, IsOfThread, frame_lookup, frame_pc};
ghost use Rattle.plcr_regs.specs.Outcomes.{step_in};
ghost use Rattle.plcr_cursor.specs.Frames.{call_frame_answer, caller_in, compact_answer, located_over, next_of, saved_answer};
ghost use Rattle.plcr_cursor.specs.Walks.{IsIndex};
ghost use Rattle.plcr_cursor.specs.inner.Answering.{IsBelow, answer_by, answer_in, given_as, image_in, or_next};

use crate::asked::Asked;
use crate::given::{Reader, Told};
use crate::limits::NULL_PAGE;
use crate::located::Located;
use plcr_macho::{Image, Images};
use plcr_regs::Frame;

/// The first image of the list that has the address by which a frame's function is looked up.
pub fn locate_over<A: Asked, I: Images>(
    asked: &mut A,
    images: &mut I,
    frame: &Frame,
) -> Option<Located>
    requires { IsIndex (A.memory asked.old) frame.now.registers.arch (I.images images.old)
        (I.extents images.old) }
    ensures located { result ≡ located_over (A.memory asked.old) (I.images images.old) frame.now }
    ensures memory { A.memory asked.new ≡ A.memory asked.old }
    ensures same { I.images images.new ≡ I.images images.old }
    ensures index { I.extents images.new ≡ I.extents images.old }
    ensures follows { I.follows images.old images.new }
{
    let address = frame.lookup()?;
    let place = images.locate(address)?;
    let header = images.header(place);
    let image = asked.image(place, frame.registers.arch, header)?;
    Some(Located { place, image })
}

// Puts the caller of a frame into room, by the first reader of an image's tables that can tell, or
// by the last.
#[tactic(auto, unfolding(crate::specs::inner::Answering::or_next))]
fn by_tables<A: Asked>(
    asked: &mut A,
    place: usize,
    image: &Image,
    frame: &Frame,
    room: &mut Frame,
) -> Told
    requires { IsSomeAnd (frame_lookup frame.now) (λ address. image.now.header ≤ address) }
    ensures answer { answer_in result room.new
        ≡ or_next (compact_answer (A.memory asked.old) frame.now image.now)
        (call_frame_answer (A.memory asked.old) frame.now image.now) }
    ensures memory { A.memory asked.new ≡ A.memory asked.old }
    ensures thread { IfFrame (step_in result.outcome room.new) (IsOfThread frame.now) }
{
    let told = Told {
        outcome: asked.compact(place, image, frame, room),
        by: Reader::CompactUnwind,
    };
    if !told.is_bad() {
        return told;
    }
    Told {
        outcome: asked.call_frame(image, frame, room),
        by: Reader::CallFrameInformation,
    }
}

fn by_saved_frame<A: Asked>(asked: &mut A, frame: &Frame, room: &mut Frame) -> Told
    ensures answer { answer_in result room.new ≡ saved_answer (A.memory asked.old) frame.now }
    ensures memory { A.memory asked.new ≡ A.memory asked.old }
    ensures thread { IfFrame (step_in result.outcome room.new) (IsOfThread frame.now) }
{
    Told {
        outcome: asked.saved(frame, room),
        by: Reader::FramePointer,
    }
}

// The answer that counts, where this is the image.
fn answer<A: Asked>(asked: &mut A, over: &Option<Located>, frame: &Frame, room: &mut Frame) -> Told
    requires { IsBelow frame.now over.now }
    ensures answer { answer_in result room.new ≡ answer_by (A.memory asked.old) frame.now
        (image_in over.now) }
    ensures thread { IfFrame (step_in result.outcome room.new) (IsOfThread frame.now) }
    ensures memory { A.memory asked.new ≡ A.memory asked.old }
{
    let Some(located) = over else {
        return by_saved_frame(asked, frame, room);
    };
    let told = by_tables(asked, located.place, &located.image, frame, room);
    if told.is_bad() {
        by_saved_frame(asked, frame, room)
    } else {
        told
    }
}

// Puts the caller of a frame into room, by the first reader whose answer isn't Bad. Gives which
// this is, where there is a caller.
#[tactic(auto, using(crate::proofs::Answered::caller_by))]
fn caller<A: Asked>(
    asked: &mut A,
    over: &Option<Located>,
    frame: &Frame,
    room: &mut Frame,
) -> Option<Reader>
    requires { IsBelow frame.now over.now }
    ensures caller { (images : List Listed) →
        over.now ≡ located_over (A.memory asked.old) images frame.now →
        option_map (given_as room.new) result ≡ caller_in (A.memory asked.old) images frame.now }
    ensures thread { IfSome result (λ _. IsOfThread frame.now room.new) }
    ensures memory { A.memory asked.new ≡ A.memory asked.old }
{
    answer(asked, over, frame, room).giver()
}

/// Puts the frame behind another into room: its caller, where this is listed. `over` is the image
/// that has the address by which its function is looked up. Gives what told it.
#[tactic(auto, unfolding(crate::specs::Frames::next_of))]
pub fn next_frame<A: Asked>(
    asked: &mut A,
    over: &Option<Located>,
    frame: &Frame,
    room: &mut Frame,
) -> Option<Reader>
    requires { IsBelow frame.now over.now }
    ensures next { (images : List Listed) →
        over.now ≡ located_over (A.memory asked.old) images frame.now →
        option_map (given_as room.new) result ≡ next_of (A.memory asked.old) images frame.now }
    ensures thread { IfSome result (λ _. IsOfThread frame.now room.new) }
    ensures known { IfSome result (λ _. IsSome (frame_pc room.new)) }
    ensures memory { A.memory asked.new ≡ A.memory asked.old }
{
    let by = caller(asked, over, frame, room)?;
    if room.pc()? <= NULL_PAGE {
        return None;
    }
    Some(by)
}
