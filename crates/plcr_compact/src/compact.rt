//! The reader of compact unwind information, and its two halves.
ghost use Rattle.std.specs.Prelude.{◌≡◌, ◌≤◌, IfOk, IsSomeAnd};
ghost use Rattle.plcr_base.specs.Chains.{result_map};
ghost use Rattle.plcr_regs.specs.Frames.{IfFrame, IsOfThread, frame_lookup};
ghost use Rattle.plcr_regs.specs.Outcomes.{step_in};
ghost use Rattle.plcr_compact.specs.Callers.{answered, caller_from, compact_frame};
ghost use Rattle.plcr_compact.specs.Sections.{found_at, section_of};

use crate::bad::{NO_ENTRY, NO_UNWIND_INFO};
use crate::caller::Words;
use crate::calling::caller_by;
use crate::carrying::read_caller;
use crate::decoding::encoding;
use crate::finding::find_in;
use crate::layout::{MOST_OFFSET, SECTION_HEADER};
use crate::section::Found;
use plcr_leb128::{Piece, Stored};
use plcr_macho::{Image, Part};
use plcr_memory::Memory;
use plcr_regs::{Frame, Outcome, Step};

/// Where an image's section lies, with room for its header.
#[tactic(auto, unfolding(crate::specs::Sections::section_of))]
pub fn section(image: &Image) -> Result<Part, u8>
    ensures { result ≡ section_of image.now.unwind }
{
    match image.unwind {
        Some(part) if part.size >= SECTION_HEADER => Ok(part),
        _ => Err(NO_UNWIND_INFO),
    }
}

/// What an image's compact unwind information says of the function that has an address, which is so
/// far from the image's header.
#[tactic(auto, unfolding(crate::specs::Sections::found_at), using(crate::proofs::Standing::stored_found))]
pub fn find(memory: &Memory, image: &Image, offset: u64) -> Result<Found, u8>
    ensures { result ≡ found_at memory.now image.now offset }
{
    let part = section(image)?;
    if offset > MOST_OFFSET {
        return Err(NO_ENTRY);
    }
    match memory.stored(part.at, part.size) {
        Some(bytes) => find_in(&Stored(bytes), offset),
        None => find_in(&Piece::new(memory, part.at, part.size), offset),
    }
}

// Puts the caller of a frame into room by what is said of its function.
#[tactic(auto, unfolding(crate::specs::Callers::caller_from))]
fn caller_from(
    memory: &Memory,
    image: &Image,
    frame: &Frame,
    found: &Found,
    room: &mut Frame,
) -> Result<(), u8>
    ensures frame { result_map (λ _. room.new) result ≡ caller_from memory.now image.now frame.now
        found.now }
    ensures thread { IfOk result (λ _. IsOfThread frame.now room.new) }
{
    let encoding = encoding(frame.registers.arch, found.encoding)?;
    let start = image.header.wrapping_add(found.function);
    let mut words = Words::new();
    let caller = caller_by(memory, start, frame, &encoding, &mut words)?;
    read_caller(memory, frame, caller, words.as_slice(), room)
}

/// What `step_from` says, where the caller is put into room.
pub fn step_from_into(
    memory: &Memory,
    image: &Image,
    frame: &Frame,
    found: &Found,
    room: &mut Frame,
) -> Outcome
    ensures caller { step_in result room.new
        ≡ answered (caller_from memory.now image.now frame.now found.now) }
    ensures thread { IfFrame (step_in result room.new) (IsOfThread frame.now) }
{
    match caller_from(memory, image, frame, found, room) {
        Ok(()) => Outcome::Caller,
        Err(bad) => Outcome::Bad(bad),
    }
}

/// The caller of a frame by what `find` says of its function. It is never told that there is no
/// caller.
pub fn step_from(memory: &Memory, image: &Image, frame: &Frame, found: &Found) -> Step
    ensures caller { result ≡ answered (caller_from memory.now image.now frame.now found.now) }
    ensures thread { IfFrame result (IsOfThread frame.now) }
{
    let mut room = *frame;
    match caller_from(memory, image, frame, found, &mut room) {
        Ok(()) => Step::Frame(room),
        Err(bad) => Step::Bad(bad),
    }
}

/// The caller of a frame by its image's compact unwind information (compact_unwind_encoding.h). The
/// registers that functions keep stay as they are, those that the encoding names are replaced, and
/// all others are unknown. It is never told that there is no caller; why none is found is one of
/// the numbers of this crate.
#[tactic(auto, unfolding(crate::specs::Callers::compact_frame))]
pub fn step(memory: &Memory, image: &Image, frame: &Frame) -> Step
    requires { IsSomeAnd (frame_lookup frame.now) (λ address. image.now.header ≤ address) }
    ensures caller { result ≡ compact_frame memory.now image.now frame.now }
    ensures thread { IfFrame result (IsOfThread frame.now) }
{
    let Some(address) = frame.lookup() else {
        unreachable!()
    };
    match find(memory, image, address - image.header) {
        Ok(found) => step_from(memory, image, frame, &found),
        Err(bad) => Step::Bad(bad),
    }
}
