ghost use Rattle.std.specs.Prelude.{◌≡◌, IsSome, IfOk};
ghost use Rattle.plcr_base.specs.Chains.{result_map};
ghost use Rattle.plcr_regs.specs.Frames.{IfFrame, IsOfThread, frame_lookup};
ghost use Rattle.plcr_regs.specs.Outcomes.{step_in};
ghost use Rattle.plcr_dwarf_cfi.specs.Caller.{call_frame, caller_from, caller_in, looked_for, register_numbers, told};
ghost use Rattle.plcr_dwarf_cfi.specs.Entries.{description_for};
ghost use Rattle.plcr_dwarf_cfi.specs.Rows.{row_at};
ghost use Rattle.plcr_dwarf_cfi.specs.Sections.{section_at};

use crate::caller::{caller_by, register_numbers};
use crate::entries::FrameDescription;
use crate::fault::CallFrameFault;
use crate::sections::Surroundings;
use crate::table::RowTable;
use crate::unwind::row_at;
use plcr_leb128::{Piece, Stored};
use plcr_macho::{Image, Part};
use plcr_memory::Memory;
use plcr_regs::{Frame, Outcome, Step};

/// The first frame description entry of a section that is one of code at an address, where no bad
/// entry stands before it.
#[tactic(auto, using(crate::proofs::Stored::stored_description))]
pub fn find(
    memory: &Memory,
    section: &Part,
    address: u64,
) -> Result<FrameDescription, CallFrameFault>
    ensures { result ≡ description_for (section_at memory.now section.now.at section.now.size)
        address }
{
    let around = Surroundings {
        memory,
        at: section.at,
        size: section.size,
    };
    match memory.stored(section.at, section.size) {
        Some(bytes) => crate::search::description_for(&Stored(bytes), &around, address),
        None => {
            let piece = Piece::new(memory, section.at, section.size);
            crate::search::description_for(&piece, &around, address)
        }
    }
}

// Makes the row of the table that at an address.
#[tactic(auto, using(crate::proofs::Stored::stored_row))]
fn row_for(
    memory: &Memory,
    section: &Part,
    frame: &Frame,
    description: &FrameDescription,
    address: u64,
    table: &mut RowTable,
) -> Result<(), CallFrameFault>
    ensures { result_map (λ _. table.new.row) result
        ≡ row_at (section_at memory.now section.now.at section.now.size)
        (register_numbers frame.now.registers.arch) description.now address }
{
    let count = register_numbers(frame.registers.arch);
    let around = Surroundings {
        memory,
        at: section.at,
        size: section.size,
    };
    match memory.stored(section.at, section.size) {
        Some(bytes) => row_at(&Stored(bytes), &around, count, description, address, table),
        None => {
            let piece = Piece::new(memory, section.at, section.size);
            row_at(&piece, &around, count, description, address, table)
        }
    }
}

#[tactic(auto, unfolding(crate::specs::Caller::caller_from))]
fn caller_from(
    memory: &Memory,
    section: &Part,
    frame: &Frame,
    address: u64,
    description: &FrameDescription,
    table: &mut RowTable,
    room: &mut Frame,
) -> Result<Outcome, CallFrameFault>
    ensures caller { result_map (λ outcome. step_in outcome room.new) result
        ≡ caller_from (section_at memory.now section.now.at section.now.size) frame.now address
        description.now }
    ensures thread { IfOk result (λ outcome.
        IfFrame (step_in outcome room.new) (IsOfThread frame.now)) }
{
    row_for(memory, section, frame, description, address, table)?;
    caller_by(memory, frame, &description.common, table.row(), room)
}

/// Puts the caller of a frame into room by what `find` answers for its lookup address. The table
/// is room too.
pub fn step_with(
    memory: &Memory,
    section: &Part,
    frame: &Frame,
    found: &Result<FrameDescription, CallFrameFault>,
    table: &mut RowTable,
    room: &mut Frame,
) -> Outcome
    requires { IsSome (frame_lookup frame.now) }
    ensures caller { step_in result room.new
        ≡ caller_in (section_at memory.now section.now.at section.now.size) frame.now found.now }
    ensures thread { IfFrame (step_in result room.new) (IsOfThread frame.now) }
{
    let Some(address) = frame.lookup() else {
        unreachable!()
    };
    let description = match found {
        Ok(description) => description,
        Err(fault) => return Outcome::Bad(fault.number()),
    };
    match caller_from(memory, section, frame, address, description, table, room) {
        Ok(outcome) => outcome,
        Err(fault) => Outcome::Bad(fault.number()),
    }
}

/// The step that an answer tells, with the frame in the room then.
pub fn step_in(outcome: Outcome, room: Frame) -> Step
    ensures { result ≡ step_in outcome room }
{
    match outcome {
        Outcome::Caller => Step::Frame(room),
        Outcome::End => Step::End,
        Outcome::Bad(number) => Step::Bad(number),
    }
}

/// The caller of a frame by what `find` answers for its lookup address, which a caller may have
/// kept.
pub fn step_from(
    memory: &Memory,
    section: &Part,
    frame: &Frame,
    found: &Result<FrameDescription, CallFrameFault>,
) -> Step
    requires { IsSome (frame_lookup frame.now) }
    ensures caller { result ≡ caller_in (section_at memory.now section.now.at section.now.size)
        frame.now found.now }
    ensures thread { IfFrame result (IsOfThread frame.now) }
{
    let mut table = RowTable::new();
    let mut room = *frame;
    let outcome = step_with(memory, section, frame, found, &mut table, &mut room);
    step_in(outcome, room)
}

/// What `step` says, where the caller is put into room.
#[tactic(auto, unfolding(crate::specs::Caller::call_frame))]
pub fn step_into(memory: &Memory, image: &Image, frame: &Frame, room: &mut Frame) -> Outcome
    requires { IsSome (frame_lookup frame.now) }
    ensures caller { step_in result room.new ≡ call_frame memory.now image.now frame.now }
    ensures thread { IfFrame (step_in result room.new) (IsOfThread frame.now) }
{
    let Some(section) = image.eh_frame else {
        return Outcome::Bad(CallFrameFault::NoSection.number());
    };
    let Some(address) = frame.lookup() else {
        unreachable!()
    };
    let found = find(memory, &section, address);
    let mut table = RowTable::new();
    step_with(memory, &section, frame, &found, &mut table, room)
}

/// The caller of a frame by the call frame information of its image.
pub fn step(memory: &Memory, image: &Image, frame: &Frame) -> Step
    requires { IsSome (frame_lookup frame.now) }
    ensures caller { result ≡ call_frame memory.now image.now frame.now }
    ensures thread { IfFrame result (IsOfThread frame.now) }
{
    let mut room = *frame;
    let outcome = step_into(memory, image, frame, &mut room);
    step_in(outcome, room)
}
