//! What was found in the sections of a memory, kept so that an address is searched once, and the
//! front of a section that was read so that others are found sooner.
ghost use Rattle.std.specs.Bool.{OnTrue};
ghost use Rattle.std.specs.Prelude.{◌≡◌, ◌<◌, All, IfSome, IsSome};
ghost use Rattle.plcr_regs.specs.Frames.{IfFrame, IsOfThread, frame_lookup};
ghost use Rattle.plcr_regs.specs.Outcomes.{step_in};
ghost use Rattle.plcr_dwarf_cfi.specs.Caller.{call_frame};
ghost use Rattle.plcr_dwarf_cfi.specs.Entries.{description_for};
ghost use Rattle.plcr_dwarf_cfi.specs.Sections.{section_at};
ghost use Rattle.plcr_dwarf_cfi.specs.inner.Fronts.{IsRun};
ghost use Rattle.plcr_dwarf_cfi.specs.inner.Keeping.{FrontHolds, Holds, IsFound};

use crate::entries::FrameDescription;
use crate::fault::CallFrameFault;
use crate::front::{FRONT_RUNS, Run, description_with};
use crate::sections::Surroundings;
use crate::steps::{step_in, step_with};
use crate::table::RowTable;
use plcr_leb128::{Piece, Stored};
use plcr_macho::{Image, Part};
use plcr_memory::Memory;
use plcr_regs::{Frame, Outcome, Step};
use std::marker::Model;

/// The answers for so many addresses are kept.
pub const KNOWN_DESCRIPTIONS: usize = 1024;

/// The fronts of so many sections are kept.
pub const KNOWN_FRONTS: usize = 32;

// Addresses of code have much in common, so that slots are chosen by all of their bits (Knuth,
// multiplicative hashing).
const SPREAD: u64 = 0x9e37_79b9_7f4a_7c15;

/// What a search of a section for an address gave.
#[derive(Clone, Copy)]
pub struct KnownDescription {
    pub part: Part,
    pub address: u64,
    pub answer: Result<FrameDescription, CallFrameFault>,
}

/// The front of a section that was read.
#[derive(Clone, Copy)]
pub struct KnownFront {
    pub part: Part,
    pub runs: [Run; FRONT_RUNS],
}

// The slot of an address.
fn slot_of(address: u64) -> usize
    ensures { result < KNOWN_DESCRIPTIONS }
{
    let spread = address.wrapping_mul(SPREAD) >> 32;
    (spread % KNOWN_DESCRIPTIONS as u64) as usize
}

// The slot of a section.
fn front_slot(part: Part) -> usize
    ensures { result < KNOWN_FRONTS }
{
    let spread = part.at.wrapping_mul(SPREAD) >> 32;
    (spread % KNOWN_FRONTS as u64) as usize
}

#[tactic(auto, using(crate::proofs::Running::run_empty))]
#[inline(always)]
fn no_runs(memory: &Memory, part: Part) -> [Run; FRONT_RUNS]
    ensures { All (IsRun (section_at memory.now part.at part.size)) result }
{
    [Run::at(0); FRONT_RUNS]
}

#[inline(always)]
fn no_front(memory: &Memory, part: Part) -> KnownFront
    ensures { FrontHolds memory.now result }
{
    let runs = no_runs(memory, part);
    KnownFront { part, runs }
}

#[inline(always)]
fn no_fronts(memory: &Memory) -> [KnownFront; KNOWN_FRONTS]
    ensures { All (FrontHolds memory.now) result }
{
    [no_front(memory, Part { at: 0, size: 0 }); KNOWN_FRONTS]
}

// What `find` says, over the front of the section that was read.
#[tactic(auto, using(crate::proofs::Stored::stored_description, crate::proofs::Stored::runs_stored, crate::proofs::Stored::stored_runs))]
fn find_with(
    memory: &Memory,
    part: Part,
    address: u64,
    runs: &mut [Run; FRONT_RUNS],
) -> Result<FrameDescription, CallFrameFault>
    requires { All (IsRun (section_at memory.now part.at part.size)) runs.old }
    ensures found { IsFound memory.now part address result }
    ensures known { All (IsRun (section_at memory.now part.at part.size)) runs.new }
{
    let around = Surroundings {
        memory,
        at: part.at,
        size: part.size,
    };
    match memory.stored(part.at, part.size) {
        Some(bytes) => description_with(&Stored(bytes), &around, address, runs),
        None => {
            let piece = Piece::new(memory, part.at, part.size);
            description_with(&piece, &around, address, runs)
        }
    }
}

// Whether the front that is kept is that of a section.
fn is_front(_memory: &Memory, front: &KnownFront, part: Part) -> bool
    requires { FrontHolds _memory.now front.now }
    ensures { OnTrue result
        (All (IsRun (section_at _memory.now part.at part.size)) front.now.runs) }
{
    front.part.at == part.at && front.part.size == part.size
}

// What `find` says, and the front is kept that was read.
fn find_in(
    memory: &Memory,
    part: Part,
    address: u64,
    front: &mut KnownFront,
) -> Result<FrameDescription, CallFrameFault>
    requires { FrontHolds memory.now front.old }
    ensures found { IsFound memory.now part address result }
    ensures known { FrontHolds memory.now front.new }
{
    let kept = is_front(memory, front, part);
    front.part = part;
    if kept {
        return find_with(memory, part, address, &mut front.runs);
    }
    front.runs = no_runs(memory, part);
    find_with(memory, part, address, &mut front.runs)
}

// What is kept of an address in a section.
fn recall(
    memory: &Memory,
    slots: &[Option<KnownDescription>; KNOWN_DESCRIPTIONS],
    part: Part,
    address: u64,
) -> Option<Result<FrameDescription, CallFrameFault>>
    requires { All (Holds memory.now) slots.now }
    ensures { IfSome result (IsFound memory.now part address) }
{
    match &slots[slot_of(address)] {
        Some(known)
            if known.address == address
                && known.part.at == part.at
                && known.part.size == part.size => { Some(known.answer) }
        _ => None,
    }
}

// Keeps an answer in its slot.
fn keep(
    memory: &Memory,
    slots: &mut [Option<KnownDescription>; KNOWN_DESCRIPTIONS],
    known: KnownDescription,
)
    requires hold { All (Holds memory.now) slots.old }
    requires is { IsFound memory.now known.part known.address known.answer }
    ensures { All (Holds memory.now) slots.new }
{
    let slot = slot_of(known.address);
    slots[slot] = Some(known);
}

#[inline(always)]
fn no_descriptions(memory: &Memory) -> [Option<KnownDescription>; KNOWN_DESCRIPTIONS]
    ensures { All (Holds memory.now) result }
{
    [None; KNOWN_DESCRIPTIONS]
}

/// A memory, with what was found in its sections in room of fixed size, faults too. Contracts see
/// the memory.
#[derive(Drop)]
pub struct KnownDescriptions<'m> {
    memory: &'m Memory,
    slots: [Option<KnownDescription>; KNOWN_DESCRIPTIONS],
    fronts: [KnownFront; KNOWN_FRONTS],
    table: RowTable,
}

impl<'m> Model for KnownDescriptions<'m> {
    ghost use Rattle.plcr_memory.specs.Regions.{Contents};
    ghost use Rattle.plcr_dwarf_cfi.specs.inner.Keeping.{HoldAll};

    ghost Value = { Contents };

    ghost view = { λ k. k.memory.now };

    ghost invariant = { λ k. HoldAll k.memory.now k.slots k.fronts };
}

impl<'m> KnownDescriptions<'m> {
    /// A memory in whose sections nothing was looked for.
    #[inline(always)]
    pub fn new(memory: &'m Memory) -> KnownDescriptions<'m>
        ensures { result ≡ memory.now }
    {
        let slots = no_descriptions(memory);
        let fronts = no_fronts(memory);
        KnownDescriptions {
            memory,
            slots,
            fronts,
            table: RowTable::new(),
        }
    }

    /// What `find` says.
    pub fn find(&mut self, part: Part, address: u64) -> Result<FrameDescription, CallFrameFault>
        ensures found { result ≡ description_for (section_at self.old part.at part.size) address }
        ensures same { self.new ≡ self.old }
    {
        if let Some(answer) = recall(self.memory, &self.slots, part, address) {
            return answer;
        }
        let front = &mut self.fronts[front_slot(part)];
        let answer = find_in(self.memory, part, address, front);
        let known = KnownDescription {
            part,
            address,
            answer,
        };
        keep(self.memory, &mut self.slots, known);
        answer
    }

    /// What `step` says, where the caller is put into room.
    #[tactic(auto, unfolding(crate::specs::Caller::call_frame))]
    pub fn step_into(&mut self, image: &Image, frame: &Frame, room: &mut Frame) -> Outcome
        requires { IsSome (frame_lookup frame.now) }
        ensures caller { step_in result room.new ≡ call_frame self.old image.now frame.now }
        ensures thread { IfFrame (step_in result room.new) (IsOfThread frame.now) }
        ensures same { self.new ≡ self.old }
    {
        let Some(part) = image.eh_frame else {
            return Outcome::Bad(CallFrameFault::NoSection.number());
        };
        let Some(address) = frame.lookup() else {
            unreachable!()
        };
        let found = self.find(part, address);
        step_with(self.memory, &part, frame, &found, &mut self.table, room)
    }

    /// What `step` says.
    pub fn step(&mut self, image: &Image, frame: &Frame) -> Step
        requires { IsSome (frame_lookup frame.now) }
        ensures caller { result ≡ call_frame self.old image.now frame.now }
        ensures thread { IfFrame result (IsOfThread frame.now) }
        ensures same { self.new ≡ self.old }
    {
        let mut room = *frame;
        let outcome = self.step_into(image, frame, &mut room);
        step_in(outcome, room)
    }
}
