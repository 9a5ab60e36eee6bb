//! What was found of the sections of a memory, kept so that each index and each page is read whole
//! once.
ghost use Rattle.std.specs.Prelude.{◌≡◌, ◌≤◌, ◌<◌, ◌^◌, All, IfOk, IfSome, IsSomeAnd};
ghost use Rattle.plcr_regs.specs.Frames.{IfFrame, IsOfThread, frame_lookup};
ghost use Rattle.plcr_regs.specs.Outcomes.{step_in};
ghost use Rattle.plcr_compact.specs.Callers.{compact_frame};
ghost use Rattle.plcr_compact.specs.inner.Keeping.{IndexHolds, IndexIs, PageHolds, PageIs};
ghost use Rattle.plcr_compact.specs.Sections.{found_at, found_in, section_at};

use crate::bad::NO_ENTRY;
use crate::compact::{section, step_from_into};
use crate::finding::{entry_of, index, page, page_for};
use crate::layout::MOST_OFFSET;
use crate::section::{Entry, Found, PageHeader, SectionHeader};
use crate::zeros::SectionCells;
use plcr_leb128::{Cells, Piece, Stored};
use plcr_macho::{Image, Part};
use plcr_memory::Memory;
use plcr_regs::{Frame, Outcome};
use std::marker::Model;

/// The indexes of so many images are kept.
pub const KNOWN_INDEXES: usize = 1024;

/// So many pages are kept.
pub const KNOWN_PAGES: usize = 1024;

// Linkers lay pages at multiples of their size, so that slots are chosen by all bits of a place
// (Knuth, multiplicative hashing).
const SPREAD: u64 = 0x9e37_79b9_7f4a_7c15;

/// What reading the index of a section gave.
#[derive(Clone, Copy)]
pub struct KnownIndex {
    pub part: Part,
    pub answer: Result<SectionHeader, u8>,
}

/// What reading the page gave that an entry of a section's index leads to.
#[derive(Clone, Copy)]
pub struct KnownPage {
    pub part: Part,
    pub entry: Entry,
    pub answer: Result<PageHeader, u8>,
}

// What is kept in a slot, where it is of this section.
fn recall_index(
    memory: &Memory,
    slots: &[Option<KnownIndex>; KNOWN_INDEXES],
    slot: usize,
    part: Part,
) -> Option<Result<SectionHeader, u8>>
    requires { All (IndexHolds memory.now) slots.now }
    ensures { IfSome result (IndexIs memory.now part) }
{
    let known = slots[slot % KNOWN_INDEXES]?;
    if known.part.at == part.at && known.part.size == part.size {
        Some(known.answer)
    } else {
        None
    }
}

// Keeps an answer in a slot.
fn keep_index(
    memory: &Memory,
    slots: &mut [Option<KnownIndex>; KNOWN_INDEXES],
    slot: usize,
    known: KnownIndex,
)
    requires hold { All (IndexHolds memory.now) slots.old }
    requires is { IndexIs memory.now known.part known.answer }
    ensures { All (IndexHolds memory.now) slots.new }
{
    slots[slot % KNOWN_INDEXES] = Some(known);
}

// The slot of a page.
fn page_slot(part: Part, entry: &Entry) -> usize
    ensures { result < KNOWN_PAGES }
{
    let place = part.at.wrapping_add(u64::from(entry.value));
    let spread = place.wrapping_mul(SPREAD) >> 32;
    (spread % KNOWN_PAGES as u64) as usize
}

// What is kept in a slot, where it is of the page of this entry.
fn recall_page(
    memory: &Memory,
    slots: &[Option<KnownPage>; KNOWN_PAGES],
    part: Part,
    entry: &Entry,
) -> Option<Result<PageHeader, u8>>
    requires { All (PageHolds memory.now) slots.now }
    ensures { IfSome result (PageIs memory.now part entry.now) }
{
    let known = slots[page_slot(part, entry)]?;
    let same_part = known.part.at == part.at && known.part.size == part.size;
    if same_part && known.entry.function == entry.function && known.entry.value == entry.value {
        Some(known.answer)
    } else {
        None
    }
}

// Keeps an answer in its slot.
fn keep_page(memory: &Memory, slots: &mut [Option<KnownPage>; KNOWN_PAGES], known: KnownPage)
    requires hold { All (PageHolds memory.now) slots.old }
    requires is { PageIs memory.now known.part known.entry known.answer }
    ensures { All (PageHolds memory.now) slots.new }
{
    let slot = page_slot(known.part, &known.entry);
    slots[slot] = Some(known);
}

#[inline(always)]
fn no_indexes(memory: &Memory) -> [Option<KnownIndex>; KNOWN_INDEXES]
    ensures { All (IndexHolds memory.now) result }
{
    [None; KNOWN_INDEXES]
}

#[inline(always)]
fn no_pages(memory: &Memory) -> [Option<KnownPage>; KNOWN_PAGES]
    ensures { All (PageHolds memory.now) result }
{
    [None; KNOWN_PAGES]
}

/// The sections of a memory, of which the indexes and pages that were read are kept in room of
/// fixed size. Contracts see the memory.
#[derive(Drop)]
pub struct KnownSections<'m> {
    memory: &'m Memory,
    indexes: [Option<KnownIndex>; KNOWN_INDEXES],
    pages: [Option<KnownPage>; KNOWN_PAGES],
}

impl<'m> Model for KnownSections<'m> {
    ghost use Rattle.std.specs.Prelude.{All};
    ghost use Rattle.plcr_memory.specs.Regions.{Contents};
    ghost use Rattle.plcr_compact.specs.inner.Keeping.{HoldAll};

    ghost Value = { Contents };

    ghost view = { λ k. k.memory.now };

    ghost invariant = { λ k. HoldAll k.memory.now k.indexes k.pages };
}

impl<'m> KnownSections<'m> {
    /// The sections of a memory, of which nothing was read.
    #[inline(always)]
    pub fn new(memory: &'m Memory) -> KnownSections<'m>
        ensures { result ≡ memory.now }
    {
        let indexes = no_indexes(memory);
        let pages = no_pages(memory);
        KnownSections {
            memory,
            indexes,
            pages,
        }
    }

    // The header of a section with its index.
    fn index<C: SectionCells>(
        &mut self,
        slot: usize,
        part: Part,
        words: &C,
    ) -> Result<SectionHeader, u8>
        requires { C.cells words.now ≡ section_at self.old part }
        ensures header { IndexIs self.old part result }
        ensures same { self.new ≡ self.old }
    {
        if let Some(answer) = recall_index(self.memory, &self.indexes, slot, part) {
            return answer;
        }
        let answer = index(words);
        keep_index(
            self.memory,
            &mut self.indexes,
            slot,
            KnownIndex { part, answer },
        );
        answer
    }

    // The head of the page that an entry of the index leads to.
    fn page<C: Cells>(&mut self, part: Part, entry: &Entry, words: &C) -> Result<PageHeader, u8>
        requires section { C.cells words.now ≡ section_at self.old part }
        requires told { entry.now.function < 2 ^ 32 }
        ensures header { PageIs self.old part entry.now result }
        ensures same { self.new ≡ self.old }
    {
        if let Some(answer) = recall_page(self.memory, &self.pages, part, entry) {
            return answer;
        }
        let answer = page(words, entry);
        let known = KnownPage {
            part,
            entry: *entry,
            answer,
        };
        keep_page(self.memory, &mut self.pages, known);
        answer
    }

    // What a section says of an offset.
    #[tactic(auto, using(crate::proofs::Founded::search_unread, crate::proofs::Founded::search_no_page, crate::proofs::Founded::search_bad_page, crate::proofs::Founded::search_found))]
    fn find_in<C: SectionCells>(
        &mut self,
        slot: usize,
        part: Part,
        words: &C,
        offset: u64,
    ) -> Result<Found, u8>
        requires { C.cells words.now ≡ section_at self.old part }
        ensures found { result ≡ found_in (section_at self.old part) offset }
        ensures same { self.new ≡ self.old }
    {
        let header = self.index(slot, part, words)?;
        let entry = page_for(words, &header, offset)?;
        let page = self.page(part, &entry, words)?;
        entry_of(words, &header.common, &entry, &page, offset)
    }

    /// What `find` says, where the image stands at this place of a list: of images at different
    /// places the indexes are kept apart.
    #[tactic(auto, unfolding(crate::specs::Sections::found_at), using(crate::proofs::Standing::stored_section))]
    pub fn find(&mut self, place: usize, image: &Image, offset: u64) -> Result<Found, u8>
        ensures found { result ≡ found_at self.old image.now offset }
        ensures same { self.new ≡ self.old }
    {
        let part = section(image)?;
        if offset > MOST_OFFSET {
            return Err(NO_ENTRY);
        }
        let memory = self.memory;
        match memory.stored(part.at, part.size) {
            Some(bytes) => self.find_in(place, part, &Stored(bytes), offset),
            None => {
                let words = Piece::new(memory, part.at, part.size);
                self.find_in(place, part, &words, offset)
            }
        }
    }

    /// What `step` says, where the image stands at this place of a list and the caller is put into
    /// room.
    #[tactic(auto, unfolding(crate::specs::Callers::compact_frame))]
    pub fn step_into(
        &mut self,
        place: usize,
        image: &Image,
        frame: &Frame,
        room: &mut Frame,
    ) -> Outcome
        requires { IsSomeAnd (frame_lookup frame.now) (λ address. image.now.header ≤ address) }
        ensures caller { step_in result room.new ≡ compact_frame self.old image.now frame.now }
        ensures thread { IfFrame (step_in result room.new) (IsOfThread frame.now) }
        ensures same { self.new ≡ self.old }
    {
        let Some(address) = frame.lookup() else {
            unreachable!()
        };
        let memory = self.memory;
        match self.find(place, image, address - image.header) {
            Ok(found) => step_from_into(memory, image, frame, &found, room),
            Err(bad) => Outcome::Bad(bad),
        }
    }
}
