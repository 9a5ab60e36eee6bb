//! What was found of a memory's images, kept so that it is looked for once.
ghost use Rattle.std.specs.Prelude.{◌≡◌, All, IfSome};
ghost use Rattle.std.specs.Result.{result_ok};
ghost use Rattle.plcr_macho.specs.Loading.{image_at};
ghost use Rattle.plcr_cursor.specs.inner.Keeping.{Holds, IsImage};

use crate::asked::Asked;
use plcr_compact::KnownSections;
use plcr_dwarf_cfi::KnownDescriptions;
use plcr_macho::{Image, parse};
use plcr_memory::Memory;
use plcr_regs::{Arch, Frame, Outcome};
use std::marker::Model;

/// So many images are kept.
pub const KNOWN_IMAGES: usize = 1024;

/// What stands at a header.
#[derive(Clone, Copy)]
pub struct KnownImage {
    pub arch: Arch,
    pub header: u64,
    pub image: Option<Image>,
}

// What is kept of a header.
fn recall(
    memory: &Memory,
    slots: &[Option<KnownImage>; KNOWN_IMAGES],
    slot: usize,
    arch: Arch,
    header: u64,
) -> Option<Option<Image>>
    requires { All (Holds memory.now) slots.now }
    ensures { IfSome result (IsImage memory.now arch header) }
{
    match &slots[slot % KNOWN_IMAGES] {
        Some(known) if known.arch == arch && known.header == header => Some(known.image),
        _ => None,
    }
}

// Keeps what stands at a header.
fn keep(
    memory: &Memory,
    slots: &mut [Option<KnownImage>; KNOWN_IMAGES],
    slot: usize,
    known: KnownImage,
)
    requires hold { All (Holds memory.now) slots.old }
    requires is { IsImage memory.now known.arch known.header known.image }
    ensures { All (Holds memory.now) slots.new }
{
    slots[slot % KNOWN_IMAGES] = Some(known);
}

#[inline(always)]
fn no_images(memory: &Memory) -> [Option<KnownImage>; KNOWN_IMAGES]
    ensures { All (Holds memory.now) result }
{
    [None; KNOWN_IMAGES]
}

/// A memory, with what was found of its images and of their tables in room of fixed size. Contracts
/// see the memory.
#[derive(Drop)]
pub struct Known<'m> {
    memory: &'m Memory,
    images: [Option<KnownImage>; KNOWN_IMAGES],
    sections: KnownSections<'m>,
    descriptions: KnownDescriptions<'m>,
}

impl<'m> Model for Known<'m> {
    ghost use Rattle.std.specs.Prelude.{◌≡◌, All};
    ghost use Rattle.plcr_memory.specs.Regions.{Contents};
    ghost use Rattle.plcr_cursor.specs.inner.Keeping.{Holds};

    ghost Value = { Contents };

    ghost view = { λ k. k.memory.now };

    ghost invariant = { λ k. All (Holds k.memory.now) k.images × (k.sections ≡ k.memory.now)
        × (k.descriptions ≡ k.memory.now) };
}

impl<'m> Known<'m> {
    /// A memory of which nothing was looked for.
    #[inline(always)]
    pub fn new(memory: &'m Memory) -> Known<'m>
        ensures { result ≡ memory.now }
    {
        let images = no_images(memory);
        Known {
            memory,
            images,
            sections: KnownSections::new(memory),
            descriptions: KnownDescriptions::new(memory),
        }
    }

    fn image_at(&mut self, place: usize, arch: Arch, header: u64) -> Option<Image>
        ensures image { result ≡ result_ok (image_at self.old arch header) }
        ensures same { self.new ≡ self.old }
    {
        if let Some(image) = recall(self.memory, &self.images, place, arch, header) {
            return image;
        }
        let image = parse(self.memory, arch, header).ok();
        let known = KnownImage {
            arch,
            header,
            image,
        };
        keep(self.memory, &mut self.images, place, known);
        image
    }
}

impl Asked for Known<'_> {
    ghost memory = { λ k. k };

    fn image(&mut self, place: usize, arch: Arch, header: u64) -> Option<Image> {
        self.image_at(place, arch, header)
    }

    fn compact(&mut self, place: usize, image: &Image, frame: &Frame, room: &mut Frame) -> Outcome {
        self.sections.step_into(place, image, frame, room)
    }

    fn call_frame(&mut self, image: &Image, frame: &Frame, room: &mut Frame) -> Outcome {
        self.descriptions.step_into(image, frame, room)
    }

    fn saved(&mut self, frame: &Frame, room: &mut Frame) -> Outcome {
        plcr_frameptr::step_into(self.memory, frame, room)
    }
}
