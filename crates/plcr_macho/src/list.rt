ghost use Rattle.std.specs.Prelude.{◌≡◌, ◌*◌, ◌^◌, ℕ, ◌<◌, ◌≤◌, length, slice_index};
ghost use Rattle.std.proofs.Common.{refl, ◌∙◌};
ghost use Rattle.plcr_base.specs.Bytes.{IsBytes};
ghost use Rattle.plcr_base.specs.Numbers.{u64_in};
ghost use Rattle.plcr_macho.specs.Images.{all_listed};
ghost use Rattle.plcr_macho.specs.Index.{located};
ghost use Rattle.plcr_macho.specs.Plain.{unindexed};
ghost use Rattle.plcr_macho.specs.Spots.{IsIndexOf};

use crate::images::Images;
use crate::spot::Spot;
use crate::spots::{locate_in, put_spot, settle};
use arrayvec::ArrayVec;
use plcr_base::{IMAGE_NAME_BYTES, read_padded_u64};
use plcr_memory::Memory;
use plcr_regs::Arch;
use std::marker::Model;
use std::mem;

/// An image of a plain list: the address of its header, and its name.
#[derive(Drop)]
pub struct PlainImage {
    pub header: u64,
    pub name: ArrayVec<u8, IMAGE_NAME_BYTES>,
}

impl PlainImage {
    /// How many bytes the name has. Each is below 256.
    pub fn name_len(&self) -> usize
        ensures length { result ≡ length self.now.name.items }
        ensures bytes { IsBytes self.now.name.items }
    {
        byte_count(self.name.as_slice())
    }

    /// The bytes 8j to 8j + 7 of the name, the lowest first, with zeros past its end.
    pub fn name_word(&self, j: usize) -> u64
        requires { 8 * j < length self.now.name.items }
        ensures { result ≡ u64_in self.now.name.items (8 * j) }
    {
        read_padded_u64(self.name.as_slice(), 8 * j)
    }
}

/// A plain list as a list of images, with room for its index.
#[derive(Drop)]
pub struct ListImages<'a> {
    images: &'a [PlainImage],
    room: &'a mut [Spot],
    /// How many spots of the room are the index, where there is one.
    filled: Option<usize>,
}

impl<'a> Model for ListImages<'a> {
    ghost use Rattle.std.specs.Prelude.{◌≤◌, length};
    ghost use Rattle.plcr_macho.specs.Plain.{PlainList, plain_list};
    ghost use Rattle.plcr_macho.specs.inner.Searching.{IsIndexed};

    ghost Value = { PlainList };

    ghost view = { λ l. plain_list l.images.now l.room.now l.filled };

    ghost invariant = { λ l. (length l.images.now ≤ length l.room.now)
        × IsIndexed (length l.images.now) l.room.now l.filled };
}

impl<'a> ListImages<'a> {
    /// The images of the slice, in order, without an index. The room has to be at least as long.
    pub fn new(images: &'a [PlainImage], room: &'a mut [Spot]) -> ListImages<'a>
        requires { length images.now ≤ length room.old }
        ensures { result ≡ unindexed images.now }
    {
        ListImages {
            images,
            room,
            filled: None,
        }
    }

    // How many images there are.
    fn len(&self) -> usize
        ensures { result ≡ length self.now.images }
    {
        self.images.len()
    }

    // The least position of those that have the address.
    fn place_of(&self, address: u64) -> Option<usize>
        ensures { result ≡ located self.now.extents address }
    {
        match self.filled {
            Some(filled) => locate_in(&self.room[..filled], address),
            None => None,
        }
    }
}

// Puts the spots of a list's images into a room, and makes them its index. Gives how many there
// are.
fn index_plain(images: &[PlainImage], memory: &Memory, arch: Arch, room: &mut [Spot]) -> usize
    requires room { length images.now ≤ length room.old }
    requires few { length images.now < 2 ^ 32 }
    ensures index { IsIndexOf memory.now arch (all_listed images.now) room.new result }
    ensures room { length room.new ≡ length room.old }
{
    let mut filled = 0;
    for (position, image) in images.iter().enumerate() {
        filled = put_spot(room, filled, memory, arch, position as u32, image.header);
    }
    settle(room, filled);
    filled
}

// How many bytes there are. Each is below 256.
fn byte_count(bytes: &[u8]) -> usize
    ensures length { result ≡ length bytes.now }
    ensures bytes { IsBytes bytes.now }
{
    bytes.len()
}

impl Images for ListImages<'_> {
    ghost images = { λ l. l.images };

    ghost extents = { λ l. l.extents };

    ghost follows = { λ x y. y.images ≡ x.images };

    fn count(&self) -> usize {
        self.len()
    }

    fn header(&mut self, i: usize) -> u64 {
        let images = self.images;
        images[i].header
    }

    fn name_len(&mut self, i: usize) -> usize {
        let images = self.images;
        images[i].name_len()
    }

    fn name_word(&mut self, i: usize, j: usize) -> u64 {
        let images = self.images;
        images[i].name_word(j)
    }

    fn index(&mut self, memory: &Memory, arch: Arch) {
        let room = mem::take(&mut self.room);
        let filled = index_plain(self.images, memory, arch, room);
        self.room = room;
        self.filled = Some(filled);
    }

    fn locate(&mut self, address: u64) -> Option<usize> {
        self.place_of(address)
    }

    ghost follows_itself = { λ x. refl };

    ghost follows_on = { λ x y z p q. q ∙ p };
}
