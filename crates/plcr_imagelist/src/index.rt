//! The index of the images that a hold has met, in the room of its pass.
ghost use Rattle.std.specs.Prelude.{◌≡◌, ◌≤◌, length, vec_len, vec_capacity};
ghost use Rattle.plcr_macho.specs.Index.{index_of, least_over};
ghost use Rattle.plcr_macho.specs.Spots.{IsIndexOf};
ghost use Rattle.plcr_imagelist.specs.inner.Indexing.{met_on, AreHeld, StaysHeld};
ghost use Rattle.plcr_imagelist.specs.Walk.{images_of, IsSameWalk};

use crate::hold::Hold;
use crate::list::ImageList;
use plcr_macho::{Spot, locate_in, put_spot, settle};
use plcr_memory::Memory;
use plcr_nodes::{NodePass, Nodes};
use plcr_regs::Arch;

// Makes a room at least as long as this. It has the capacity: pages of it that no index ever needs
// stay untouched.
fn lengthen(spots: &mut Vec<Spot>, count: usize)
    requires { count ≤ vec_capacity spots.old }
    ensures long { count ≤ vec_len spots.new }
    ensures room { vec_capacity spots.old ≤ vec_capacity spots.new }
{
    if spots.len() < count {
        let spot = Spot {
            start: 0,
            size: 0,
            reach: 0,
            position: 0,
        };
        match spots.resize(count, spot) {
            Ok(()) => {}
            Err(_) => unreachable!(),
        }
    }
}

// Reads the header of each image that was met, and makes the images' index in a room. Gives how
// many spots it has.
fn index_met(
    pass: &mut NodePass,
    met: &[u32],
    list: &Nodes,
    room: &mut [Spot],
    memory: &Memory,
    arch: Arch,
) -> usize
    requires table { pass.old.table ≡ list.now }
    requires held { AreHeld pass.old met.now }
    requires room { length met.now ≤ length room.old }
    ensures index { IsIndexOf memory.now arch (met_on pass.old met.now) room.new result }
    ensures held { StaysHeld pass.old met.now pass.new }
    ensures nodes { pass.new.nodes ≡ pass.old.nodes }
    ensures room { length room.new ≡ length room.old }
{
    let mut filled = 0;
    for (at, node) in met.iter().enumerate() {
        let header = pass.payload(list, *node, 0);
        filled = put_spot(room, filled, memory, arch, at as u32, header);
    }
    settle(room, filled);
    filled
}

impl Hold {
    /// Makes the index of the images met, for a memory and an architecture.
    pub(crate) fn index(&mut self, list: &ImageList, memory: &Memory, arch: Arch)
        requires { self.old.walker.table ≡ list.now }
        ensures index { self.new.extents ≡ index_of memory.now arch (images_of self.old) }
        ensures same { IsSameWalk self.old self.new }
    {
        let count = self.met.len();
        lengthen(&mut self.spots, count);
        let met = self.met.as_slice();
        let room = self.spots.as_mut_slice();
        self.filled = index_met(&mut self.pass, met, &list.nodes, room, memory, arch);
        self.count = count;
    }

    /// The least place of those images that have the address, by the index.
    pub(crate) fn place_of(&self, address: u64) -> Option<usize>
        ensures { result ≡ least_over self.now.extents address }
    {
        locate_in(&self.spots.as_slice()[..self.filled], address)
    }
}
