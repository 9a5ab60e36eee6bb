//! An index of addresses, in room that was taken before it: sorted once, and then searched by
//! halves.
ghost use Rattle.std.specs.Prelude.{◌≡◌, ◌≤◌, ◌<◌, ◌+◌, ◌++◌, length, take};
ghost use Rattle.std.specs.List.Sorted.{IsPermutation};
ghost use Rattle.plcr_macho.specs.Index.{extent_at, least_over};
ghost use Rattle.plcr_macho.specs.Loading.{image_at};
ghost use Rattle.plcr_macho.specs.Spots.{extents_of, extent_of, IsSearchable, Settles, Reaches};
ghost use Rattle.plcr_macho.specs.inner.Searching.{counted};

use crate::parsing::parse;
use crate::spot::Spot;
use plcr_memory::Memory;
use plcr_regs::Arch;

/// Puts the spot of the image at a header behind the first spots of the room, where that image can
/// be read. Gives how many there are then.
pub fn put_spot(
    room: &mut [Spot],
    filled: usize,
    memory: &Memory,
    arch: Arch,
    position: u32,
    header: u64,
) -> usize
    requires { filled < length room.old }
    ensures spots { extents_of (take result room.new) ≡ extents_of (take filled room.old)
        ++ extent_at position (image_at memory.now arch header) }
    ensures more { (filled ≤ result) × (result ≤ filled + 1) }
    ensures room { length room.new ≡ length room.old }
{
    match parse(memory, arch, header) {
        Ok(image) => {
            room[filled] = Spot {
                start: image.header,
                size: image.text_size,
                reach: 0,
                position,
            };
            filled + 1
        }
        Err(_) => filled,
    }
}

/// Makes the first spots of a room, which were put there image by image, an index.
pub fn settle(room: &mut [Spot], filled: usize)
    requires { filled ≤ length room.old }
    ensures settles { Settles room.old room.new filled }
    ensures room { length room.new ≡ length room.old }
{
    sort(&mut room[..filled]);
}

// Sorts spots so that they can be searched.
fn sort(spots: &mut [Spot])
    ensures same { IsPermutation (extents_of spots.old) (extents_of spots.new) }
    ensures searchable { IsSearchable spots.new }
    ensures room { length spots.new ≡ length spots.old }
{
    spots.sort_unstable_by_key(|spot| spot.start);
    set_reaches(spots);
}

// Gives each spot the greatest end of the spots up to it.
fn set_reaches(spots: &mut [Spot])
    ensures same { extents_of spots.new ≡ extents_of spots.old }
    ensures reaches { Reaches spots.new }
    ensures room { length spots.new ≡ length spots.old }
{
    let mut reach = 0;
    for i in 0..spots.len() {
        let spot = spots[i];
        reach = spot.start.saturating_add(spot.size).max(reach);
        spots[i].reach = reach;
    }
}

// The lesser of a position that was found and that of a spot, if the spot has the address.
fn counted(spot: &Spot, address: u64, found: Option<u32>) -> Option<u32>
    ensures { result ≡ counted address (extent_of spot.now) found }
{
    if spot.start <= address && address - spot.start < spot.size {
        match found {
            Some(position) => Some(spot.position.min(position)),
            None => Some(spot.position),
        }
    } else {
        found
    }
}

// The least position of the spots that have the address.
fn least_in(spots: &[Spot], address: u64) -> Option<u32>
    requires { IsSearchable spots.now }
    ensures { result ≡ least_over (extents_of spots.now) address }
{
    let mut left = spots.partition_point(|spot| spot.start <= address);
    let mut found = None;
    while left > 0 && spots[left - 1].reach >= address {
        left -= 1;
        found = counted(&spots[left], address, found);
    }
    found
}

/// The least position of the spots that have the address. It looks only at spots that start by the
/// address, from the last one down, and no further than where all the others end before it.
pub fn locate_in(spots: &[Spot], address: u64) -> Option<usize>
    requires { IsSearchable spots.now }
    ensures { result ≡ least_over (extents_of spots.now) address }
{
    match least_in(spots, address) {
        Some(position) => Some(position as usize),
        None => None,
    }
}
