//! Sections of call frame information, and what is read of them at places.
ghost use Rattle.std.specs.Prelude.{◌≡◌, ◌+◌, ◌<◌, ◌≤◌, ◌^◌, OnOk, IfOk};
ghost use Rattle.plcr_dwarf_cfi.specs.Sections.{byte, fixed, front_of, passed_over, signed, unsigned};
ghost use Rattle.plcr_dwarf_cfi.specs.inner.Settings.{section};
ghost use Rattle.plcr_leb128.specs.Cells.{bytes_of};

use crate::entries::Extent;
use crate::fault::CallFrameFault;
use plcr_leb128::{Cells, Number, read_signed, read_unsigned};
use plcr_memory::Memory;

/// A length of 32 bits that is followed by one of 64 bits.
pub const EXTENDED_LENGTH: u32 = 0xffff_ffff;

/// Where the bytes of a section stand: its address and size, and the memory.
#[derive(Clone, Copy)]
pub struct Surroundings<'m> {
    pub memory: &'m Memory,
    pub at: u64,
    pub size: u64,
}

/// Bytes at places of which only those up to an end are read.
#[derive(Clone, Copy)]
pub struct Within<'c, C> {
    pub cells: &'c C,
    pub end: u128,
}

impl<'c, C: Cells> Within<'c, C> {
    /// The bytes of an entry.
    pub fn new(cells: &'c C, extent: Extent) -> Self
        ensures cells { result.cells.now ≡ cells.now }
        ensures end { result.end ≡ extent.end }
    {
        Within {
            cells,
            end: extent.end,
        }
    }
}

impl<C: Cells> Cells for Within<'_, C> {
    ghost cells = { λ w. front_of w.end (C.cells w.cells.now) };

    #[tactic(auto, using(crate::proofs::Fronts::front_has, crate::proofs::Fronts::front_lacks))]
    fn has(&self, place: u64, count: u64) -> bool {
        u128::from(place) + u128::from(count) <= self.end && self.cells.has(place, count)
    }

    #[tactic(auto, using(crate::proofs::Fronts::front_byte, crate::proofs::Fronts::front_end))]
    fn read_u8(&self, place: u64) -> Option<u8> {
        if u128::from(place) + 1 <= self.end {
            self.cells.read_u8(place)
        } else {
            None
        }
    }

    #[tactic(auto, using(crate::proofs::Fronts::front_number, crate::proofs::Fronts::front_short))]
    fn read_u16(&self, place: u64) -> Option<u16> {
        if u128::from(place) + 2 <= self.end {
            self.cells.read_u16(place)
        } else {
            None
        }
    }

    #[tactic(auto, using(crate::proofs::Fronts::front_number, crate::proofs::Fronts::front_short))]
    fn read_u32(&self, place: u64) -> Option<u32> {
        if u128::from(place) + 4 <= self.end {
            self.cells.read_u32(place)
        } else {
            None
        }
    }

    #[tactic(auto, using(crate::proofs::Fronts::front_number, crate::proofs::Fronts::front_short))]
    fn read_u64(&self, place: u64) -> Option<u64> {
        if u128::from(place) + 8 <= self.end {
            self.cells.read_u64(place)
        } else {
            None
        }
    }
}

/// The byte at a place.
pub fn byte<C: Cells>(cells: &C, at: u64) -> Result<u8, CallFrameFault>
    ensures number { result ≡ byte (C.cells cells.now) at }
    ensures within { OnOk result (at + 1 < 2 ^ 64) }
{
    cells.read_u8(at).ok_or(CallFrameFault::Truncated)
}

/// The number of 2 bytes at a place.
pub fn two_bytes<C: Cells>(cells: &C, at: u64) -> Result<u16, CallFrameFault>
    ensures number { result ≡ fixed 2 (C.cells cells.now) at }
    ensures within { OnOk result (at + 2 < 2 ^ 64) }
{
    cells.read_u16(at).ok_or(CallFrameFault::Truncated)
}

/// The number of 4 bytes at a place.
pub fn four_bytes<C: Cells>(cells: &C, at: u64) -> Result<u32, CallFrameFault>
    ensures number { result ≡ fixed 4 (C.cells cells.now) at }
    ensures within { OnOk result (at + 4 < 2 ^ 64) }
{
    cells.read_u32(at).ok_or(CallFrameFault::Truncated)
}

/// The number of 8 bytes at a place.
pub fn eight_bytes<C: Cells>(cells: &C, at: u64) -> Result<u64, CallFrameFault>
    ensures number { result ≡ fixed 8 (C.cells cells.now) at }
    ensures within { OnOk result (at + 8 < 2 ^ 64) }
{
    cells.read_u64(at).ok_or(CallFrameFault::Truncated)
}

/// The unsigned LEB128 number at a place.
pub fn unsigned<C: Cells>(cells: &C, at: u64) -> Result<Number, CallFrameFault>
    ensures { result ≡ unsigned (C.cells cells.now) at }
{
    match read_unsigned(cells, at) {
        Ok(number) => Ok(number),
        Err(_) => Err(CallFrameFault::Truncated),
    }
}

/// The signed LEB128 number at a place.
pub fn signed<C: Cells>(cells: &C, at: u64) -> Result<Number, CallFrameFault>
    ensures { result ≡ signed (C.cells cells.now) at }
{
    match read_signed(cells, at) {
        Ok(number) => Ok(number),
        Err(_) => Err(CallFrameFault::Truncated),
    }
}

/// Passes over a length and so many bytes of an entry. The number is where they begin, and the
/// place behind it where they end.
pub fn pass_over<C: Cells>(
    cells: &C,
    around: &Surroundings<'_>,
    extent: Extent,
    at: u64,
) -> Result<Number, CallFrameFault>
    ensures { result ≡ passed_over (section (C.cells cells.now) around.now) extent at }
{
    let length = unsigned(cells, at)?;
    if length.next > around.size || length.value > around.size - length.next {
        return Err(CallFrameFault::Truncated);
    }
    let next = length.next + length.value;
    if u128::from(next) > extent.end {
        return Err(CallFrameFault::Truncated);
    }
    Ok(Number {
        value: length.next,
        next,
    })
}
