ghost use Rattle.std.specs.Prelude.{◌≡◌, ◌+◌, ◌<◌, ◌^◌, nat_le};
ghost use Rattle.std.specs.Bool.{OnTrue};
ghost use Rattle.plcr_leb128.specs.Cells.{piece_bytes};

use crate::cells::Cells;
use plcr_memory::Memory;

/// So many bytes of memory from an address on, as places from 0. Addresses are added modulo 2^64,
/// and a number of a fixed size that passes 2^64 isn't there.
#[derive(Clone, Copy)]
pub struct Piece<'m> {
    pub memory: &'m Memory,
    pub at: u64,
    pub size: u64,
}

impl<'m> Piece<'m> {
    /// The bytes from an address on.
    pub fn new(memory: &'m Memory, at: u64, size: u64) -> Self
        ensures memory { result.memory.now ≡ memory.now }
        ensures at { result.at ≡ at }
        ensures size { result.size ≡ size }
    {
        Piece { memory, at, size }
    }

    // Whether so many bytes from a place on are within the piece.
    fn holds(&self, place: u64, count: u64) -> bool
        ensures holds { result ≡ nat_le (place + count) self.now.size }
        ensures within { OnTrue result (place + count < 2 ^ 64) }
    {
        count <= self.size && place <= self.size - count
    }
}

impl Cells for Piece<'_> {
    ghost cells = { λ p. piece_bytes p.memory.now p.at p.size };

    #[tactic(auto, using(crate::proofs::Fixed::piece_has, crate::proofs::Fixed::piece_lacks))]
    fn has(&self, place: u64, count: u64) -> bool {
        self.holds(place, count) && self.memory.is_mapped(self.at.wrapping_add(place), count)
    }

    #[tactic(auto, using(crate::proofs::Fixed::piece_byte, crate::proofs::Fixed::piece_end))]
    fn read_u8(&self, place: u64) -> Option<u8> {
        if self.holds(place, 1) {
            self.memory.read_u8(self.at.wrapping_add(place))
        } else {
            None
        }
    }

    #[tactic(auto, using(crate::proofs::Fixed::piece_number, crate::proofs::Fixed::piece_short))]
    fn read_u16(&self, place: u64) -> Option<u16> {
        if self.holds(place, 2) {
            self.memory.read_u16(self.at.wrapping_add(place))
        } else {
            None
        }
    }

    #[tactic(auto, using(crate::proofs::Fixed::piece_number, crate::proofs::Fixed::piece_short))]
    fn read_u32(&self, place: u64) -> Option<u32> {
        if self.holds(place, 4) {
            self.memory.read_u32(self.at.wrapping_add(place))
        } else {
            None
        }
    }

    #[tactic(auto, using(crate::proofs::Fixed::piece_number, crate::proofs::Fixed::piece_short))]
    fn read_u64(&self, place: u64) -> Option<u64> {
        if self.holds(place, 8) {
            self.memory.read_u64(self.at.wrapping_add(place))
        } else {
            None
        }
    }
}
