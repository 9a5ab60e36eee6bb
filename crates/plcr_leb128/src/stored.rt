ghost use Rattle.std.specs.Prelude.{◌≡◌, ◌+◌, ◌≤◌, ◌<◌, length, IfSome, IfNone};
ghost use Rattle.plcr_leb128.specs.Cells.{list_bytes};

use crate::cells::Cells;
use plcr_base::{read_u16, read_u32, read_u64};

/// The bytes of a slice, as places from 0: of a file, or of memory where they stand one after the
/// other in the file.
#[derive(Clone, Copy)]
pub struct Stored<'a>(pub &'a [u8]);

impl Stored<'_> {
    // The place as an index, where so many bytes from it on are in the slice.
    fn index(&self, place: u64, count: usize) -> Option<usize>
        ensures within { IfSome result (λ i. (i ≡ place) × (i + count ≤ length self.now.0.now)) }
        ensures past { IfNone result (length self.now.0.now < place + count) }
    {
        let index = usize::try_from(place).ok()?;
        if count <= self.0.len() && index <= self.0.len() - count {
            Some(index)
        } else {
            None
        }
    }
}

impl Cells for Stored<'_> {
    ghost cells = { λ s. list_bytes s.0.now };

    #[tactic(auto, using(crate::proofs::Fixed::list_has, crate::proofs::Fixed::list_lacks))]
    fn has(&self, place: u64, count: u64) -> bool {
        let size = self.0.len() as u64;
        count <= size && place <= size - count
    }

    #[tactic(auto, using(crate::proofs::Fixed::list_byte, crate::proofs::Fixed::list_end))]
    fn read_u8(&self, place: u64) -> Option<u8> {
        let index = self.index(place, 1)?;
        Some(self.0[index])
    }

    #[tactic(auto, unfolding(plcr_base::specs::Numbers::u16_in), using(crate::proofs::Fixed::list_number, crate::proofs::Fixed::list_short))]
    fn read_u16(&self, place: u64) -> Option<u16> {
        let index = self.index(place, 2)?;
        Some(read_u16(self.0, index))
    }

    #[tactic(auto, unfolding(plcr_base::specs::Numbers::u32_in), using(crate::proofs::Fixed::list_number, crate::proofs::Fixed::list_short))]
    fn read_u32(&self, place: u64) -> Option<u32> {
        let index = self.index(place, 4)?;
        Some(read_u32(self.0, index))
    }

    #[tactic(auto, unfolding(plcr_base::specs::Numbers::u64_in), using(crate::proofs::Fixed::list_number, crate::proofs::Fixed::list_short))]
    fn read_u64(&self, place: u64) -> Option<u64> {
        let index = self.index(place, 8)?;
        Some(read_u64(self.0, index))
    }
}
