//! Zeros of sections, which a region may have without end.
ghost use Rattle.std.specs.Prelude.{◌≡◌, ◌≤◌, ◌<◌, ◌+◌, ℕ, Some, replicate};

use plcr_leb128::{Cells, Piece, Stored};

/// The bytes of a section, of which zeros may be known without reading each.
pub trait SectionCells: Cells {
    /// How many bytes from a place on are known to be zero; 0 says nothing.
    fn zeros(&self, place: u64) -> u64
        ensures { (k n : ℕ) → 0 < n → k + n ≤ result
            → Self.cells self.now (place + k) n ≡ Some (replicate n 0) };
}

impl SectionCells for Stored<'_> {
    fn zeros(&self, _place: u64) -> u64 {
        0
    }
}

impl SectionCells for Piece<'_> {
    // The zeros that a region has behind its bytes of the file.
    fn zeros(&self, place: u64) -> u64 {
        if place >= self.size {
            return 0;
        }
        let at = self.at.wrapping_add(place);
        let zeros = u64::min(self.memory.zeros_from(at), self.size - place);
        // The bytes are mapped. This tells that they end within the addresses.
        if self.memory.is_mapped(at, zeros) {
            zeros
        } else {
            0
        }
    }
}
