//! Words of a section, and fields of words.
ghost use Rattle.std.specs.Prelude.{◌≡◌, ◌≤◌, ◌<◌};
ghost use Rattle.plcr_compact.specs.Sections.{field, half, word};

use crate::bad::MISSING_WORD;
use plcr_leb128::Cells;

/// The word at a place of the section.
#[tactic(auto, unfolding(crate::specs::Sections::word))]
pub fn word<C: Cells>(section: &C, place: u64) -> Result<u32, u8>
    ensures { result ≡ word (C.cells section.now) place }
{
    section.read_u32(place).ok_or(MISSING_WORD)
}

/// The number of 2 bytes at a place of the section.
#[tactic(auto, unfolding(crate::specs::Sections::half))]
pub fn half<C: Cells>(section: &C, place: u64) -> Result<u16, u8>
    ensures { result ≡ half (C.cells section.now) place }
{
    section.read_u16(place).ok_or(MISSING_WORD)
}

/// The bits of a word under a mask that has some, as a number.
#[tactic(auto, unfolding(crate::specs::Sections::field), using(crate::proofs::Fields::lowest_within, crate::proofs::Fields::field_most))]
pub fn field(word: u32, mask: u32) -> u32
    requires { 0 < mask }
    ensures field { result ≡ field word mask }
    ensures most { result ≤ mask }
{
    (word & mask) >> mask.trailing_zeros()
}
