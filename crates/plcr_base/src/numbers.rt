ghost use Rattle.std.specs.Prelude.{◌≡◌, ◌+◌, ◌≤◌, length, slice_index};
ghost use Rattle.plcr_base.specs.Numbers.{u16_in, u32_in, u64_in};

use byteorder::{ByteOrder, LittleEndian};

/// The little-endian number of 2 bytes at place `at`.
#[tactic(auto, unfolding(crate::specs::Numbers::u16_in))]
pub fn read_u16(bytes: &[u8], at: usize) -> u16
    requires { at + 2 ≤ length bytes.now }
    ensures { result ≡ u16_in bytes.now at }
{
    let (_, rest) = bytes.split_at(at);
    LittleEndian::read_u16(rest)
}

/// The little-endian number of 4 bytes at place `at`.
#[tactic(auto, unfolding(crate::specs::Numbers::u32_in))]
pub fn read_u32(bytes: &[u8], at: usize) -> u32
    requires { at + 4 ≤ length bytes.now }
    ensures { result ≡ u32_in bytes.now at }
{
    let (_, rest) = bytes.split_at(at);
    LittleEndian::read_u32(rest)
}

/// The little-endian number of 8 bytes at place `at`.
#[tactic(auto, unfolding(crate::specs::Numbers::u64_in))]
pub fn read_u64(bytes: &[u8], at: usize) -> u64
    requires { at + 8 ≤ length bytes.now }
    ensures { result ≡ u64_in bytes.now at }
{
    let (_, rest) = bytes.split_at(at);
    LittleEndian::read_u64(rest)
}

// The byte at a place, zero past the end.
#[tactic(auto, using(crate::proofs::Words::past_end))]
fn byte_or_zero(bytes: &[u8], at: usize) -> u8
    ensures { result ≡ slice_index bytes.now at }
{
    if at < bytes.len() { bytes[at] } else { 0 }
}

/// The little-endian number of the 8 bytes from place `at` on, with zeros past the end.
#[tactic(auto, unfolding(crate::specs::Numbers::u64_in))]
pub fn read_padded_u64(bytes: &[u8], at: usize) -> u64
    requires { at ≤ length bytes.now }
    ensures { result ≡ u64_in bytes.now at }
{
    let (_, rest) = bytes.split_at(at);
    LittleEndian::read_u64(&[
        byte_or_zero(rest, 0),
        byte_or_zero(rest, 1),
        byte_or_zero(rest, 2),
        byte_or_zero(rest, 3),
        byte_or_zero(rest, 4),
        byte_or_zero(rest, 5),
        byte_or_zero(rest, 6),
        byte_or_zero(rest, 7),
    ])
}
