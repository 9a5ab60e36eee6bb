ghost use Rattle.std.specs.Prelude.{◌≡◌, ◌≤◌, ◌<◌, ◌+◌, ◌^◌, length, true, is_some};
ghost use Rattle.plcr_memory.specs.Regions.{bytes_at};
ghost use Rattle.plcr_symbols.specs.declared.limits.TheConstants.{NAME_PIECE};
ghost use Rattle.plcr_symbols.specs.Symbols.{named, zero_within};
ghost use Rattle.plcr_symbols.specs.inner.Pieces.{IsPieceOf};

use crate::limits::{NAME_PIECE, SYMBOL_NAME_BYTES};
use crate::symbol::SymbolAt;
use memchr::memchr;
use plcr_memory::Memory;

/// What stands in a piece of memory.
pub enum Piece {
    /// Some byte of it isn't mapped.
    Unmapped,
    /// No zero.
    NoZero,
    /// The first zero, behind so many bytes.
    Zero(u32),
}

// What stands in as many bytes from an address on as the buffer has.
fn piece_at(memory: &Memory, at: u64, buffer: &mut [u8]) -> Piece
    requires { length buffer.old < 2 ^ 32 }
    ensures { IsPieceOf memory.now at (length buffer.old) result }
{
    if !memory.copy(at, buffer) {
        return Piece::Unmapped;
    }
    match memchr(0, buffer) {
        Some(place) => Piece::Zero(place as u32),
        None => Piece::NoZero,
    }
}

// What stands in so many bytes behind so many that are mapped.
fn piece_behind(memory: &Memory, at: u64, done: u32, size: u32) -> Piece
    requires mapped { is_some (bytes_at memory.now at done) ≡ true }
    requires least { 1 ≤ size }
    requires most { size ≤ NAME_PIECE }
    ensures { IsPieceOf memory.now (at + done) size result }
{
    let Some(from) = at.checked_add(u64::from(done)) else {
        // The proof reads here that what is mapped ends within the addresses.
        let _mapped = memory.is_mapped(at, u64::from(done) + 1);
        return Piece::Unmapped;
    };
    let mut bytes = [0; NAME_PIECE];
    piece_at(memory, from, &mut bytes[..size as usize])
}

// How many bytes stand from an address on before the first zero, which is to be one of so many. A
// piece that isn't wholly mapped is halved.
fn zero_within(memory: &Memory, at: u64, most: u32) -> Option<u32>
    ensures { result ≡ zero_within memory.now most at }
{
    let mut done = 0;
    let mut size = NAME_PIECE as u32;
    while done < most {
        size = u32::min(size, most - done);
        match piece_behind(memory, at, done, size) {
            Piece::Zero(place) => return Some(done + place),
            Piece::NoZero => done += size,
            Piece::Unmapped if size > 1 => size /= 2,
            Piece::Unmapped => return None,
        }
    }
    None
}

/// A symbol whose name has at most `name_len` bytes, with the length of the name, which ends with a
/// zero among these.
#[tactic(auto, unfolding(crate::specs::Symbols::named))]
pub fn named(memory: &Memory, symbol: SymbolAt) -> Option<SymbolAt>
    ensures { result ≡ named memory.now symbol }
{
    let most = u32::min(symbol.name_len, SYMBOL_NAME_BYTES + 1);
    let name_len = zero_within(memory, symbol.name_at, most)?;
    Some(SymbolAt { name_len, ..symbol })
}
