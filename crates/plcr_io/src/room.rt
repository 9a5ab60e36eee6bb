//! Room for bytes that wait.
ghost use Rattle.std.specs.Prelude.{◌≡◌, ◌↔◌, ◌+◌, ◌≤◌, [], ◌++◌, length, take, drop, IsTrue, IsFalse};
ghost use Rattle.plcr_io.specs.declared.room.TheConstants.{ROOM};

use std::marker::Model;

/// The room has so many bytes: enough for few writes, and little where many outputs are open at
/// once.
pub(crate) const ROOM: usize = 16384;

/// Bytes that wait, in the order in which they came.
#[derive(Drop)]
pub(crate) struct Room {
    bytes: [u8; ROOM],
    // The bytes from `start` up to `end` wait.
    start: usize,
    end: usize,
}

impl Model for Room {
    ghost use Rattle.std.specs.Prelude.{◌≡◌, ℕ, ◌≤◌, List, take, drop};
    ghost use Rattle.plcr_io.specs.declared.room.TheConstants.{ROOM};

    ghost Value = { List ℕ };

    ghost view = { λ room. drop room.start (take room.end room.bytes) };

    ghost invariant = { λ room. (room.start ≤ room.end) × (room.end ≤ ROOM)
        × (room.start ≡ room.end → room.end ≡ 0) };
}

impl Room {
    /// Nothing waits.
    pub(crate) fn new() -> Self
        ensures { result ≡ [] }
    {
        Room {
            bytes: [0; ROOM],
            start: 0,
            end: 0,
        }
    }

    /// Whether nothing waits.
    pub(crate) fn is_empty(&self) -> bool
        ensures { IsTrue result ↔ (self.now ≡ []) }
    {
        self.waiting().is_empty()
    }

    /// The bytes that wait.
    pub(crate) fn waiting(&self) -> &[u8]
        ensures { result.now ≡ self.now }
    {
        &self.bytes[self.start..self.end]
    }

    /// Lets a piece wait behind the others. False where there is no room for it, and nothing
    /// changes then.
    pub(crate) fn hold(&mut self, piece: &[u8]) -> bool
        ensures held { IsTrue result → self.new ≡ self.old ++ piece.now }
        ensures full { IsFalse result → self.new ≡ self.old }
        ensures empty { self.old ≡ [] → length piece.now ≤ ROOM → IsTrue result }
    {
        if piece.len() > ROOM - self.end {
            return false;
        }
        place(&mut self.bytes, self.end, piece);
        self.end += piece.len();
        true
    }

    /// The first bytes wait no more.
    pub(crate) fn release(&mut self, count: usize)
        requires { count ≤ length self.old }
        ensures { self.new ≡ drop count self.old }
    {
        self.start += count;
        if self.start == self.end {
            self.start = 0;
            self.end = 0;
        }
    }
}

/// Writes a piece over the bytes from a place on.
fn place(bytes: &mut [u8], at: usize, piece: &[u8])
    requires { at + length piece.now ≤ length bytes.old }
    ensures { bytes.new ≡ take at bytes.old ++ piece.now ++ drop (at + length piece.now) bytes.old }
{
    let end = at + piece.len();
    bytes[at..end].copy_from_slice(piece);
}
