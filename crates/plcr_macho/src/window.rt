ghost use Rattle.std.specs.Prelude.{◌≡◌, ◌<◌, ◌≤◌, ◌+◌, ◌^◌, ℕ, IfSome, is_some, length, Some};
ghost use Rattle.std.specs.Bool.{OnTrue};
ghost use Rattle.plcr_memory.specs.Regions.{byte_at, bytes_at};

use plcr_memory::Memory;
use std::marker::Model;

/// The bytes from an address on, where all are mapped.
pub fn bytes_from<const N: usize>(memory: &Memory, at: u64) -> Option<[u8; N]>
    ensures { result ≡ bytes_at memory.now at N }
{
    let mut bytes = [0; N];
    if memory.copy(at, &mut bytes) {
        Some(bytes)
    } else {
        None
    }
}

/// The memory of a process. The bytes of one range are at hand, where the file has them one after
/// the other, so that reading them takes no search among the regions. Contracts see the memory.
#[derive(Drop)]
pub struct Window<'a> {
    memory: &'a Memory,
    start: u64,
    stored: &'a [u8],
}

impl<'a> Model for Window<'a> {
    ghost use Rattle.plcr_memory.specs.Regions.{Contents};
    ghost use Rattle.plcr_macho.specs.inner.Windows.{IsAtHand};

    ghost Value = { Contents };

    ghost view = { λ w. w.memory.now };

    ghost invariant = { λ w. IsAtHand w.memory.now w.start w.stored.now };
}

impl<'a> Window<'a> {
    /// A memory, with the bytes of a range at hand if one region has them in the file.
    pub fn new(memory: &'a Memory, start: u64, size: u64) -> Window<'a>
        ensures { result ≡ memory.now }
    {
        match memory.stored(start, size) {
            Some(stored) => Window {
                memory,
                start,
                stored,
            },
            None => Window {
                memory,
                start,
                stored: &[],
            },
        }
    }

    // The bytes of a range, if they are at hand.
    fn at_hand(&self, at: u64, size: u64) -> Option<&[u8]>
        ensures bytes { IfSome result (λ piece. bytes_at self.now at size ≡ Some piece.now) }
        ensures length { IfSome result (λ piece. length piece.now ≡ size) }
        ensures ends { IfSome result (λ piece. at + size ≤ 2 ^ 64) }
    {
        let place = at.checked_sub(self.start)?;
        let left = (self.stored.len() as u64).checked_sub(place)?;
        if size <= left {
            let from = place as usize;
            Some(&self.stored[from..from + size as usize])
        } else {
            None
        }
    }

    /// The bytes from an address on, where all are mapped.
    pub fn bytes_from<const N: usize>(&self, at: u64) -> Option<[u8; N]>
        ensures { result ≡ bytes_at self.now at N }
    {
        match self.at_hand(at, N as u64) {
            Some(piece) => {
                let mut bytes = [0; N];
                bytes.copy_from_slice(piece);
                Some(bytes)
            }
            None => bytes_from(self.memory, at),
        }
    }

    /// Whether each byte of a range is mapped.
    pub fn is_mapped(&self, at: u64, size: u64) -> bool
        ensures mapped { result ≡ is_some (bytes_at self.now at size) }
        ensures within { OnTrue result (at + size ≤ 2 ^ 64) }
    {
        self.at_hand(at, size).is_some() || self.memory.is_mapped(at, size)
    }

    /// How many bytes from an address on are zero, so far as the file has none of them. None counts
    /// of those at hand.
    pub fn zeros_from(&self, at: u64) -> u64
        ensures { (k : ℕ) → k < result → byte_at self.now (at + k) ≡ Some 0 }
    {
        if self.at_hand(at, 1).is_some() {
            0
        } else {
            self.memory.zeros_from(at)
        }
    }
}
