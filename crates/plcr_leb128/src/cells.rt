ghost use Rattle.std.specs.Prelude.{◌≡◌, ◌+◌, ◌<◌, ◌^◌, ℕ, List, Option, OnSome, is_some};
ghost use Rattle.std.specs.Bool.{OnTrue};
ghost use Rattle.plcr_leb128.specs.Cells.{bytes_of, number_in};

/// Bytes at places, where numbers are read from. A place counts from the start of the bytes.
pub trait Cells {
    ghost cells: { Self → ℕ → ℕ → Option (List ℕ) };

    /// Whether so many bytes from a place on are there. None are there up to the end.
    fn has(&self, place: u64, count: u64) -> bool
        ensures there { result ≡ is_some (cells self.now place count) }
        ensures within { OnTrue result (place + count < 2 ^ 64) };

    /// The byte at a place, where it is there.
    fn read_u8(&self, place: u64) -> Option<u8>
        ensures byte { result ≡ bytes_of (cells self.now) place }
        ensures within { OnSome result (place + 1 < 2 ^ 64) };

    /// The little-endian number of the 2 bytes from a place on, where all are there.
    fn read_u16(&self, place: u64) -> Option<u16>
        ensures number { result ≡ number_in 2 (cells self.now) place }
        ensures within { OnSome result (place + 2 < 2 ^ 64) };

    /// The little-endian number of the 4 bytes from a place on, where all are there.
    fn read_u32(&self, place: u64) -> Option<u32>
        ensures number { result ≡ number_in 4 (cells self.now) place }
        ensures within { OnSome result (place + 4 < 2 ^ 64) };

    /// The little-endian number of the 8 bytes from a place on, where all are there.
    fn read_u64(&self, place: u64) -> Option<u64>
        ensures number { result ≡ number_in 8 (cells self.now) place }
        ensures within { OnSome result (place + 8 < 2 ^ 64) };
}
