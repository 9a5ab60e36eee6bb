ghost use Rattle.std.specs.Prelude.{◌≡◌, ◌≤◌, ◌<◌, ◌+◌, ◌-◌, ℕ, length, take, drop, slice_index};
ghost use Rattle.plcr_memory.specs.Regions.{IsBacked, byte_in, stores};

use crate::region::Region;

/// Whether so many bytes from an address on stand in the file as the region's.
pub fn stores(region: &Region, at: u64, size: u64) -> bool
    requires { region.now.start ≤ at }
    ensures { result ≡ stores region.now at size }
{
    let offset = at - region.start;
    let len = region.len as u64;
    offset <= len && size <= len - offset
}

/// At most so many of the region's bytes that stand in the file, from an offset into the region on.
pub fn stored<'a>(file: &'a [u8], region: &Region, offset: u64, most: usize) -> &'a [u8]
    requires { IsBacked file.now region.now }
    ensures within { length result.now ≤ most }
    ensures bytes { result.now
        ≡ take most (drop offset (take region.now.len (drop region.now.from file.now))) }
{
    let (_, rest) = file.split_at(region.from);
    let (front, _) = rest.split_at(region.len);
    let skipped = usize::min(offset as usize, front.len());
    let (_, after) = front.split_at(skipped);
    let (piece, _) = after.split_at(usize::min(most, after.len()));
    piece
}

/// Fills `into` with the bytes from an address on that lie within one region.
pub fn copy_run(file: &[u8], region: &Region, at: u64, into: &mut [u8])
    requires backed { IsBacked file.now region.now }
    requires starts { region.now.start ≤ at }
    requires ends { at + length into.old ≤ region.now.start + region.now.size }
    ensures { (k : ℕ) → k < length into.new →
        slice_index into.new k ≡ byte_in file.now region.now (at + k) }
{
    let piece = stored(file, region, at - region.start, into.len());
    let (front, rest) = into.split_at_mut(piece.len());
    front.copy_from_slice(piece);
    rest.fill(0);
}
