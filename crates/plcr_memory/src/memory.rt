ghost use Rattle.std.specs.Prelude.{◌≡◌, All, IfOk, IfErr, OnOk, IfSome, IfNone, OnSome, ◌+◌, ◌≤◌, ◌<◌, ◌^◌, ℕ, Some, is_some, length};
ghost use Rattle.std.specs.Bool.{OnTrue, OnFalse};
ghost use Rattle.plcr_memory.specs.Regions.{IsBacked, Ends, AreApart, byte_at, bytes_at, is_stored, number_at, zeros_at};
ghost use Rattle.plcr_memory.specs.inner.Order.{IsHolder};
ghost use Rattle.plcr_memory.specs.Faults.{IsFault};

use crate::checks::lawful_order;
use crate::fault::MemoryFault;
use crate::order::Placed;
use crate::region::Region;
use crate::run::{copy_run, stored, stores};
use crate::search::{byte_of, region_holding};
use byteorder::{ByteOrder, LittleEndian};
use std::alloc::Global;
use std::marker::Model;

/// The memory of a stopped process. Contracts see the file's bytes and the regions, as they were
/// given.
#[derive(Drop)]
pub struct Memory {
    file: Vec<u8>,
    regions: Vec<Region>,
    order: Vec<Placed>,
}

impl Model for Memory {
    ghost use Rattle.plcr_memory.specs.Regions.{Contents};
    ghost use Rattle.plcr_memory.specs.inner.Order.{IsHeld};

    ghost Value = { Contents };

    ghost view = { λ m. record { file = m.file.items; regions = m.regions.items } };

    ghost invariant = { λ m. IsHeld m.file.items m.regions.items m.order.items };
}

impl Memory {
    /// The memory of the regions over the file's bytes. The first region that wraps is refused,
    /// then the first that shares an address with an earlier one.
    pub fn new(alloc: Global, bytes: Vec<u8>, regions: Vec<Region>) -> Result<Memory, MemoryFault>
        requires { All (IsBacked bytes.items) regions.items }
        ensures ok { IfOk result (λ m. m ≡ record { file = bytes.items; regions = regions.items }) }
        ensures lawful { OnOk result (All Ends regions.items × AreApart regions.items) }
        ensures fault { IfErr result (IsFault regions.items) }
    {
        let order = lawful_order(alloc, regions.as_slice())?;
        Ok(Memory {
            file: bytes,
            regions,
            order,
        })
    }

    // The region that covers the address `by` places past another.
    fn holder(&self, at: u64, by: u64) -> Option<Region>
        ensures found { IfSome result (IsHolder self.now (at + by)) }
        ensures none { IfNone result (byte_at self.now (at + by) ≡ None) }
    {
        match at.checked_add(by) {
            Some(at) => region_holding(self.regions.as_slice(), self.order.as_slice(), at),
            None => {
                // The proof reads the memory's invariant here: no region wraps.
                let _regions = &self.regions;
                None
            }
        }
    }

    /// The byte at an address, where a region covers it.
    pub fn read_u8(&self, at: u64) -> Option<u8>
        ensures { result ≡ byte_at self.now at }
    {
        match self.holder(at, 0) {
            Some(region) => Some(byte_of(self.file.as_slice(), &region, at)),
            None => None,
        }
    }

    /// Whether each byte of a range is mapped. An empty range is. A mapped range ends within the
    /// addresses of 64 bits.
    #[tactic(auto, using(crate::proofs::Ranges::all_mapped, crate::proofs::Ranges::one_missing, crate::proofs::Ranges::mapped_run))]
    pub fn is_mapped(&self, at: u64, size: u64) -> bool
        ensures mapped { result ≡ is_some (bytes_at self.now at size) }
        ensures within { OnTrue result (at + size ≤ 2 ^ 64) }
    {
        let mut done = 0;
        while done < size {
            let Some(region) = self.holder(at, done) else {
                return false;
            };
            let left = region.size - (at + done - region.start);
            if size - done <= left {
                return true;
            }
            done += left;
        }
        true
    }

    /// How many bytes from an address on are zero since the file has none of them: the rest of the
    /// region that covers the address, where its bytes of the file end before it. Where there is
    /// none, 0. One region is looked at.
    pub fn zeros_from(&self, at: u64) -> u64
        ensures size { result ≡ zeros_at self.now at }
        ensures zeros { (k : ℕ) → k < result → byte_at self.now (at + k) ≡ Some 0 }
    {
        let Some(region) = self.holder(at, 0) else {
            return 0;
        };
        let offset = at - region.start;
        if offset < region.len as u64 {
            0
        } else {
            region.size - offset
        }
    }

    /// Copies the bytes of a range, where each of them is mapped, and else leaves `into` as it was.
    /// A range within one region takes one search; any other is gone through twice, with a search
    /// for each of its regions.
    pub fn copy(&self, at: u64, into: &mut [u8]) -> bool
        ensures mapped { result ≡ is_some (bytes_at self.now at (length into.old)) }
        ensures within { OnTrue result (at + length into.old ≤ 2 ^ 64) }
        ensures copied { OnTrue result (bytes_at self.now at (length into.old) ≡ Some into.new) }
        ensures unchanged { OnFalse result (into.new ≡ into.old) }
    {
        if let Some(region) = self.holder(at, 0) {
            let left = region.size - (at - region.start);
            if into.len() as u64 <= left {
                copy_run(self.file.as_slice(), &region, at, into);
                return true;
            }
        }
        self.copy_across(at, into)
    }

    /// The bytes of a range where they stand in the file, one after the other, as bytes of one
    /// region. None says nothing of whether the range is mapped: it may have zeros behind a
    /// region's bytes of the file, or go on in another region. A caller then reads number by
    /// number. One region is looked at.
    pub fn stored(&self, at: u64, size: u64) -> Option<&[u8]>
        ensures bytes { IfSome result (λ piece. bytes_at self.now at size ≡ Some piece.now) }
        ensures within { OnSome result (at + size ≤ 2 ^ 64) }
        ensures held { is_some result ≡ is_stored self.now at size }
    {
        let Some(region) = self.holder(at, 0) else {
            return None;
        };
        if !stores(&region, at, size) {
            return None;
        }
        let offset = at - region.start;
        Some(stored(self.file.as_slice(), &region, offset, size as usize))
    }

    // Copies the bytes of a range of several regions, or of none.
    fn copy_across(&self, at: u64, into: &mut [u8]) -> bool
        ensures mapped { result ≡ is_some (bytes_at self.now at (length into.old)) }
        ensures within { OnTrue result (at + length into.old ≤ 2 ^ 64) }
        ensures copied { OnTrue result (bytes_at self.now at (length into.old) ≡ Some into.new) }
        ensures unchanged { OnFalse result (into.new ≡ into.old) }
    {
        if !self.is_mapped(at, into.len() as u64) {
            return false;
        }
        let mut done = 0;
        while done < into.len() {
            let Some(region) = self.holder(at, done as u64) else {
                unreachable!()
            };
            let from = at + done as u64;
            let left = region.size - (from - region.start);
            let until = if left < (into.len() - done) as u64 {
                done + left as usize
            } else {
                into.len()
            };
            copy_run(self.file.as_slice(), &region, from, &mut into[done..until]);
            done = until;
        }
        true
    }

    /// The little-endian number of 2 bytes at an address, where both are mapped.
    #[tactic(auto, unfolding(crate::specs::Regions::number_at))]
    pub fn read_u16(&self, at: u64) -> Option<u16>
        ensures number { result ≡ number_at 2 self.now at }
        ensures within { OnSome result (at + 2 ≤ 2 ^ 64) }
    {
        let mut bytes = [0; 2];
        if self.copy(at, &mut bytes) {
            Some(LittleEndian::read_u16(&bytes))
        } else {
            None
        }
    }

    /// The little-endian number of 4 bytes at an address, where all are mapped.
    #[tactic(auto, unfolding(crate::specs::Regions::number_at))]
    pub fn read_u32(&self, at: u64) -> Option<u32>
        ensures number { result ≡ number_at 4 self.now at }
        ensures within { OnSome result (at + 4 ≤ 2 ^ 64) }
    {
        let mut bytes = [0; 4];
        if self.copy(at, &mut bytes) {
            Some(LittleEndian::read_u32(&bytes))
        } else {
            None
        }
    }

    /// The little-endian number of 8 bytes at an address, where all are mapped.
    #[tactic(auto, unfolding(crate::specs::Regions::number_at))]
    pub fn read_u64(&self, at: u64) -> Option<u64>
        ensures number { result ≡ number_at 8 self.now at }
        ensures within { OnSome result (at + 8 ≤ 2 ^ 64) }
    {
        let mut bytes = [0; 8];
        if self.copy(at, &mut bytes) {
            Some(LittleEndian::read_u64(&bytes))
        } else {
            None
        }
    }
}
