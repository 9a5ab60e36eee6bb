ghost use Rattle.std.specs.Prelude.{◌↔◌, IsTrue, All};
ghost use Rattle.plcr_memory.specs.Regions.{IsBacked};

/// A range of addresses, from `start` to `start + size - 1`. Its first `len` bytes are those from
/// place `from` of the file, as of a segment with `vmaddr`, `vmsize`, `fileoff` and `filesize`
/// (loader.h), and the rest are zero.
#[derive(Clone, Copy, Debug, PartialEq, Eq)]
pub struct Region {
    pub start: u64,
    pub size: u64,
    pub from: usize,
    pub len: usize,
}

impl Region {
    // Whether its bytes stand in the file and within the region, which isn't empty.
    fn is_backed(&self, file: &[u8]) -> bool
        ensures { IsTrue result ↔ IsBacked file.now self.now }
    {
        let in_file = self.from <= file.len() && self.len <= file.len() - self.from;
        in_file && self.size >= 1 && self.len as u64 <= self.size
    }
}

/// Whether a memory can be made of the regions over the file: the bytes of each stand in the file
/// and within the region, and none is empty.
pub fn are_backed(file: &[u8], regions: &[Region]) -> bool
    ensures { IsTrue result ↔ All (IsBacked file.now) regions.now }
{
    regions.iter().all(|region| region.is_backed(file))
}
