ghost use Rattle.std.specs.Prelude.{◌≡◌, ◌≤◌, ◌<◌, ◌+◌, ◌^◌, length, IfOk, IfSome};
ghost use Rattle.plcr_base.specs.Chains.{passed};
ghost use Rattle.plcr_memory.specs.Regions.{IsBacked};
ghost use Rattle.plcr_core.specs.Segments.{region_in, segment_trouble};

use plcr_loader::Trouble;
use plcr_loader::segment_command_64::{FILEOFF, FILESIZE, LENGTH, VMADDR, VMSIZE};
use plcr_memory::Region;

/// The region of an LC_SEGMENT_64 in a file of `file_length` bytes, None where it is empty.
#[tactic(auto, unfolding(crate::specs::Segments::segment_trouble, crate::specs::Segments::region_in))]
pub fn segment_region(
    command: &[u8],
    index: u32,
    file_length: usize,
) -> Result<Option<Region>, Trouble>
    ensures region { result
        ≡ passed (region_in command.now) (segment_trouble file_length index command.now) }
    ensures backed { IfOk result (λ region. IfSome region (λ r.
        (r.from + r.len ≤ file_length) × (r.len ≤ r.size) × (1 ≤ r.size))) }
{
    if command.len() < LENGTH {
        return Err(Trouble::Bad { index });
    }
    let start = VMADDR.read_u64(command);
    let size = VMSIZE.read_u64(command);
    let offset = FILEOFF.read_u64(command);
    let in_file = FILESIZE.read_u64(command);
    let length = file_length as u64;
    if in_file > 0 && (offset > length || length - offset < in_file) {
        return Err(Trouble::Absent { place: offset });
    }
    if size == 0 {
        return Ok(None);
    }
    let from = if in_file == 0 { 0 } else { offset as usize };
    let len = in_file.min(size) as usize;
    Ok(Some(Region {
        start,
        size,
        from,
        len,
    }))
}
