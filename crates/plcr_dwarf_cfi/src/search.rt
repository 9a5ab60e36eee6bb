//! The frame description entry of the code at an address.
ghost use Rattle.std.specs.Prelude.{◌≡◌, ◌+◌, ◌<◌, ◌^◌};
ghost use Rattle.plcr_dwarf_cfi.specs.Entries.{covers, description_at, description_for, description_in, description_over, entry_at, entry_of};
ghost use Rattle.plcr_dwarf_cfi.specs.Sections.{within};
ghost use Rattle.plcr_dwarf_cfi.specs.inner.Settings.{section};
ghost use Rattle.plcr_dwarf_cfi.specs.inner.Texts.{IsRecent};

use crate::common::{Recent, common_before, common_in, extent_at, id_of};
use crate::entries::{CommonInformation, Entry, Extent, FrameDescription};
use crate::fault::CallFrameFault;
use crate::passing::code_in;
use crate::sections::{Surroundings, Within};
use plcr_leb128::Cells;

// The fields of a frame description entry through its range.
fn description_in<C: Cells>(
    cells: &C,
    around: &Surroundings<'_>,
    extent: Extent,
    common: CommonInformation,
) -> Result<FrameDescription, CallFrameFault>
    requires { extent.start + 4 < 2 ^ 64 }
    ensures { result ≡ description_in (section (C.cells cells.now) around.now) extent common }
{
    let code = code_in(cells, around, extent, &common)?;
    Ok(FrameDescription {
        common,
        initial_location: code.start,
        address_range: code.range,
        rest: Extent {
            start: code.rest,
            end: extent.end,
        },
    })
}

fn description_at<C: Cells>(
    cells: &C,
    around: &Surroundings<'_>,
    extent: Extent,
    id: u32,
    recent: &mut Option<Recent>,
) -> Result<Entry, CallFrameFault>
    requires start { extent.start + 4 < 2 ^ 64 }
    requires recent { IsRecent (section (C.cells cells.now) around.now) recent.old }
    ensures entry { result ≡ description_at (section (C.cells cells.now) around.now) extent id }
    ensures recent { IsRecent (section (C.cells cells.now) around.now) recent.new }
{
    let common = common_before(cells, around, extent.start, id, recent)?;
    let description = description_in(&Within::new(cells, extent), around, extent, common)?;
    Ok(Entry::Description(description))
}

fn entry_of<C: Cells>(
    cells: &C,
    around: &Surroundings<'_>,
    extent: Extent,
    id: u32,
    recent: &mut Option<Recent>,
) -> Result<Entry, CallFrameFault>
    requires start { extent.start + 4 < 2 ^ 64 }
    requires recent { IsRecent (section (C.cells cells.now) around.now) recent.old }
    ensures entry { result ≡ entry_of (section (C.cells cells.now) around.now) extent id }
    ensures recent { IsRecent (section (C.cells cells.now) around.now) recent.new }
{
    if id == 0 {
        let common = common_in(cells, around, extent)?;
        return Ok(Entry::Common(common));
    }
    description_at(cells, around, extent, id, recent)
}

/// The entry at a place, and the place of the next one.
#[tactic(auto, unfolding(crate::specs::Entries::entry_at))]
pub fn entry_at<C: Cells>(
    cells: &C,
    around: &Surroundings<'_>,
    place: u128,
    recent: &mut Option<Recent>,
) -> Result<Option<(Entry, u128)>, CallFrameFault>
    requires { IsRecent (section (C.cells cells.now) around.now) recent.old }
    ensures entry { result ≡ entry_at (section (C.cells cells.now) around.now) place }
    ensures recent { IsRecent (section (C.cells cells.now) around.now) recent.new }
{
    if place >= u128::from(around.size) {
        return Ok(None);
    }
    let extent = extent_at(cells, around, place as u64)?;
    if extent.end == u128::from(extent.start) {
        return Ok(None);
    }
    let id = id_of(cells, around, extent)?;
    let entry = entry_of(cells, around, extent, id, recent)?;
    Ok(Some((entry, extent.end)))
}

fn covers(description: &FrameDescription, address: u64) -> bool
    ensures { result ≡ covers description.now address }
{
    description.initial_location <= address
        && address - description.initial_location < description.address_range
}

/// The entry's description, where it is one of code at the address.
pub fn description_over(entry: &Entry, address: u64) -> Option<FrameDescription>
    ensures { result ≡ description_over address entry.now }
{
    match entry {
        Entry::Description(description) if covers(description, address) => Some(*description),
        _ => None,
    }
}

/// The first frame description entry of the code at an address, where no bad entry stands before
/// it.
#[tactic(auto, using(crate::proofs::Searches::search_start, crate::proofs::Searches::search_ends, crate::proofs::Searches::search_hits, crate::proofs::Searches::search_goes, crate::proofs::Searches::search_fails, crate::proofs::Searches::search_out))]
pub fn description_for<C: Cells>(
    cells: &C,
    around: &Surroundings<'_>,
    address: u64,
) -> Result<FrameDescription, CallFrameFault>
    ensures { result ≡ description_for (section (C.cells cells.now) around.now) address }
{
    let mut recent = None;
    let mut place = 0;
    for _done in 0..u128::from(around.size) + 1 {
        match entry_at(cells, around, place, &mut recent) {
            Ok(Some((entry, next))) => {
                if let Some(description) = description_over(&entry, address) {
                    return Ok(description);
                }
                place = next;
            }
            Ok(None) => return Err(CallFrameFault::NotCovered),
            Err(fault) => return Err(fault),
        }
    }
    Err(CallFrameFault::Truncated)
}
