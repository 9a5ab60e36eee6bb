//! Descriptions that a search passes over, of which no more is read than tells that.
ghost use Rattle.std.specs.Prelude.{◌≡◌, ◌+◌, ◌-◌, ◌<◌, ◌^◌, ◌&&◌, nat_le, nat_lt, IfSome, Ok};
ghost use Rattle.plcr_base.specs.Chains.{result_map};
ghost use Rattle.plcr_dwarf_cfi.specs.Entries.{common_before, description_in};
ghost use Rattle.plcr_dwarf_cfi.specs.Sections.{within};
ghost use Rattle.plcr_dwarf_cfi.specs.inner.Fronts.{IsNamed, IsPassed, described};
ghost use Rattle.plcr_dwarf_cfi.specs.inner.Settings.{section};
ghost use Rattle.plcr_dwarf_cfi.specs.inner.Texts.{IsRecent};

use crate::common::{Recent, extent_at, id_of};
use crate::entries::{CommonInformation, Extent};
use crate::fault::CallFrameFault;
use crate::pointers::{number_of, pointer_at};
use crate::sections::{Surroundings, Within};
use plcr_leb128::Cells;

/// The code that a description is of, and the place behind its range.
#[derive(Clone, Copy)]
pub struct Code {
    pub start: u64,
    pub range: u64,
    pub rest: u64,
}

/// The code of a description that was passed over, and the place of the next entry.
#[derive(Clone, Copy)]
pub struct Passed {
    pub start: u64,
    pub range: u64,
    pub next: u128,
}

impl Code {
    // Whether an address is one of the code.
    fn has(&self, address: u64) -> bool
        ensures { result ≡ (nat_le self.now.start address
            && nat_lt (address - self.now.start) self.now.range) }
    {
        self.start <= address && address - self.start < self.range
    }
}

/// The code that a frame description entry is of.
#[tactic(auto, unfolding(crate::specs::Entries::description_in))]
pub fn code_in<C: Cells>(
    cells: &C,
    around: &Surroundings<'_>,
    extent: Extent,
    common: &CommonInformation,
) -> Result<Code, CallFrameFault>
    requires { extent.start + 4 < 2 ^ 64 }
    ensures { result_map (described extent common.now) result
        ≡ description_in (section (C.cells cells.now) around.now) extent common.now }
{
    let start = pointer_at(cells, around, common.pointers, extent.start + 4)?;
    let range = number_of(cells, common.pointers.format, start.next)?;
    Ok(Code {
        start: start.value,
        range: range.value,
        rest: range.next,
    })
}

// The extent of an entry at a place that is neither the end nor a common information entry, and
// its id.
#[tactic(auto)]
fn named_at<C: Cells>(cells: &C, around: &Surroundings<'_>, place: u128) -> Option<(Extent, u32)>
    ensures named { IfSome result
        (λ named. IsNamed (section (C.cells cells.now) around.now) place named.0 named.1) }
    ensures within { IfSome result (λ named. named.0.start + 4 < 2 ^ 64) }
{
    if place >= u128::from(around.size) {
        return None;
    }
    let Ok(extent) = extent_at(cells, around, place as u64) else {
        return None;
    };
    if extent.end == u128::from(extent.start) {
        return None;
    }
    let Ok(id) = id_of(cells, around, extent) else {
        return None;
    };
    if id == 0 {
        return None;
    }
    Some((extent, id))
}

// What was read last, where it is the common information entry so many bytes before a place.
fn recent_before<'a, C: Cells>(
    _cells: &C,
    _around: &Surroundings<'_>,
    place: u64,
    id: u32,
    recent: &'a Option<Recent>,
) -> Option<&'a CommonInformation>
    requires { IsRecent (section (C.cells _cells.now) _around.now) recent.now }
    ensures { IfSome result (λ common. common_before (section (C.cells _cells.now) _around.now)
        place id ≡ Ok common.now) }
{
    let Some(last) = recent else {
        return None;
    };
    let Some(at) = place.checked_sub(u64::from(id)) else {
        return None;
    };
    if at == last.place {
        Some(&last.common)
    } else {
        None
    }
}

/// The description at a place, where it isn't one of code at the address and its common information
/// entry is the one that was read last.
#[tactic(auto)]
pub fn passed_at<C: Cells>(
    cells: &C,
    around: &Surroundings<'_>,
    place: u128,
    address: u64,
    recent: &Option<Recent>,
) -> Option<Passed>
    requires { IsRecent (section (C.cells cells.now) around.now) recent.now }
    ensures { IfSome result (IsPassed (section (C.cells cells.now) around.now) place address) }
{
    let (extent, id) = named_at(cells, around, place)?;
    let common = recent_before(cells, around, extent.start, id, recent)?;
    let Ok(code) = code_in(&Within::new(cells, extent), around, extent, common) else {
        return None;
    };
    if code.has(address) {
        return None;
    }
    Some(Passed {
        start: code.start,
        range: code.range,
        next: extent.end,
    })
}
