//! Common information entries (DWARF 4, section 6.4.1; Linux Standard Base Core, "The Common
//! Information Entry Format").
ghost use Rattle.std.specs.Prelude.{◌≡◌, ◌+◌, ◌<◌, ◌^◌, OnOk, IfOk};
ghost use Rattle.plcr_leb128.specs.Cells.{bytes_of};
ghost use Rattle.plcr_dwarf_cfi.specs.Entries.{common_at, common_before, common_in, extent_at, id_of, letter_at, numbers_at, return_register, version_of};
ghost use Rattle.plcr_dwarf_cfi.specs.Lists.{listed};
ghost use Rattle.plcr_dwarf_cfi.specs.Sections.{within};
ghost use Rattle.plcr_dwarf_cfi.specs.inner.Settings.{section};
ghost use Rattle.plcr_dwarf_cfi.specs.inner.Texts.{IsRecent, common_by, rest_by};

use crate::augmented::{augmentation_from, plain_pointers, text_at};
use crate::entries::{CommonInformation, Encoding, Extent, Version};
use crate::fault::CallFrameFault;
use crate::sections::{
    EXTENDED_LENGTH, Surroundings, Within, byte, eight_bytes, four_bytes, pass_over, signed,
    unsigned,
};
use plcr_leb128::{Cells, Number};

/// The common information entry that was read last, and its place. Most frame description entries
/// share theirs with the one before.
#[derive(Clone, Copy)]
pub struct Recent {
    pub place: u64,
    pub common: CommonInformation,
}

/// The numbers of a common information entry, and the place behind them.
#[derive(Clone, Copy)]
pub struct Numbers {
    pub code_factor: u64,
    pub data_factor: u64,
    pub column: u64,
    pub next: u64,
}

/// The augmentation of a common information entry, and where its instructions stand.
#[derive(Clone, Copy)]
pub struct Rest {
    pub augmented: bool,
    pub signal_frame: bool,
    pub pointers: Encoding,
    pub instructions: u64,
}

/// Where an entry stands: what is behind the length at a place.
#[tactic(auto, unfolding(crate::specs::Entries::extent_at))]
pub fn extent_at<C: Cells>(
    cells: &C,
    around: &Surroundings<'_>,
    place: u64,
) -> Result<Extent, CallFrameFault>
    ensures { result ≡ extent_at (section (C.cells cells.now) around.now) place }
{
    let length = four_bytes(cells, place)?;
    if length == EXTENDED_LENGTH {
        let long = eight_bytes(cells, place + 4)?;
        let start = place + 12;
        return Ok(Extent {
            start,
            end: u128::from(start) + u128::from(long),
        });
    }
    let start = place + 4;
    Ok(Extent {
        start,
        end: u128::from(start) + u128::from(length),
    })
}

/// The id of an entry.
pub fn id_of<C: Cells>(
    cells: &C,
    around: &Surroundings<'_>,
    extent: Extent,
) -> Result<u32, CallFrameFault>
    ensures id { result ≡ id_of (section (C.cells cells.now) around.now) extent }
    ensures within { OnOk result (extent.start + 4 < 2 ^ 64) }
{
    four_bytes(&Within::new(cells, extent), extent.start)
}

fn version_of(n: u8) -> Option<Version>
    ensures { result ≡ version_of n }
{
    match n {
        1 => Some(Version::One),
        3 => Some(Version::Three),
        _ => None,
    }
}

// The column of the return address.
fn return_register<C: Cells>(cells: &C, version: Version, at: u64) -> Result<Number, CallFrameFault>
    ensures { result ≡ return_register version (C.cells cells.now) at }
{
    match version {
        Version::One => {
            let column = byte(cells, at)?;
            Ok(Number {
                value: u64::from(column),
                next: at + 1,
            })
        }
        Version::Three => unsigned(cells, at),
    }
}

fn numbers_at<C: Cells>(cells: &C, version: Version, at: u64) -> Result<Numbers, CallFrameFault>
    ensures { result ≡ numbers_at version (C.cells cells.now) at }
{
    let code = unsigned(cells, at)?;
    let factor = signed(cells, code.next)?;
    let column = return_register(cells, version, factor.next)?;
    Ok(Numbers {
        code_factor: code.value,
        data_factor: factor.value,
        column: column.value,
        next: column.next,
    })
}

// The augmentation of an entry whose text stands at a place.
fn rest_at<C: Cells>(
    cells: &C,
    around: &Surroundings<'_>,
    extent: Extent,
    text: u64,
    augmented: bool,
    at: u64,
) -> Result<Rest, CallFrameFault>
    ensures { result ≡ rest_by (section (C.cells cells.now) around.now) extent augmented
        (listed (letter_at (C.cells cells.now)) around.now.size text).items at }
{
    if !augmented {
        return Ok(Rest {
            augmented: false,
            signal_frame: false,
            pointers: plain_pointers(),
            instructions: at,
        });
    }
    let bytes = pass_over(cells, around, extent, at)?;
    let a = augmentation_from(cells, around, text, bytes.value)?;
    Ok(Rest {
        augmented: true,
        signal_frame: a.signal_frame,
        pointers: a.pointers,
        instructions: bytes.next,
    })
}

// The fields of an entry behind its id.
fn common_by<C: Cells>(
    cells: &C,
    around: &Surroundings<'_>,
    extent: Extent,
) -> Result<CommonInformation, CallFrameFault>
    requires { extent.start + 4 < 2 ^ 64 }
    ensures { result ≡ common_by (section (C.cells cells.now) around.now) extent }
{
    let n = byte(cells, extent.start + 4)?;
    let Some(version) = version_of(n) else {
        return Err(CallFrameFault::UnknownVersion);
    };
    let start = extent.start + 5;
    let text = text_at(cells, around, start)?;
    let numbers = numbers_at(cells, version, text.next)?;
    let rest = rest_at(cells, around, extent, start, text.augmented, numbers.next)?;
    Ok(CommonInformation {
        augmented: rest.augmented,
        signal_frame: rest.signal_frame,
        code_alignment_factor: numbers.code_factor,
        data_alignment_factor: numbers.data_factor,
        return_address_register: numbers.column,
        pointers: rest.pointers,
        initial_instructions: Extent {
            start: rest.instructions,
            end: extent.end,
        },
    })
}

/// The fields of a common information entry whose id was read, as far as its instructions.
#[tactic(auto, using(crate::proofs::Commons::by_summary))]
pub fn common_in<C: Cells>(
    cells: &C,
    around: &Surroundings<'_>,
    extent: Extent,
) -> Result<CommonInformation, CallFrameFault>
    requires { extent.start + 4 < 2 ^ 64 }
    ensures { result ≡ common_in (within (section (C.cells cells.now) around.now) extent) extent }
{
    common_by(&Within::new(cells, extent), around, extent)
}

// The common information entry at a place.
#[tactic(auto, unfolding(crate::specs::Entries::common_at))]
fn common_at<C: Cells>(
    cells: &C,
    around: &Surroundings<'_>,
    place: u64,
) -> Result<CommonInformation, CallFrameFault>
    ensures { result ≡ common_at (section (C.cells cells.now) around.now) place }
{
    let extent = extent_at(cells, around, place)?;
    id_of(cells, around, extent)?;
    common_in(cells, around, extent)
}

/// The common information entry so many bytes before the id of a frame description entry.
pub fn common_before<C: Cells>(
    cells: &C,
    around: &Surroundings<'_>,
    place: u64,
    id: u32,
    recent: &mut Option<Recent>,
) -> Result<CommonInformation, CallFrameFault>
    requires { IsRecent (section (C.cells cells.now) around.now) recent.old }
    ensures common { result ≡ common_before (section (C.cells cells.now) around.now) place id }
    ensures recent { IsRecent (section (C.cells cells.now) around.now) recent.new }
{
    let Some(at) = place.checked_sub(u64::from(id)) else {
        return Err(CallFrameFault::Truncated);
    };
    if let Some(last) = *recent {
        if last.place == at {
            return Ok(last.common);
        }
    }
    let common = common_at(cells, around, at)?;
    *recent = Some(Recent { place: at, common });
    Ok(common)
}
