//! The row of a frame description entry at an address (DWARF 4, section 6.4.3).
ghost use Rattle.std.specs.Prelude.{◌≡◌, ◌≤◌};
ghost use Rattle.plcr_base.specs.Chains.{result_map};
ghost use Rattle.plcr_dwarf_cfi.specs.Rows.{instructed, own_instructions, row_at};
ghost use Rattle.plcr_dwarf_cfi.specs.declared.limits.TheConstants.{MOST_RULES};
ghost use Rattle.plcr_dwarf_cfi.specs.inner.Settings.{section};

use crate::decode::decode_before;
use crate::entries::{CommonInformation, Extent, FrameDescription};
use crate::fault::CallFrameFault;
use crate::sections::{Surroundings, Within, pass_over};
use crate::table::RowTable;
use plcr_leb128::Cells;

// Carries out instructions, up to the first behind which the row holds from above the address on.
#[tactic(auto, using(crate::proofs::Tables::run_start, crate::proofs::Tables::run_ends, crate::proofs::Tables::run_cut, crate::proofs::Tables::run_fails, crate::proofs::Tables::run_stops, crate::proofs::Tables::run_goes, crate::proofs::Tables::run_out))]
fn instruct<C: Cells>(
    cells: &C,
    around: &Surroundings<'_>,
    common: &CommonInformation,
    count: u64,
    address: Option<u64>,
    extent: Extent,
    table: &mut RowTable,
) -> Result<(), CallFrameFault>
    requires { count ≤ MOST_RULES }
    ensures { result_map (λ _. table.new) result
        ≡ instructed (section (C.cells cells.now) around.now) common.now count address extent
        table.old }
{
    let entry = Within::new(cells, extent);
    let mut place = extent.start;
    for _done in 0..around.size {
        match decode_before(&entry, around, common.pointers, extent.end, place) {
            Ok(Some((instruction, next))) => match table.apply(common, count, instruction) {
                Ok(()) => {
                    if table.is_past(address) {
                        return Ok(());
                    }
                    place = next;
                }
                Err(fault) => return Err(fault),
            },
            Ok(None) => return Ok(()),
            Err(fault) => return Err(fault),
        }
    }
    Err(CallFrameFault::Truncated)
}

// Where the instructions of a frame description entry stand.
fn own_instructions<C: Cells>(
    cells: &C,
    around: &Surroundings<'_>,
    description: &FrameDescription,
) -> Result<Extent, CallFrameFault>
    ensures { result ≡ own_instructions (section (C.cells cells.now) around.now) description.now }
{
    let rest = description.rest;
    if !description.common.augmented {
        return Ok(rest);
    }
    let bytes = pass_over(&Within::new(cells, rest), around, rest, rest.start)?;
    Ok(Extent {
        start: bytes.next,
        end: rest.end,
    })
}

/// Makes the row of the table that at an address, of an architecture with so many register numbers.
#[tactic(auto, unfolding(crate::specs::Rows::row_at))]
pub fn row_at<C: Cells>(
    cells: &C,
    around: &Surroundings<'_>,
    count: u64,
    description: &FrameDescription,
    address: u64,
    table: &mut RowTable,
) -> Result<(), CallFrameFault>
    requires { count ≤ MOST_RULES }
    ensures { result_map (λ _. table.new.row) result
        ≡ row_at (section (C.cells cells.now) around.now) count description.now address }
{
    let own = own_instructions(cells, around, description)?;
    let common = &description.common;
    table.reset(description.initial_location);
    instruct(
        cells,
        around,
        common,
        count,
        None,
        common.initial_instructions,
        table,
    )?;
    table.begin();
    instruct(cells, around, common, count, Some(address), own, table)
}
