//! The addresses whose symbols are looked for, image by image.
ghost use Rattle.std.specs.Prelude.{◌≡◌, ◌≤◌, ◌<◌, length, map};
ghost use Rattle.std.specs.Bool.{OnTrue};
ghost use Rattle.std.specs.List.{AllAdjacentBelow};
ghost use Rattle.plcr_encode.specs.declared.limits.TheConstants.{GROUP_FRAMES};
ghost use Rattle.plcr_encode.specs.inner.Lookups.{Continues, address_of, lookups_for};

use crate::frame_rows::FrameRow;
use crate::limits::GROUP_FRAMES;
use arrayvec::ArrayVec;
use plcr_symbols::SymbolAt;

/// What is looked for a frame: an address, and the position of the image that has it.
#[derive(Clone, Copy)]
pub(crate) struct Lookup {
    pub(crate) position: Option<usize>,
    pub(crate) address: u64,
    /// The number of the frame.
    pub(crate) frame: usize,
}

impl Default for Lookup {
    fn default() -> Lookup {
        Lookup {
            position: None,
            address: 0,
            frame: 0,
        }
    }
}

/// Lists what is looked for these rows, in place of what was listed before.
pub(crate) fn list_lookups(lookups: &mut ArrayVec<Lookup, GROUP_FRAMES>, rows: &[FrameRow])
    requires { length rows.now ≤ GROUP_FRAMES }
    ensures { lookups.new.items ≡ lookups_for rows.now }
{
    lookups.clear();
    for (frame, row) in rows.iter().enumerate() {
        lookups.push(Lookup {
            position: row.position,
            address: row.lookup,
            frame,
        });
    }
}

/// Lists the addresses that are looked for, with room for an answer to each, in place of those
/// before.
pub(crate) fn list_addresses(
    addresses: &mut ArrayVec<u64, GROUP_FRAMES>,
    found: &mut ArrayVec<Option<SymbolAt>, GROUP_FRAMES>,
    lookups: &[Lookup],
)
    requires { length lookups.now ≤ GROUP_FRAMES }
    ensures addresses { addresses.new.items ≡ map address_of lookups.now }
    ensures room { length found.new.items ≡ length lookups.now }
{
    addresses.clear();
    found.clear();
    for lookup in lookups {
        addresses.push(lookup.address);
        found.push(None);
    }
}

/// Whether a lookup may stand behind another in one search: in the same image, and no lower.
fn continues(before: &Lookup, lookup: &Lookup) -> bool
    ensures { OnTrue result (Continues before.now lookup.now) }
{
    before.position == lookup.position && before.address <= lookup.address
}

/// How many lookups, from the first on, can be answered by one search.
pub(crate) fn run_len(lookups: &[Lookup]) -> usize
    requires { 0 < length lookups.now }
    ensures some { 1 ≤ result }
    ensures within { result ≤ length lookups.now }
    ensures run { AllAdjacentBelow Continues lookups.now result }
{
    let mut run = 1;
    while run < lookups.len() && continues(&lookups[run - 1], &lookups[run]) {
        run += 1;
    }
    run
}
