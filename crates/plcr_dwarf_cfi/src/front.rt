//! A search that keeps the front of a section that it read, so that a later one may pass over runs
//! of its entries.
ghost use Rattle.std.specs.Prelude.{◌≡◌, ◌<◌, ◌≤◌, ◌^◌, ◌+◌, All, Some, Ok, true, IfSome};
ghost use Rattle.plcr_dwarf_cfi.specs.Entries.{description_for, entry_at};
ghost use Rattle.plcr_dwarf_cfi.specs.inner.Fronts.{IsGrowing, IsPassed, IsRun, is_outside, run_at, with_code, with_entry};
ghost use Rattle.plcr_dwarf_cfi.specs.inner.Settings.{section};

use crate::entries::{Entry, FrameDescription};
use crate::fault::CallFrameFault;
use crate::passing::{Passed, passed_at};
use crate::search::{description_over, entry_at};
use crate::sections::Surroundings;
use plcr_leb128::Cells;

/// The front of a section is kept as so many runs, a power of two.
pub const FRONT_RUNS: usize = 64;

/// Good entries of a section one after the other, from a place up to another. None of them covers
/// an address below the lowest or above the highest.
#[derive(Clone, Copy)]
pub struct Run {
    pub from: u64,
    pub to: u64,
    pub entries: u64,
    pub lowest: u64,
    pub highest: u64,
}

impl Run {
    /// No entries, at a place.
    #[inline(always)]
    pub fn at(place: u64) -> Run
        ensures { result ≡ run_at place }
    {
        Run {
            from: place,
            to: place,
            entries: 0,
            lowest: u64::MAX,
            highest: 0,
        }
    }

    // Whether no entry of the run covers an address.
    fn is_outside(&self, address: u64) -> bool
        ensures { result ≡ is_outside self.now address }
    {
        address < self.lowest || self.highest < address
    }

    // The run with the description of some code more.
    fn with_code(&self, start: u64, range: u64, next: u64) -> Run
        requires { self.now.entries + 1 < 2 ^ 64 }
        ensures { result ≡ with_code self.now start range next }
    {
        let longer = Run {
            to: next,
            entries: self.entries + 1,
            ..*self
        };
        if range == 0 {
            return longer;
        }
        let last = start.saturating_add(range - 1);
        Run {
            lowest: self.lowest.min(start),
            highest: self.highest.max(last),
            ..longer
        }
    }

    // The run with one entry more.
    fn with_entry(&self, entry: &Entry, next: u64) -> Run
        requires { self.now.entries + 1 < 2 ^ 64 }
        ensures { result ≡ with_entry self.now entry.now next }
    {
        match entry {
            Entry::Common(_) => Run {
                to: next,
                entries: self.entries + 1,
                ..*self
            },
            Entry::Description(description) => self.with_code(
                description.initial_location,
                description.address_range,
                next,
            ),
        }
    }
}

// Where runs that begin at places within one stretch of a section are kept: so many low bits don't
// count.
fn stretch_bits(size: u64) -> u32
    ensures { result < 64 }
{
    64u32
        .saturating_sub(size.leading_zeros())
        .saturating_sub(FRONT_RUNS.trailing_zeros())
        .min(63)
}

fn slot_of(place: u64, bits: u32) -> usize
    requires { bits < 64 }
    ensures { result < FRONT_RUNS }
{
    ((place >> bits) % FRONT_RUNS as u64) as usize
}

// The kept run that begins at a place, where it may be passed over.
fn passable<C: Cells>(
    _cells: &C,
    around: &Surroundings<'_>,
    runs: &[Run; FRONT_RUNS],
    place: u128,
    left: u128,
    address: u64,
) -> Option<Run>
    requires { All (IsRun (section (C.cells _cells.now) around.now)) runs.now }
    ensures run { IfSome result (IsRun (section (C.cells _cells.now) around.now)) }
    ensures begins { IfSome result (λ run. run.from ≡ place) }
    ensures some { IfSome result (λ run. 1 ≤ run.entries) }
    ensures fewer { IfSome result (λ run. run.entries ≤ left) }
    ensures outside { IfSome result (λ run. is_outside run address ≡ true) }
{
    if place >= u128::from(around.size) {
        return None;
    }
    let run = &runs[slot_of(place as u64, stretch_bits(around.size))];
    let here = u128::from(run.from) == place && run.entries > 0;
    if here && u128::from(run.entries) <= left && run.is_outside(address) {
        Some(*run)
    } else {
        None
    }
}

// The run with one entry more, where its numbers have room.
#[tactic(auto, using(crate::proofs::Running::run_grows))]
fn grown<C: Cells>(
    _cells: &C,
    _around: &Surroundings<'_>,
    run: Option<Run>,
    _place: u128,
    entry: &Entry,
    next: u128,
) -> Option<Run>
    requires growing { IsGrowing (section (C.cells _cells.now) _around.now) run _place }
    requires entry { entry_at (section (C.cells _cells.now) _around.now) _place
        ≡ Ok (Some (entry.now, next)) }
    ensures { IsGrowing (section (C.cells _cells.now) _around.now) result next }
{
    let run = run?;
    if next > u128::from(u64::MAX) || run.entries == u64::MAX {
        return None;
    }
    Some(run.with_entry(entry, next as u64))
}

// The run with a description that was passed over, where its numbers have room.
#[tactic(auto, using(crate::proofs::Running::run_grows_over))]
fn grown_over<C: Cells>(
    _cells: &C,
    _around: &Surroundings<'_>,
    run: Option<Run>,
    _place: u128,
    _address: u64,
    passed: &Passed,
) -> Option<Run>
    requires growing { IsGrowing (section (C.cells _cells.now) _around.now) run _place }
    requires passed { IsPassed (section (C.cells _cells.now) _around.now) _place _address
        passed.now }
    ensures { IsGrowing (section (C.cells _cells.now) _around.now) result passed.now.next }
{
    let run = run?;
    if passed.next > u128::from(u64::MAX) || run.entries == u64::MAX {
        return None;
    }
    Some(run.with_code(passed.start, passed.range, passed.next as u64))
}

// Keeps the run where it is long enough, and begins another.
#[tactic(auto, using(crate::proofs::Running::run_empty))]
fn record<C: Cells>(
    _cells: &C,
    around: &Surroundings<'_>,
    runs: &mut [Run; FRONT_RUNS],
    run: Option<Run>,
    _place: u128,
) -> Option<Run>
    requires known { All (IsRun (section (C.cells _cells.now) around.now)) runs.old }
    requires growing { IsGrowing (section (C.cells _cells.now) around.now) run _place }
    ensures known { All (IsRun (section (C.cells _cells.now) around.now)) runs.new }
    ensures growing { IsGrowing (section (C.cells _cells.now) around.now) result _place }
{
    let whole = run?;
    let bits = stretch_bits(around.size);
    if whole.to.saturating_sub(whole.from) >> bits == 0 {
        return run;
    }
    runs[slot_of(whole.from, bits)] = whole;
    Some(Run::at(whole.to))
}

/// The first frame description entry of the code at an address, where no bad entry stands before
/// it. Runs that were kept are passed over, and others are kept.
#[tactic(auto, using(crate::proofs::Running::walk_starts, crate::proofs::Running::walk_passes, crate::proofs::Running::walk_passes_one, crate::proofs::Running::walk_goes, crate::proofs::Running::walk_hits, crate::proofs::Running::walk_ends, crate::proofs::Running::walk_fails, crate::proofs::Running::walk_out))]
pub fn description_with<C: Cells>(
    cells: &C,
    around: &Surroundings<'_>,
    address: u64,
    runs: &mut [Run; FRONT_RUNS],
) -> Result<FrameDescription, CallFrameFault>
    requires { All (IsRun (section (C.cells cells.now) around.now)) runs.old }
    ensures found { result ≡ description_for (section (C.cells cells.now) around.now) address }
    ensures known { All (IsRun (section (C.cells cells.now) around.now)) runs.new }
{
    let mut recent = None;
    let mut place = 0;
    let mut left = u128::from(around.size) + 1;
    let mut run = Some(Run::at(0));
    while left > 0 {
        if let Some(known) = passable(cells, around, runs, place, left, address) {
            place = u128::from(known.to);
            left -= u128::from(known.entries);
            run = Some(Run::at(known.to));
            continue;
        }
        if let Some(passed) = passed_at(cells, around, place, address, &recent) {
            let longer = grown_over(cells, around, run, place, address, &passed);
            run = record(cells, around, runs, longer, passed.next);
            place = passed.next;
            left -= 1;
            continue;
        }
        match entry_at(cells, around, place, &mut recent) {
            Ok(Some((entry, next))) => {
                if let Some(description) = description_over(&entry, address) {
                    return Ok(description);
                }
                let longer = grown(cells, around, run, place, &entry, next);
                run = record(cells, around, runs, longer, next);
                place = next;
                left -= 1;
            }
            Ok(None) => return Err(CallFrameFault::NotCovered),
            Err(fault) => return Err(fault),
        }
    }
    Err(CallFrameFault::Truncated)
}
