//! Whether the entries of a table rise, and the search among those that do.
ghost use Rattle.std.specs.Prelude.{◌≡◌, ◌≤◌, ◌<◌, ◌+◌, ◌*◌, ℕ, List, Ok, Some, IfSome, IsOk, slice_get, take};
ghost use Rattle.plcr_base.specs.Chains.{result_map};
ghost use Rattle.plcr_compact.specs.declared.section.Entry.{Entry};
ghost use Rattle.plcr_compact.specs.declared.entry_kind.EntryKind.TheVariants as kinds;
ghost use Rattle.plcr_compact.specs.inner.Searches.{IsNear, IsSmall, IsTold, empty, entry_by, lawful_in, size_by};
ghost use Rattle.plcr_compact.specs.Tables.{chosen};

use crate::bad::FALLING_OFFSETS;
use crate::entry_kind::EntryKind;
use crate::layout::INDEX_ENTRY;
use crate::section::{Entry, Table};
use crate::zeros::SectionCells;
use plcr_leb128::Cells;

/// Reads a whole table. No entry may have an offset below that of the one before it.
#[tactic(auto, using(crate::proofs::Searched::rest_start, crate::proofs::Searched::rest_more, crate::proofs::Searched::rest_bad, crate::proofs::Searched::rest_end, crate::proofs::Searched::checked_falls, crate::proofs::Searched::checked_rises, crate::proofs::Searched::checked_bad))]
pub fn check<C: Cells>(section: &C, kind: EntryKind, table: &Table) -> Result<(), u8>
    requires near { IsNear table.now }
    requires told { IsTold kind }
    ensures { result ≡ result_map (λ _. tt) (lawful_in (C.cells section.now) kind table.now) }
{
    let mut fell = false;
    let mut before = 0;
    for index in 0..table.count {
        match kind.read(section, kind.place(table, index)) {
            Ok(entry) => {
                fell |= entry.function < before;
                before = entry.function;
            }
            Err(bad) => return Err(bad),
        }
    }
    if fell { Err(FALLING_OFFSETS) } else { Ok(()) }
}

// How many entries of the index from one on are known to be zeros.
#[tactic(auto, unfolding(crate::specs::inner::Searches::entry_by, crate::specs::inner::Searches::size_by))]
fn zero_entries<C: SectionCells>(section: &C, table: &Table, index: u32) -> u32
    requires near { IsNear table.now }
    requires within { index < table.now.count }
    ensures most { index + result ≤ table.now.count }
    ensures empty { (k : ℕ) → k < result
        → entry_by kinds.Index (C.cells section.now)
        (table.now.at + size_by kinds.Index * (index + k)) ≡ Ok empty }
{
    let count = table.count;
    let zeros = section.zeros(EntryKind::Index.place(table, index)) / INDEX_ENTRY;
    u64::min(zeros, u64::from(count - index)) as u32
}

/// Reads a whole index, as `check` does, but passes over entries that are known to be zeros.
#[tactic(auto, using(crate::proofs::Searched::rest_start, crate::proofs::Searched::rest_more, crate::proofs::Searched::rest_bad, crate::proofs::Searched::rest_end, crate::proofs::Searched::checked_falls, crate::proofs::Searched::checked_rises, crate::proofs::Searched::checked_bad, crate::proofs::Emptied::rest_empty))]
pub fn check_index<C: SectionCells>(section: &C, table: &Table) -> Result<(), u8>
    requires { IsNear table.now }
    ensures { result ≡ result_map (λ _. tt)
        (lawful_in (C.cells section.now) kinds.Index table.now) }
{
    let count = table.count;
    let mut fell = false;
    let mut before = 0;
    let mut index = 0;
    while index < count {
        let zeros = zero_entries(section, table, index);
        if zeros > 0 {
            fell |= before > 0;
            before = 0;
            index += zeros;
        } else {
            match EntryKind::Index.read(section, EntryKind::Index.place(table, index)) {
                Ok(read) => {
                    fell |= read.function < before;
                    before = read.function;
                    index += 1;
                }
                Err(bad) => return Err(bad),
            }
        }
    }
    if fell { Err(FALLING_OFFSETS) } else { Ok(()) }
}

/// The entry at an index of a table that was checked.
#[tactic(auto, using(crate::proofs::Searched::entry_stands, crate::proofs::Searched::entry_missing))]
pub fn entry_at<C: Cells>(section: &C, kind: EntryKind, table: &Table, index: u32) -> Entry
    requires near { IsNear table.now }
    requires told { IsTold kind }
    requires lawful { IsOk (lawful_in (C.cells section.now) kind table.now) }
    requires within { index < table.now.count }
    ensures entry { (es : List Entry) → lawful_in (C.cells section.now) kind table.now ≡ Ok es
        → slice_get es index ≡ Some result }
    ensures small { IsSmall kind result }
{
    match kind.read(section, kind.place(table, index)) {
        Ok(entry) => entry,
        Err(_) => unreachable!(),
    }
}

/// Of the first entries of a table that was checked the one with the greatest offset that isn't
/// above another, of equals the last; by halves.
pub fn entry_for<C: Cells>(
    section: &C,
    kind: EntryKind,
    table: &Table,
    count: u32,
    offset: u64,
) -> Option<Entry>
    requires near { IsNear table.now }
    requires told { IsTold kind }
    requires lawful { IsOk (lawful_in (C.cells section.now) kind table.now) }
    requires within { count ≤ table.now.count }
    ensures entry { (es : List Entry) → lawful_in (C.cells section.now) kind table.now ≡ Ok es
        → result ≡ chosen offset (take count es) }
    ensures small { IfSome result (IsSmall kind) }
{
    let mut low = 0;
    let mut high = count;
    let mut best = None;
    while low < high {
        let middle = low + (high - low) / 2;
        let entry = entry_at(section, kind, table, middle);
        if entry.function <= offset {
            best = Some(entry);
            low = middle + 1;
        } else {
            high = middle;
        }
    }
    best
}
