//! The entries of tables.
ghost use Rattle.std.specs.Prelude.{◌≡◌, ◌≤◌, ◌<◌, ◌+◌, ◌*◌, ◌^◌, IfOk};
ghost use Rattle.plcr_compact.specs.inner.Searches.{IsNear, IsSmall, IsTold, entry_by, size_by};
ghost use Rattle.plcr_compact.specs.Sections.{compressed_entry, index_entry, regular_entry};

use crate::layout::{
    COMPRESSED_ENTRY, ENCODING, FUNCTION_OFFSET, INDEX_ENTRY, LSDA_INDEX_ARRAY_SECTION_OFFSET,
    REGULAR_ENTRY, SECOND_LEVEL_PAGES_SECTION_OFFSET, UNWIND_INFO_COMPRESSED_ENTRY_ENCODING_INDEX,
    UNWIND_INFO_COMPRESSED_ENTRY_FUNC_OFFSET,
};
use crate::section::{Entry, Table};
use crate::words::{field, word};
use plcr_leb128::Cells;

/// What the entries of a table are.
#[derive(Clone, Copy)]
pub enum EntryKind {
    /// Those of the index.
    Index,
    /// Those of a regular page.
    Regular,
    /// Those of a compressed page, whose entry in the index has the offset `first`.
    Compressed { first: u64 },
}

#[tactic(auto, unfolding(crate::specs::Sections::index_entry))]
fn index_entry<C: Cells>(section: &C, place: u64) -> Result<Entry, u8>
    requires { place < 2 ^ 62 }
    ensures entry { result ≡ index_entry (C.cells section.now) place }
    ensures small { IfOk result (λ entry. entry.function < 2 ^ 32) }
{
    let function = word(section, place + FUNCTION_OFFSET)?;
    let page = word(section, place + SECOND_LEVEL_PAGES_SECTION_OFFSET)?;
    let _lsda = word(section, place + LSDA_INDEX_ARRAY_SECTION_OFFSET)?;
    Ok(Entry {
        function: u64::from(function),
        value: page,
    })
}

#[tactic(auto, unfolding(crate::specs::Sections::regular_entry))]
fn regular_entry<C: Cells>(section: &C, place: u64) -> Result<Entry, u8>
    requires { place < 2 ^ 62 }
    ensures entry { result ≡ regular_entry (C.cells section.now) place }
    ensures small { IfOk result (λ entry. entry.function < 2 ^ 32) }
{
    let function = word(section, place + FUNCTION_OFFSET)?;
    let encoding = word(section, place + ENCODING)?;
    Ok(Entry {
        function: u64::from(function),
        value: encoding,
    })
}

#[tactic(auto, unfolding(crate::specs::Sections::compressed_entry))]
fn compressed_entry<C: Cells>(first: u64, section: &C, place: u64) -> Result<Entry, u8>
    requires { first < 2 ^ 32 }
    ensures entry { result ≡ compressed_entry first (C.cells section.now) place }
    ensures small { IfOk result (λ entry. entry.function < first + 2 ^ 32) }
{
    let entry = word(section, place)?;
    Ok(Entry {
        function: first + u64::from(field(entry, UNWIND_INFO_COMPRESSED_ENTRY_FUNC_OFFSET)),
        value: field(entry, UNWIND_INFO_COMPRESSED_ENTRY_ENCODING_INDEX),
    })
}

impl EntryKind {
    /// How many bytes an entry has.
    #[tactic(auto, unfolding(crate::specs::inner::Searches::size_by))]
    pub fn size(self) -> u64
        ensures size { result ≡ size_by self }
        ensures most { result ≤ 12 }
    {
        match self {
            EntryKind::Index => INDEX_ENTRY,
            EntryKind::Regular => REGULAR_ENTRY,
            EntryKind::Compressed { .. } => COMPRESSED_ENTRY,
        }
    }

    /// The place of the entry at an index of a table.
    #[tactic(auto, unfolding(crate::specs::inner::Searches::size_by))]
    pub fn place(self, table: &Table, index: u32) -> u64
        requires { IsNear table.now }
        ensures place { result ≡ table.now.at + size_by self * index }
        ensures near { result < 2 ^ 62 }
    {
        match self {
            EntryKind::Index => table.at + INDEX_ENTRY * u64::from(index),
            EntryKind::Regular => table.at + REGULAR_ENTRY * u64::from(index),
            EntryKind::Compressed { .. } => table.at + COMPRESSED_ENTRY * u64::from(index),
        }
    }

    /// The entry at a place.
    #[tactic(auto, unfolding(crate::specs::inner::Searches::entry_by))]
    pub fn read<C: Cells>(self, section: &C, place: u64) -> Result<Entry, u8>
        requires told { IsTold self }
        requires near { place < 2 ^ 62 }
        ensures entry { result ≡ entry_by self (C.cells section.now) place }
        ensures small { IfOk result (IsSmall self) }
    {
        match self {
            EntryKind::Index => index_entry(section, place),
            EntryKind::Regular => regular_entry(section, place),
            EntryKind::Compressed { first } => compressed_entry(first, section, place),
        }
    }
}
