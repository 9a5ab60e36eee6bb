//! What a section says of an offset.
ghost use Rattle.std.specs.Prelude.{◌≡◌, ◌<◌, ◌^◌, Ok, IfOk};
ghost use Rattle.plcr_compact.specs.inner.Searches.{IsNear, IsNearPage, IsTold, found_by, index_header, kind_in, page_at, page_header, table_in};
ghost use Rattle.plcr_compact.specs.Sections.{encoding_at, encoding_in, encoding_of, found_in};

use crate::bad::{NO_ENCODING, NO_ENTRY};
use crate::entry_kind::EntryKind;
use crate::layout::ENCODING_LENGTH;
use crate::reading::{header, page_header};
use crate::search::{check, check_index, entry_at, entry_for};
use crate::section::{Entry, Found, PageHeader, SectionHeader, Table};
use crate::words::word;
use crate::zeros::SectionCells;
use plcr_leb128::Cells;

/// The header of a section, whose index is read whole.
#[tactic(auto, using(crate::proofs::Founded::index_checked, crate::proofs::Founded::index_unread, crate::proofs::Founded::index_unchecked))]
pub fn index<C: SectionCells>(section: &C) -> Result<SectionHeader, u8>
    ensures header { result ≡ index_header (C.cells section.now) }
    ensures near { IfOk result (λ header. IsNear header.common × IsNear header.index) }
{
    let header = header(section)?;
    check_index(section, &header.index)?;
    Ok(header)
}

/// The entry of the index for an offset, where the index was read.
#[tactic(auto, using(crate::proofs::Founded::index_lawful))]
pub fn page_for<C: Cells>(section: &C, header: &SectionHeader, offset: u64) -> Result<Entry, u8>
    requires near { IsNear header.now.index }
    requires lawful { index_header (C.cells section.now) ≡ Ok header.now }
    ensures entry { result ≡ page_at (C.cells section.now) offset }
    ensures told { IfOk result (λ entry. entry.function < 2 ^ 32) }
{
    let count = header.index.count;
    if count == 0 {
        return Err(NO_ENTRY);
    }
    let sentinel = entry_at(section, EntryKind::Index, &header.index, count - 1);
    if sentinel.function <= offset {
        return Err(NO_ENTRY);
    }
    match entry_for(section, EntryKind::Index, &header.index, count - 1, offset) {
        Some(entry) if entry.value != 0 => Ok(entry),
        _ => Err(NO_ENTRY),
    }
}

impl PageHeader {
    // What its entries are, where its entry in the index has the offset `first`.
    fn kind(&self, first: u64) -> EntryKind
        ensures { result ≡ kind_in first self.now }
    {
        match self {
            PageHeader::Regular { .. } => EntryKind::Regular,
            PageHeader::Compressed { .. } => EntryKind::Compressed { first },
        }
    }

    // Its entries.
    fn table(&self) -> Table
        ensures { result ≡ table_in self.now }
    {
        match self {
            PageHeader::Regular { entries } | PageHeader::Compressed { entries, .. } => *entries,
        }
    }
}

/// The head of the page that an entry of the index leads to. The page is read whole.
#[tactic(auto, using(crate::proofs::Founded::page_checked, crate::proofs::Founded::page_unread, crate::proofs::Founded::page_unchecked))]
pub fn page<C: Cells>(section: &C, entry: &Entry) -> Result<PageHeader, u8>
    requires told { entry.now.function < 2 ^ 32 }
    ensures header { result ≡ page_header (C.cells section.now) entry.now }
    ensures near { IfOk result IsNearPage }
{
    let header = page_header(section, entry.value)?;
    check(section, header.kind(entry.function), &header.table())?;
    Ok(header)
}

// The encoding with a number in a list of encodings.
fn encoding_at<C: Cells>(section: &C, encodings: &Table, number: u32) -> Result<u32, u8>
    requires { IsNear encodings.now }
    ensures { result ≡ encoding_at (C.cells section.now) encodings.now number }
{
    word(section, encodings.at + ENCODING_LENGTH * u64::from(number))
}

// The encoding with a number: first those that all pages share, then the page's own.
#[tactic(auto, unfolding(crate::specs::Sections::encoding_of))]
fn encoding_of<C: Cells>(section: &C, common: &Table, own: &Table, number: u32) -> Result<u32, u8>
    requires common { IsNear common.now }
    requires own { IsNear own.now }
    ensures { result ≡ encoding_of (C.cells section.now) common.now own.now number }
{
    if number < common.count {
        return encoding_at(section, common, number);
    }
    let number = number - common.count;
    if number < own.count {
        return encoding_at(section, own, number);
    }
    Err(NO_ENCODING)
}

// The encoding of a page's entry.
#[tactic(auto, unfolding(crate::specs::Sections::encoding_in))]
fn encoding_in<C: Cells>(
    section: &C,
    common: &Table,
    header: &PageHeader,
    value: u32,
) -> Result<u32, u8>
    requires common { IsNear common.now }
    requires own { IsNearPage header.now }
    ensures { result ≡ encoding_in (C.cells section.now) common.now header.now value }
{
    match header {
        PageHeader::Regular { .. } => Ok(value),
        PageHeader::Compressed { encodings, .. } => encoding_of(section, common, encodings, value),
    }
}

/// The entry of a page for an offset, where the page was read, with its encoding.
#[tactic(auto, using(crate::proofs::Founded::page_lawful))]
pub fn entry_of<C: Cells>(
    section: &C,
    common: &Table,
    entry: &Entry,
    header: &PageHeader,
    offset: u64,
) -> Result<Found, u8>
    requires common { IsNear common.now }
    requires near { IsNearPage header.now }
    requires told { entry.now.function < 2 ^ 32 }
    requires lawful { page_header (C.cells section.now) entry.now ≡ Ok header.now }
    ensures { result ≡ found_by (C.cells section.now) common.now entry.now offset }
{
    let table = header.table();
    let kind = header.kind(entry.function);
    let Some(chosen) = entry_for(section, kind, &table, table.count, offset) else {
        return Err(NO_ENTRY);
    };
    match encoding_in(section, common, header, chosen.value) {
        Ok(encoding) => Ok(Found {
            function: chosen.function,
            encoding,
        }),
        Err(bad) => Err(bad),
    }
}

/// What a section says of an offset.
#[tactic(auto, using(crate::proofs::Founded::search_unread, crate::proofs::Founded::search_no_page, crate::proofs::Founded::search_bad_page, crate::proofs::Founded::search_found))]
pub fn find_in<C: SectionCells>(section: &C, offset: u64) -> Result<Found, u8>
    ensures { result ≡ found_in (C.cells section.now) offset }
{
    let header = index(section)?;
    let entry = page_for(section, &header, offset)?;
    let page = page(section, &entry)?;
    entry_of(section, &header.common, &entry, &page, offset)
}
