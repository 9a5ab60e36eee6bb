//! The structures of a section.
ghost use Rattle.std.specs.Prelude.{◌≡◌, ◌<◌, ◌+◌, ◌^◌, IfOk};
ghost use Rattle.plcr_compact.specs.inner.Searches.{IsNear, IsNearPage};
ghost use Rattle.plcr_compact.specs.Sections.{compressed_header, header_in, page_header_in, regular_header};

use crate::bad::{OTHER_PAGE, OTHER_VERSION};
use crate::layout::{
    COMMON_ENCODINGS_ARRAY_COUNT, COMMON_ENCODINGS_ARRAY_SECTION_OFFSET, ENCODINGS_COUNT,
    ENCODINGS_PAGE_OFFSET, ENTRY_COUNT, ENTRY_PAGE_OFFSET, INDEX_COUNT, INDEX_SECTION_OFFSET, KIND,
    PERSONALITY_ARRAY_COUNT, PERSONALITY_ARRAY_SECTION_OFFSET, UNWIND_SECOND_LEVEL_COMPRESSED,
    UNWIND_SECOND_LEVEL_REGULAR, UNWIND_SECTION_VERSION, VERSION,
};
use crate::section::{PageHeader, SectionHeader, Table};
use crate::words::{half, word};
use plcr_leb128::Cells;

/// The header of a section.
#[tactic(auto, unfolding(crate::specs::Sections::header_in))]
pub fn header<C: Cells>(section: &C) -> Result<SectionHeader, u8>
    ensures header { result ≡ header_in (C.cells section.now) }
    ensures near { IfOk result (λ header. IsNear header.common × IsNear header.index) }
{
    let version = word(section, VERSION)?;
    let common_at = word(section, COMMON_ENCODINGS_ARRAY_SECTION_OFFSET)?;
    let common = word(section, COMMON_ENCODINGS_ARRAY_COUNT)?;
    let _personality_at = word(section, PERSONALITY_ARRAY_SECTION_OFFSET)?;
    let _personality = word(section, PERSONALITY_ARRAY_COUNT)?;
    let index_at = word(section, INDEX_SECTION_OFFSET)?;
    let index = word(section, INDEX_COUNT)?;
    if version != UNWIND_SECTION_VERSION {
        return Err(OTHER_VERSION);
    }
    Ok(SectionHeader {
        common: Table {
            at: u64::from(common_at),
            count: common,
        },
        index: Table {
            at: u64::from(index_at),
            count: index,
        },
    })
}

// A list of a page, which begins so far from the page's start.
fn table_of(page: u32, from: u16, count: u16) -> Table
    ensures table { result ≡ record { at = page + «from»; count = count } }
    ensures near { IsNear result }
{
    Table {
        at: u64::from(page) + u64::from(from),
        count: u32::from(count),
    }
}

#[tactic(auto, unfolding(crate::specs::Sections::regular_header))]
fn regular_header<C: Cells>(section: &C, page: u32) -> Result<PageHeader, u8>
    ensures header { result ≡ regular_header (C.cells section.now) page }
    ensures near { IfOk result IsNearPage }
{
    let at = u64::from(page);
    let entries_at = half(section, at + ENTRY_PAGE_OFFSET)?;
    let entries = half(section, at + ENTRY_COUNT)?;
    Ok(PageHeader::Regular {
        entries: table_of(page, entries_at, entries),
    })
}

#[tactic(auto, unfolding(crate::specs::Sections::compressed_header))]
fn compressed_header<C: Cells>(section: &C, page: u32) -> Result<PageHeader, u8>
    ensures header { result ≡ compressed_header (C.cells section.now) page }
    ensures near { IfOk result IsNearPage }
{
    let at = u64::from(page);
    let entries_at = half(section, at + ENTRY_PAGE_OFFSET)?;
    let entries = half(section, at + ENTRY_COUNT)?;
    let encodings_at = half(section, at + ENCODINGS_PAGE_OFFSET)?;
    let encodings = half(section, at + ENCODINGS_COUNT)?;
    Ok(PageHeader::Compressed {
        entries: table_of(page, entries_at, entries),
        encodings: table_of(page, encodings_at, encodings),
    })
}

/// The head of the page at a place.
#[tactic(auto, unfolding(crate::specs::Sections::page_header_in))]
pub fn page_header<C: Cells>(section: &C, page: u32) -> Result<PageHeader, u8>
    ensures header { result ≡ page_header_in (C.cells section.now) page }
    ensures near { IfOk result IsNearPage }
{
    let kind = word(section, u64::from(page) + KIND)?;
    match kind {
        UNWIND_SECOND_LEVEL_REGULAR => regular_header(section, page),
        UNWIND_SECOND_LEVEL_COMPRESSED => compressed_header(section, page),
        _ => Err(OTHER_PAGE),
    }
}
