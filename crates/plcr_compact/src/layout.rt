//! The structures of a section `__unwind_info` (compact_unwind_encoding.h): how many bytes they
//! have, and where their fields stand from their start. Fields have 4 bytes; those of pages whose
//! names say so have 2.

/// unwind_info_section_header.
pub const SECTION_HEADER: u64 = 28;

pub const VERSION: u64 = 0;

pub const COMMON_ENCODINGS_ARRAY_SECTION_OFFSET: u64 = 4;

pub const COMMON_ENCODINGS_ARRAY_COUNT: u64 = 8;

pub const PERSONALITY_ARRAY_SECTION_OFFSET: u64 = 12;

pub const PERSONALITY_ARRAY_COUNT: u64 = 16;

pub const INDEX_SECTION_OFFSET: u64 = 20;

pub const INDEX_COUNT: u64 = 24;

/// The one version.
pub const UNWIND_SECTION_VERSION: u32 = 1;

/// unwind_info_section_header_index_entry.
pub const INDEX_ENTRY: u64 = 12;

pub const FUNCTION_OFFSET: u64 = 0;

pub const SECOND_LEVEL_PAGES_SECTION_OFFSET: u64 = 4;

pub const LSDA_INDEX_ARRAY_SECTION_OFFSET: u64 = 8;

/// The head of a page: unwind_info_regular_second_level_page_header and, with the last two fields,
/// unwind_info_compressed_second_level_page_header.
pub const KIND: u64 = 0;

/// Of 2 bytes.
pub const ENTRY_PAGE_OFFSET: u64 = 4;

/// Of 2 bytes.
pub const ENTRY_COUNT: u64 = 6;

/// Of 2 bytes.
pub const ENCODINGS_PAGE_OFFSET: u64 = 8;

/// Of 2 bytes.
pub const ENCODINGS_COUNT: u64 = 10;

/// Kinds of pages.
pub const UNWIND_SECOND_LEVEL_REGULAR: u32 = 2;

pub const UNWIND_SECOND_LEVEL_COMPRESSED: u32 = 3;

/// unwind_info_regular_second_level_entry: the offset of a function as in the index, and its
/// encoding.
pub const REGULAR_ENTRY: u64 = 8;

pub const ENCODING: u64 = 4;

/// An entry of a compressed page is one word, which these masks take apart: the offset of a
/// function from that of the page's entry in the index, and the number of its encoding.
pub const COMPRESSED_ENTRY: u64 = 4;

pub const UNWIND_INFO_COMPRESSED_ENTRY_FUNC_OFFSET: u32 = 0x00ff_ffff;

pub const UNWIND_INFO_COMPRESSED_ENTRY_ENCODING_INDEX: u32 = 0xff00_0000;

/// An encoding: compact_unwind_encoding_t.
pub const ENCODING_LENGTH: u64 = 4;

/// Functions have offsets of 32 bits.
pub const MOST_OFFSET: u64 = 0xffff_ffff;
