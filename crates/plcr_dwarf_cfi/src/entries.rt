//! Entries of `__eh_frame` (Linux Standard Base Core, "The .eh_frame section"; DWARF 4, section
//! 6.4.1).

/// Where bytes of the section stand: from a place on, up to another. Places count from the
/// section's start, and the end may lie past the section and past 2^64.
#[derive(Clone, Copy)]
pub struct Extent {
    pub start: u64,
    pub end: u128,
}

/// The format of a pointer's number.
#[derive(Clone, Copy, PartialEq, Eq)]
pub enum Format {
    Absptr,
    Uleb128,
    Udata2,
    Udata4,
    Udata8,
    Sleb128,
    Sdata2,
    Sdata4,
    Sdata8,
}

/// How pointers are encoded: as a number of a format, which may count from the pointer's own
/// address, and which may tell where the pointer is.
#[derive(Clone, Copy)]
pub struct Encoding {
    pub format: Format,
    pub relative: bool,
    pub indirect: bool,
}

/// The version of a common information entry.
#[derive(Clone, Copy)]
pub enum Version {
    One,
    Three,
}

/// A common information entry (CIE).
#[derive(Clone, Copy)]
pub struct CommonInformation {
    /// Whether its frame description entries have augmentation data.
    pub augmented: bool,
    /// Whether the caller's frame is exact.
    pub signal_frame: bool,
    pub code_alignment_factor: u64,
    /// In two's complement modulo 2^64.
    pub data_alignment_factor: u64,
    pub return_address_register: u64,
    pub pointers: Encoding,
    pub initial_instructions: Extent,
}

/// A frame description entry (FDE) as far as its range.
#[derive(Clone, Copy)]
pub struct FrameDescription {
    pub common: CommonInformation,
    pub initial_location: u64,
    pub address_range: u64,
    /// What stands behind the range.
    pub rest: Extent,
}

/// An entry of the section.
#[derive(Clone, Copy)]
pub enum Entry {
    Common(CommonInformation),
    Description(FrameDescription),
}
