//! What stands in a section `__unwind_info`. Places are counted from the section's start.

/// A list in the section: the place of its first member, and how many there are.
#[derive(Clone, Copy, Debug, PartialEq, Eq)]
pub struct Table {
    pub at: u64,
    pub count: u32,
}

/// The header of the section: the encodings that all pages share, and the index.
#[derive(Clone, Copy, Debug, PartialEq, Eq)]
pub struct SectionHeader {
    pub common: Table,
    pub index: Table,
}

/// An entry of the index or of a page: the offset of a function from the image's header, and what
/// stands beside it. In the index this is the place of a page, in a regular page an encoding, and
/// in a compressed page an encoding's number.
#[derive(Clone, Copy, Debug, PartialEq, Eq)]
pub struct Entry {
    pub function: u64,
    pub value: u32,
}

/// The head of a page: its entries, and the encodings of its own.
#[derive(Clone, Copy, Debug, PartialEq, Eq)]
pub enum PageHeader {
    Regular { entries: Table },
    Compressed { entries: Table, encodings: Table },
}

/// What a section says of an address: the offset of the function that has it, and the word of its
/// encoding.
#[derive(Clone, Copy, Debug, PartialEq, Eq)]
pub struct Found {
    pub function: u64,
    pub encoding: u32,
}
