//! Why a change wasn't begun.

/// Why an image wasn't loaded.
#[derive(Clone, Copy, Debug, PartialEq, Eq)]
pub enum LoadRefused {
    /// No node is free: so many images are in the list, and so many nodes were taken out and aren't
    /// free yet. `seen` is the number of changes times `COUNT_UNIT`, and how many passes were found
    /// announced.
    Full { live: u32, held: u32, seen: u64 },
    /// The name has more than 1,024 bytes.
    NameTooLong { len: usize },
    /// As many changes were made as a list takes.
    Worn { changes: u32 },
}

/// Why an image wasn't unloaded.
#[derive(Clone, Copy, Debug, PartialEq, Eq)]
pub enum UnloadRefused {
    /// No image of the list has the header.
    NotLoaded,
    /// As many changes were made as a list takes.
    Worn { changes: u32 },
}
