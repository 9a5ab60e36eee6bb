//! Loads and unloads that scripts ask for, and the lines of the journal.
ghost use Rattle.std.specs.Prelude.{◌≡◌};
ghost use Rattle.plcr_turns.specs.Lines.{asked_by};

/// What a line of a script asks for.
#[derive(Clone, Copy, Debug, PartialEq, Eq)]
pub enum Asked {
    /// The image with this header is loaded.
    Load { header: u64 },
    /// The first image with this header is unloaded.
    Unload { header: u64 },
}

/// What such a line came to.
#[derive(Clone, Copy, Debug, PartialEq, Eq)]
pub enum Said {
    /// There is no image at the header; the number of the fault.
    NotImage { kind: u8 },
    /// The list has so many changes behind it that it takes no more.
    Worn { changes: u32 },
    /// The image's name has this many bytes, which are too many.
    Long { len: usize },
    /// No node is free: the images in the list, the nodes that are held back, and the changes made
    /// with the number of passes that were found announced.
    Full { live: u32, held: u32, seen: u64 },
    /// No image of the list has the header.
    NotLoaded,
    /// The image was loaded, with this number.
    Loaded { load: u32 },
    /// The image of the load with this number was unloaded.
    Unloaded { load: u32 },
}

/// A load or unload line of a script: the number of its line, from 1, and what it asks for.
#[derive(Clone, Copy, Debug, PartialEq, Eq)]
pub struct Wanted {
    pub line: u32,
    pub asked: Asked,
}

/// A line of the journal: the number of its script, from 0, the line that was applied, and what it
/// came to.
#[derive(Clone, Copy, Debug, PartialEq, Eq)]
pub struct ChangeLine {
    pub script: u32,
    pub wanted: Wanted,
    pub said: Said,
}

/// A load or an unload that is asked of the writer. Whether there is an image at the header was
/// tested before.
#[derive(Clone, Copy, Debug)]
pub enum Request<'a> {
    /// The image with this header and name is loaded, unless it has a fault, which is given by its
    /// number.
    Load {
        header: u64,
        name: &'a [u8],
        fault: Option<u8>,
    },
    /// The first image with this header is unloaded.
    Unload {
        header: u64,
    },
}

impl Request<'_> {
    /// What is asked for.
    pub fn asked(&self) -> Asked
        ensures { result ≡ asked_by self.now }
    {
        match *self {
            Request::Load { header, .. } => Asked::Load { header },
            Request::Unload { header } => Asked::Unload { header },
        }
    }
}
