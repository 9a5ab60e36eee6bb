//! The lines of the log that don't stand in the journal.

/// What a statement of a worker's pass came to.
#[derive(Clone, Copy, Debug, PartialEq, Eq)]
pub enum PassSaid {
    /// The pass went in.
    Entered,
    /// Its walk has met so many images in this hold, and whether it has ended.
    Walked {
        met: u32,
        ended: bool,
    },
    /// The pass came out, having met so many images; and the numbers of counted changes before it
    /// went in and before it came out.
    Left {
        met: u32,
        low: u32,
        high: u32,
    },
    /// A report: its length in bytes, the number of its images, and the numbers of counted changes
    /// as above.
    Reported {
        bytes: u64,
        images: u32,
        low: u32,
        high: u32,
    },
}

/// A line of a script that is no load or unload: the place of its statement in the script, from 0,
/// and what it came to.
#[derive(Clone, Copy, Debug, PartialEq, Eq)]
pub struct PassLine {
    pub at: usize,
    pub said: PassSaid,
}
