//! The room in which a capture finds the frames of its threads, one group of threads after the
//! other.
ghost use Rattle.std.specs.Prelude.{◌≡◌};

use crate::frame_rows::FrameRow;
use crate::limits::GROUP_FRAMES;
use crate::lookups::Lookup;
use arrayvec::ArrayVec;
use plcr_cursor::MOST_FRAMES;
use plcr_symbols::SymbolAt;

/// The frames of a group of threads, and what finding their symbols takes.
#[derive(Drop)]
pub(crate) struct Room {
    /// The frames, thread by thread.
    pub(crate) rows: ArrayVec<FrameRow, GROUP_FRAMES>,
    /// How many of them each thread has.
    pub(crate) counts: ArrayVec<usize, MOST_FRAMES>,
    pub(crate) lookups: ArrayVec<Lookup, GROUP_FRAMES>,
    pub(crate) addresses: ArrayVec<u64, GROUP_FRAMES>,
    pub(crate) found: ArrayVec<Option<SymbolAt>, GROUP_FRAMES>,
}

impl Room {
    #[inline(always)]
    pub(crate) fn new() -> Room {
        Room {
            rows: ArrayVec::new(),
            counts: ArrayVec::new(),
            lookups: ArrayVec::new(),
            addresses: ArrayVec::new(),
            found: ArrayVec::new(),
        }
    }

    /// The rows of the frames that were found last.
    pub(crate) fn rows(&self) -> &[FrameRow]
        ensures { result.now ≡ self.now.rows.items }
    {
        self.rows.as_slice()
    }

    /// How many of them each thread has.
    pub(crate) fn counts(&self) -> &[usize]
        ensures { result.now ≡ self.now.counts.items }
    {
        self.counts.as_slice()
    }
}
