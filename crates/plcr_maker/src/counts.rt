//! What the summary tells of a report.
ghost use Rattle.std.specs.Prelude.{◌≡◌, length, sum_by, IfSome};
ghost use Rattle.plcr_maker.specs.Make.{frames_in};
ghost use Rattle.plcr_maker.specs.inner.Making.{AreCounts};

use plcr_decode::{Report, Thread};

/// How many images and threads a report has, and how many frames all its threads have.
#[derive(Clone, Copy)]
pub(crate) struct Counts {
    pub images: u64,
    pub threads: u64,
    pub frames: u64,
}

/// The counts of a report; none where there are more frames than a number of 64 bits tells.
pub(crate) fn counts_of(report: &Report) -> Option<Counts>
    ensures { IfSome result (AreCounts report.now) }
{
    let frames = frames_of(report.threads.as_slice())?;
    Some(Counts {
        images: report.binary_images.len() as u64,
        threads: report.threads.len() as u64,
        frames,
    })
}

/// How many frames threads have.
fn frames_of(threads: &[Thread]) -> Option<u64>
    ensures { IfSome result (λ frames. frames ≡ frames_in threads.now) }
{
    let mut frames: u64 = 0;
    for thread in threads {
        frames = frames.checked_add(thread.frames.len() as u64)?;
    }
    Some(frames)
}
