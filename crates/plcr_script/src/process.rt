//! The stopped process, as a run sees it.
ghost use Rattle.std.specs.Prelude.{◌≡◌, ◌≤◌, ℕ, List, Option, length, IfOk, OnOk, OnErr};
ghost use Rattle.std.specs.Io.KnownBytes.{append_known};
ghost use Rattle.plcr_base.specs.Causes.{Rose};
ghost use Rattle.plcr_base.specs.Told.{AppendsProperFront};
ghost use Rattle.plcr_macho.specs.Images.{Listed};
ghost use Rattle.plcr_encode.specs.Conditions.{AreNamable};
ghost use Rattle.plcr_encode.specs.declared.context.Context.{Context};

use plcr_encode::Context;
use plcr_io::{PutFailed, Sink};
use plcr_macho::Images;

/// A process that doesn't change.
pub trait Process {
    /// The number of the fault of the image at a header; none where there is an image.
    ghost image_fault: { Self → ℕ → Option ℕ };

    /// The bytes of a report with these images, in this context.
    ghost report: { Self → Context → List Listed → List ℕ };

    /// The contexts in which reports can be taken.
    ghost accepts: { Self → Context → Type 0 };

    /// The number of the fault of the image at a header, if it has one.
    fn fault(&self, header: u64) -> Option<u8>
        ensures { result ≡ image_fault self.now header };

    /// Writes a report, and gives its length. At `Err` the sink has a front of it, and not all. It
    /// takes no memory.
    fn capture<I: Images, K: Sink>(
        &self,
        images: &mut I,
        context: &Context,
        sink: &mut K,
    ) -> Result<u64, PutFailed>
        requires context { accepts self.now context.now }
        requires images { AreNamable (I.images images.old) }
        ensures written { OnOk result
            (K.written sink.new ≡ append_known (K.written sink.old)
            (report self.now context.now (I.images images.old))) }
        ensures length { IfOk result
            (λ n. n ≡ length (report self.now context.now (I.images images.old))) }
        ensures err { OnErr result (AppendsProperFront (K.written sink.old) (K.written sink.new)
            (report self.now context.now (I.images images.old))) }
        ensures cause { OnErr result (Rose (K.faults sink.old) (K.faults sink.new)) }
        ensures later { K.faults sink.old ≤ K.faults sink.new }
        ensures mark { K.mark sink.new ≡ K.mark sink.old }
        ensures same { I.images images.new ≡ I.images images.old }
        ensures follows { I.follows images.old images.new };
}
