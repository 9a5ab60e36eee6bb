//! Outputs of reports, which are made before the workers start.
ghost use Rattle.std.specs.Prelude.{◌≡◌, length, IfOk, OnOk, OnErr};
ghost use Rattle.std.specs.Io.KnownBytes.{append_known};
ghost use Rattle.plcr_base.specs.Causes.{Rose};
ghost use Rattle.plcr_encode.specs.Conditions.{AreNamable};

use plcr_command::capture_into;
use plcr_encode::Context;
use plcr_io::{PutFailed, Sink};
use plcr_macho::Images;
use plcr_script::Process;

/// How far an output is.
#[derive(Clone, Copy, Debug, PartialEq, Eq)]
pub enum Progress {
    /// Its report was not taken yet.
    Waiting,
    /// It has its whole report.
    Written,
    /// A put failed.
    Failed,
}

/// The output of a report: the number of its script, and the place of its statement there, both
/// from 0.
#[derive(Drop)]
pub struct Draft<K> {
    pub script: u32,
    pub at: usize,
    pub out: K,
    pub progress: Progress,
}

impl<K: Sink> Draft<K> {
    /// Writes the report of the process with these images, and gives its length.
    pub(crate) fn write<P: Process, I: Images>(
        &mut self,
        process: &P,
        context: &Context,
        images: &mut I,
    ) -> Result<u64, PutFailed>
        requires context { P.accepts process.now context.now }
        requires images { AreNamable (I.images images.old) }
        ensures place { (self.new.script ≡ self.old.script) × (self.new.at ≡ self.old.at) }
        ensures ok { OnOk result (self.new.progress ≡ Progress.Written) }
        ensures written { OnOk result
            (K.written self.new.out ≡ append_known (K.written self.old.out)
            (P.report process.now context.now (I.images images.old))) }
        ensures length { IfOk result
            (λ n. n ≡ length (P.report process.now context.now (I.images images.old))) }
        ensures err { OnErr result (self.new.progress ≡ Progress.Failed) }
        ensures cause { OnErr result (Rose (K.faults self.old.out) (K.faults self.new.out)) }
        ensures same { I.images images.new ≡ I.images images.old }
        ensures follows { I.follows images.old images.new }
    {
        match capture_into(process, context, images, &mut self.out) {
            Ok(bytes) => {
                self.progress = Progress::Written;
                Ok(bytes)
            }
            Err(PutFailed) => {
                self.progress = Progress::Failed;
                Err(PutFailed)
            }
        }
    }
}
