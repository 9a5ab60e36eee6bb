//! The process that a core holds.
ghost use Rattle.std.specs.Prelude.{◌≡◌};
ghost use Rattle.plcr_command.specs.Process.{fault_number};

use plcr_core::Core;
use plcr_encode::{Context, capture};
use plcr_io::{PutFailed, Sink};
use plcr_macho::{ImageFault, Images, parse};
use plcr_script::Process;

/// The process that a core holds: its images are those of its memory, and its threads are stopped.
#[derive(Clone, Copy)]
pub struct CoreProcess<'a> {
    pub core: &'a Core,
}

impl Process for CoreProcess<'_> {
    ghost use Rattle.plcr_report.specs.Spelling.{spelling_of};
    ghost use Rattle.plcr_encode.specs.Conditions.{AreWhole, IsWritable};
    ghost use Rattle.plcr_encode.specs.Values.{process_report};
    ghost use Rattle.plcr_command.specs.Process.{fault_at};

    ghost image_fault = { λ p header. fault_at p.core.now header };

    ghost report = { λ p context images.
        spelling_of (process_report context p.core.now.threads p.core.now.memory images) };

    ghost accepts = { λ p context. AreWhole context.arch p.core.now.threads × IsWritable context };

    fn fault(&self, header: u64) -> Option<u8> {
        match parse(&self.core.memory, self.core.arch, header) {
            Ok(_) => None,
            Err(fault) => Some(number_of(fault)),
        }
    }

    fn capture<I: Images, K: Sink>(
        &self,
        images: &mut I,
        context: &Context,
        sink: &mut K,
    ) -> Result<u64, PutFailed> {
        capture(
            images,
            &self.core.memory,
            self.core.threads.as_slice(),
            context,
            sink,
        )
    }
}

/// The number of an image's fault, as the log prints it.
fn number_of(fault: ImageFault) -> u8
    ensures { result ≡ fault_number fault }
{
    match fault {
        ImageFault::Unreadable { .. } => 1,
        ImageFault::NotMachO { .. } => 2,
        ImageFault::OtherCpu { .. } => 3,
        ImageFault::BadCommand { .. } => 4,
        ImageFault::NoText => 5,
    }
}
