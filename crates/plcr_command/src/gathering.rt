//! A report on its way to an output.
ghost use Rattle.std.specs.Prelude.{◌≡◌, ◌≤◌, length, IfOk, OnOk, OnErr};
ghost use Rattle.std.specs.Io.KnownBytes.{append_known};
ghost use Rattle.plcr_base.specs.Causes.{Rose};
ghost use Rattle.plcr_encode.specs.Conditions.{AreNamable};
ghost use Rattle.plcr_command.specs.Gathering.{HasFront};

use plcr_encode::Context;
use plcr_io::{Gathered, PutFailed, Sink};
use plcr_macho::Images;
use plcr_script::Process;

/// Writes a report of the process into an output, and gives its length. Where the output's puts are
/// dear, the report goes to it in few and great pieces. It takes no memory.
///
/// # Errors
///
/// `PutFailed` where the output's count of faults rose.
pub fn capture_into<P: Process, I: Images, K: Sink>(
    process: &P,
    context: &Context,
    images: &mut I,
    out: &mut K,
) -> Result<u64, PutFailed>
    requires context { P.accepts process.now context.now }
    requires images { AreNamable (I.images images.old) }
    ensures written { OnOk result (K.written out.new ≡ append_known (K.written out.old)
        (P.report process.now context.now (I.images images.old))) }
    ensures length { IfOk result
        (λ n. n ≡ length (P.report process.now context.now (I.images images.old))) }
    ensures err { OnErr result (HasFront (K.written out.old) (K.written out.new)
        (P.report process.now context.now (I.images images.old))) }
    ensures cause { OnErr result (Rose (K.faults out.old) (K.faults out.new)) }
    ensures later { K.faults out.old ≤ K.faults out.new }
    ensures same { I.images images.new ≡ I.images images.old }
    ensures follows { I.follows images.old images.new }
{
    if out.is_dear() {
        capture_gathered(process, context, images, out)
    } else {
        process.capture(images, context, out)
    }
}

/// The same, in great pieces.
fn capture_gathered<P: Process, I: Images, K: Sink>(
    process: &P,
    context: &Context,
    images: &mut I,
    out: &mut K,
) -> Result<u64, PutFailed>
    requires context { P.accepts process.now context.now }
    requires images { AreNamable (I.images images.old) }
    ensures written { OnOk result (K.written out.new ≡ append_known (K.written out.old)
        (P.report process.now context.now (I.images images.old))) }
    ensures length { IfOk result
        (λ n. n ≡ length (P.report process.now context.now (I.images images.old))) }
    ensures err { OnErr result (HasFront (K.written out.old) (K.written out.new)
        (P.report process.now context.now (I.images images.old))) }
    ensures cause { OnErr result (Rose (K.faults out.old) (K.faults out.new)) }
    ensures later { K.faults out.old ≤ K.faults out.new }
    ensures same { I.images images.new ≡ I.images images.old }
    ensures follows { I.follows images.old images.new }
{
    let mut gathered = Gathered::new(out);
    match process.capture(images, context, &mut gathered) {
        Ok(length) => {
            gathered.finish()?;
            Ok(length)
        }
        Err(PutFailed) => {
            gathered.give_up();
            Err(PutFailed)
        }
    }
}
