//! One file that is made, written and kept.
ghost use Rattle.std.specs.Prelude.{◌≡◌, length, IfOk, OnOk, OnErr, Ok};
ghost use Rattle.plcr_encode.specs.Conditions.{AreNamable};
ghost use Rattle.plcr_io.specs.Desk.{HasOpen};
ghost use Rattle.plcr_command.specs.Saving.{IsSaved, IsUnsaved, TookNothing};
ghost use Rattle.plcr_command.specs.inner.Saving.{Settles};

use crate::gathering::capture_into;
use plcr_encode::Context;
use plcr_io::{Desk, MakeFailed, PutFailed, put_all};
use plcr_macho::Images;
use plcr_script::Process;

/// A file wasn't kept.
#[derive(Clone, Copy, Debug, PartialEq, Eq)]
pub struct Unsaved;

/// Makes a file, writes a report of the process into it and keeps it, and gives its length.
///
/// # Errors
///
/// `Unsaved` where the output wasn't made, not written whole, or not kept: the desk's count of
/// faults of outputs rose.
pub fn save_report<P: Process, I: Images, D: Desk>(
    name: &str,
    process: &P,
    context: &Context,
    images: &mut I,
    desk: &mut D,
) -> Result<u64, Unsaved>
    requires context { P.accepts process.now context.now }
    requires images { AreNamable (I.images images.old) }
    ensures length { IfOk result
        (λ n. n ≡ length (P.report process.now context.now (I.images images.old))) }
    ensures saved { OnOk result
        (IsSaved name.now (P.report process.now context.now (I.images images.old)) (D.told desk.old)
        (D.told desk.new)) }
    ensures unsaved { OnErr result
        (IsUnsaved name.now (P.report process.now context.now (I.images images.old))
        (D.told desk.old) (D.told desk.new)) }
    ensures nothing { TookNothing (D.told desk.old) (D.told desk.new) }
    ensures same { I.images images.new ≡ I.images images.old }
    ensures follows { I.follows images.old images.new }
{
    match desk.make(name) {
        Ok(mut out) => {
            let captured = capture_into(process, context, images, &mut out);
            settle(name, out, captured, desk)
        }
        Err(MakeFailed) => Err(Unsaved),
    }
}

/// Makes a file, writes these bytes into it and keeps it.
///
/// # Errors
///
/// `Unsaved` as of a report.
pub fn save_bytes<D: Desk>(name: &str, bytes: &[u8], desk: &mut D) -> Result<(), Unsaved>
    ensures saved { OnOk result (IsSaved name.now bytes.now (D.told desk.old) (D.told desk.new)) }
    ensures unsaved { OnErr result
        (IsUnsaved name.now bytes.now (D.told desk.old) (D.told desk.new)) }
    ensures nothing { TookNothing (D.told desk.old) (D.told desk.new) }
{
    match desk.make(name) {
        Ok(mut out) => {
            let written = put_all(&mut out, bytes);
            settle(name, out, written, desk)
        }
        Err(MakeFailed) => Err(Unsaved),
    }
}

/// Keeps an output that was written whole, and gives up another.
fn settle<T: Drop, D: Desk>(
    name: &str,
    out: D::Out,
    written: Result<T, PutFailed>,
    desk: &mut D,
) -> Result<T, Unsaved>
    requires { HasOpen (D.told desk.old) }
    ensures value { IfOk result (λ value. written ≡ Ok value) }
    ensures settles { Settles (D.Out.written out) (D.Out.faults out) name.now (D.told desk.old)
        (D.told desk.new) written result }
{
    match written {
        Ok(value) => match desk.keep(name, out) {
            Ok(()) => Ok(value),
            Err(MakeFailed) => Err(Unsaved),
        },
        Err(PutFailed) => {
            desk.abandon(out);
            Err(Unsaved)
        }
    }
}
