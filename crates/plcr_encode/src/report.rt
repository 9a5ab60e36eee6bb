//! A whole report.
ghost use Rattle.std.specs.Prelude.{◌≡◌, ◌+◌, ◌<◌, ◌≤◌, length, IfOk, OnOk, OnErr};
ghost use Rattle.std.specs.Io.KnownBytes.{append_known};
ghost use Rattle.plcr_base.specs.Causes.{Rose};
ghost use Rattle.plcr_base.specs.Told.{AppendsProperFront};
ghost use Rattle.plcr_wire.specs.Message.{spelling};
ghost use Rattle.plcr_wire.specs.Pen.{Wrote};
ghost use Rattle.plcr_cursor.specs.Walks.{IsIndex};
ghost use Rattle.plcr_report.specs.Messages.{report_message};
ghost use Rattle.plcr_report.specs.Spelling.{file_head, spelling_of};
ghost use Rattle.plcr_encode.specs.Conditions.{AreWhole, AreNamable, IsWritable};
ghost use Rattle.plcr_encode.specs.Values.{process_report};
ghost use Rattle.plcr_encode.specs.declared.limits.TheConstants.{REPORT_BYTES};

use crate::context::Context;
use crate::fields::put_message;
use crate::images::put_images;
use crate::parts::{ApplicationPart, InfoPart, ProcessPart, SignalPart, SystemPart};
use crate::room::Room;
use crate::threads::put_threads;
use plcr_cursor::Known;
use plcr_io::{PutFailed, Sink};
use plcr_macho::Images;
use plcr_memory::Memory;
use plcr_regs::Registers;
use plcr_report::{MAGIC, Report, VERSION};
use plcr_wire::{Buffered, Ink};

/// Writes the magic text and the version, and gives their length.
#[tactic(auto, using(plcr_wire::proofs::Writing::wrote_twice))]
fn put_head<W: Ink>(ink: &mut W) -> u64
    ensures wrote { Wrote (W.pen ink.old) (W.pen ink.new) file_head }
    ensures size { result ≡ length file_head }
{
    ink.raw(&MAGIC);
    ink.raw(&[VERSION]);
    MAGIC.len() as u64 + 1
}

/// Writes the fields of a report, and gives the length of what was written.
fn put_root<I: Images, W: Ink>(
    ink: &mut W,
    room: &mut Room,
    images: &mut I,
    known: &mut Known,
    memory: &Memory,
    threads: &[Registers],
    context: &Context,
) -> u64
    requires memory { known.old ≡ memory.now }
    requires threads { AreWhole context.now.arch threads.now }
    requires context { IsWritable context.now }
    requires images { AreNamable (I.images images.old) }
    requires index { IsIndex memory.now context.now.arch (I.images images.old)
        (I.extents images.old) }
    ensures wrote { Wrote (W.pen ink.old) (W.pen ink.new)
        (spelling (report_message
        (process_report context.now threads.now memory.now (I.images images.old)))) }
    ensures size { result
        ≡ length (spelling (report_message
        (process_report context.now threads.now memory.now (I.images images.old)))) }
    ensures short { result < REPORT_BYTES }
    ensures same { I.images images.new ≡ I.images images.old }
    ensures follows { I.follows images.old images.new }
{
    let system = put_message(ink, Report::SYSTEM_INFO, &SystemPart { context });
    let application = put_message(ink, Report::APPLICATION_INFO, &ApplicationPart { context });
    let threads = put_threads(ink, room, images, known, memory, threads, context);
    let images = put_images(ink, images, memory, context.arch);
    let signal = put_message(ink, Report::SIGNAL, &SignalPart { context });
    let process = put_message(ink, Report::PROCESS_INFO, &ProcessPart { context });
    let info = put_message(ink, Report::REPORT_INFO, &InfoPart { context });
    system + application + threads + images + signal + process + info
}

/// Writes the report of a process with these images, this memory and these threads, and gives its
/// length in bytes. At `PutFailed` the sink has a front of it, and not all. File format:
/// PLCrashReporter's crash_report.proto, behind the text `plcrash` and the version 1.
///
/// The list of images is indexed first, for this memory and architecture. It takes no memory. The
/// sink is given pieces of at most 256 bytes.
pub fn capture<I: Images, K: Sink>(
    images: &mut I,
    memory: &Memory,
    threads: &[Registers],
    context: &Context,
    sink: &mut K,
) -> Result<u64, PutFailed>
    requires threads { AreWhole context.now.arch threads.now }
    requires context { IsWritable context.now }
    requires images { AreNamable (I.images images.old) }
    ensures written { OnOk result
        (K.written sink.new ≡ append_known (K.written sink.old)
        (spelling_of (process_report context.now threads.now memory.now (I.images images.old)))) }
    ensures length { IfOk result
        (λ n. n ≡ length (spelling_of
        (process_report context.now threads.now memory.now (I.images images.old)))) }
    ensures err { OnErr result (AppendsProperFront (K.written sink.old) (K.written sink.new)
        (spelling_of (process_report context.now threads.now memory.now (I.images images.old)))) }
    ensures cause { OnErr result (Rose (K.faults sink.old) (K.faults sink.new)) }
    ensures later { K.faults sink.old ≤ K.faults sink.new }
    ensures mark { K.mark sink.new ≡ K.mark sink.old }
    ensures same { I.images images.new ≡ I.images images.old }
    ensures follows { I.follows images.old images.new }
{
    images.index(memory, context.arch);
    let mut room = Room::new();
    let mut known = Known::new(memory);
    let mut buffered = Buffered::new(sink);
    let head = put_head(&mut buffered);
    let length = put_root(
        &mut buffered,
        &mut room,
        images,
        &mut known,
        memory,
        threads,
        context,
    );
    buffered.finish()?;
    Ok(head + length)
}
