//! What is printed of the report that was made.
ghost use Rattle.std.specs.Prelude.{◌≡◌, ◌≤◌, OnOk, OnErr};
ghost use Rattle.std.specs.Io.KnownBytes.{append_known};
ghost use Rattle.plcr_base.specs.Causes.{Rose};
ghost use Rattle.plcr_base.specs.Told.{AppendsProperFront};
ghost use Rattle.plcr_make.specs.Summary.{summary_line};

use arrayvec::ArrayVec;
use plcr_io::{PutFailed, Sink, add_bytes, add_decimal, put_all};

/// Room for four words and four numbers of at most 20 digits.
const LINE_ROOM: usize = 128;

/// Writes the line of a report with so many images, so many threads, so many frames of all threads,
/// and so many bytes.
///
/// # Errors
///
/// `PutFailed` where the sink didn't take the whole line. A front of it was then written.
pub fn write_summary<K: Sink>(
    images: u64,
    threads: u64,
    frames: u64,
    bytes: u64,
    sink: &mut K,
) -> Result<(), PutFailed>
    ensures ok { OnOk result
        (K.written sink.new ≡ append_known (K.written sink.old)
        (summary_line images threads frames bytes)) }
    ensures err { OnErr result (AppendsProperFront (K.written sink.old) (K.written sink.new)
        (summary_line images threads frames bytes)) }
    ensures cause { OnErr result (Rose (K.faults sink.old) (K.faults sink.new)) }
    ensures later { K.faults sink.old ≤ K.faults sink.new }
    ensures mark { K.mark sink.new ≡ K.mark sink.old }
{
    let line = line_of(images, threads, frames, bytes);
    put_all(sink, line.as_slice())
}

/// The line.
#[tactic(auto, unfolding(crate::specs::Summary::summary_line))]
fn line_of(images: u64, threads: u64, frames: u64, bytes: u64) -> ArrayVec<u8, LINE_ROOM>
    ensures { result.items ≡ summary_line images threads frames bytes }
{
    let mut line = ArrayVec::new();
    add_bytes(&mut line, b"made images ");
    add_decimal(&mut line, images);
    add_bytes(&mut line, b" threads ");
    add_decimal(&mut line, threads);
    add_bytes(&mut line, b" frames ");
    add_decimal(&mut line, frames);
    add_bytes(&mut line, b" bytes ");
    add_decimal(&mut line, bytes);
    add_bytes(&mut line, b"\n");
    line
}
