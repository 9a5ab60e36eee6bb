//! The command `show REPORT`.
ghost use Rattle.std.specs.Prelude.{◌≡◌, [], ◌∷◌, MatchResult};
ghost use Rattle.plcr_command.specs.Seen.{seen};
ghost use Rattle.plcr_command.specs.Taking.{MadeNothing};
ghost use Rattle.plcr_command.specs.Refusals.{IsRead, Refuses};
ghost use Rattle.plcr_command.specs.Endings.{Goes};
ghost use Rattle.plcr_tool.specs.Show.{IsReport, ReportMisread, ShowDoes, Shows, shown_files};

use plcr_command::{Ending, Refusal, refuse, report_file, status, take_file};
use plcr_decode::{DecodeFault, decode, write_text};
use plcr_imagelist::Writer;
use plcr_io::{Desk, PutFailed, Sink};
use plcr_report::Report;
use std::alloc::Global;

/// Prints the text of a report. Gives the status: 0 done, 2 the file couldn't be taken, 5 the text
/// wasn't printed whole, 6 no report, 7 want of memory. All memory is taken before the first line
/// is printed, and nothing is made.
pub fn show_command<D: Desk, L: Sink>(
    alloc: Global,
    report: &str,
    desk: &mut D,
    lines: &mut L,
) -> u8
    ensures does { ShowDoes report.now
        (seen (D.told desk.old) (L.written lines.old) (L.faults lines.old))
        (seen (D.told desk.new) (L.written lines.new) (L.faults lines.new)) result }
    ensures mark { L.mark lines.new ≡ L.mark lines.old }
{
    status(show(alloc, report, desk, lines))
}

fn show<'a, D: Desk, L: Sink>(
    alloc: Global,
    report: &'a str,
    desk: &mut D,
    lines: &mut L,
) -> Ending<'a>
    ensures did { Shows report.now
        (seen (D.told desk.old) (L.written lines.old) (L.faults lines.old))
        (seen (D.told desk.new) (L.written lines.new) (L.faults lines.new)) result }
    ensures goes { Goes
        (seen (D.told desk.old) (L.written lines.old) (L.faults lines.old))
        (seen (D.told desk.new) (L.written lines.new) (L.faults lines.new)) }
    ensures mark { L.mark lines.new ≡ L.mark lines.old }
{
    match read_report(alloc, report, desk) {
        Ok(value) => match write_text(&value, lines) {
            Ok(()) => Ending::Done,
            Err(PutFailed) => Ending::Stopped,
        },
        Err(refusal) => Ending::Refused {
            refusal: refuse(alloc, refusal, lines),
        },
    }
}

/// Takes and reads the report.
fn read_report<'a, D: Desk>(
    alloc: Global,
    report: &'a str,
    desk: &mut D,
) -> Result<Report, Refusal<'a>>
    ensures read { MatchResult result
        (IsRead IsReport (shown_files report.now) (D.told desk.old) (D.told desk.new))
        (Refuses ReportMisread (shown_files report.now) (D.told desk.old) (D.told desk.new)) }
    ensures nothing { MadeNothing (D.told desk.old) (D.told desk.new) }
{
    let bytes = take_file(alloc, report_file(report), desk)?;
    report_of(alloc, bytes.as_slice())
}

/// The report that the bytes are.
fn report_of<'a>(alloc: Global, bytes: &[u8]) -> Result<Report, Refusal<'a>>
    ensures { MatchResult result (IsReport (bytes.now ∷ [])) (ReportMisread (bytes.now ∷ [])) }
{
    match decode(alloc, bytes) {
        Ok(report) => Ok(report),
        Err(DecodeFault::Memory) => Err(Refusal::OutOfMemory),
        Err(fault) => Err(Refusal::ReportRefused { fault }),
    }
}
