//! Laws of reading: what is spelled is read again, nothing of a message without a fault is left
//! out, and messages are judged with all that stands in them.
ghost use Rattle.std.specs.Prelude.{◌≡◌, Ok};
ghost use Rattle.plcr_report.specs.Spelling.{spelling_of};
ghost use Rattle.plcr_report.specs.declared.messages.Report as value;
ghost use Rattle.plcr_decode.specs.Covered.{FieldsCover};
ghost use Rattle.plcr_decode.specs.Fits.{HasFile};
ghost use Rattle.plcr_decode.specs.Reads.{reads};
ghost use Rattle.plcr_decode.specs.Required.{WholeByParts};
ghost use Rattle.plcr_decode.specs.Scan.{ScanByParts};

/// The file of a report spells that report, where each of its numbers has the width of its type and
/// the file has fewer than 2^64 bytes.
#[tactic(auto, using(crate::proofs::Bounds::file_again))]
pub fn reads_again()
    ensures { (r : value.Report) → HasFile r → reads (spelling_of r) ≡ Ok r }
{}

/// Where a message has no fault in reading order, its fields are all its bytes: their list doesn't
/// end before them.
#[tactic(auto, using(crate::proofs::AnyEnd::fields_cover))]
pub fn fields_cover()
    ensures { FieldsCover }
{}

/// What a message lacks is a field of its own, or else what the messages in it lack, however deep
/// they stand.
#[tactic(auto, using(crate::proofs::Levels::whole_by_parts))]
pub fn whole_by_parts()
    ensures { WholeByParts }
{}

/// The first fault of a message is that of its first field, or of the message within it, or of what
/// is left, and each of these is scanned whole.
pub fn scan_by_parts()
    ensures { ScanByParts }
{}
