//! What is written is read again.
ghost use Rattle.std.specs.Prelude.{◌≡◌, List, Ok};
ghost use Rattle.plcr_regs.specs.declared.registers.Registers as state;
ghost use Rattle.plcr_memory.specs.Regions.{Contents};
ghost use Rattle.plcr_macho.specs.Images.{Listed};
ghost use Rattle.plcr_base.specs.Bytes.{IsBytes};
ghost use Rattle.plcr_report.specs.declared.messages.Image as image;
ghost use Rattle.plcr_report.specs.declared.messages.Thread as thread;
ghost use Rattle.plcr_report.specs.Spelling.{spelling_of};
ghost use Rattle.plcr_encode.specs.declared.context.Context as context;
ghost use Rattle.plcr_encode.specs.Values.{report_of, process_report};
ghost use Rattle.plcr_decode.specs.Reads.{reads};
ghost use Rattle.plcr_tool.specs.Laws.{IsHandedContext, AreHandedStates, AreHandedThreads, AreHandedImages, AreHandedListed};

/// The file of each report that a capture may write spells that report: whatever context, threads
/// and images are handed in, it is what a reader of the file gets.
pub fn written_reports_are_read()
    ensures { (about : context.Context) → (threads : List thread.Thread) →
        (images : List image.Image)
        → IsHandedContext about → AreHandedThreads threads → AreHandedImages images
        → reads (spelling_of (report_of about threads images))
        ≡ Ok (report_of about threads images) }
{}

/// The same of a process, whose threads have the frames that its memory tells of their states, and
/// whose images are what its memory holds at the headers of the loaded images: whatever context,
/// states, memory of bytes and loaded images are handed in, the report is read again.
pub fn captured_reports_are_read()
    ensures { (about : context.Context) → (states : List state.Registers) → (memory : Contents) →
        (listed : List Listed)
        → IsHandedContext about → AreHandedStates about states → IsBytes memory.file →
        AreHandedListed listed
        → reads (spelling_of (process_report about states memory listed))
        ≡ Ok (process_report about states memory listed) }
{}
