//! What the commands did, read by their status, each as the contract of a function that does
//! nothing.
ghost use Rattle.plcr_tool.specs.Statuses.{MisusedWords, ReportsByStatus, ShownByStatus};
ghost use Rattle.plcr_tool.specs.Threads.{ThreadsByStatus};

/// What `report` took, made, kept, gave up and printed, and what it left in `past`: at 0 all that
/// the run of the script means, at 2, 3 and 4 a refusal's line alone, at 5 the first of the files
/// and of the log, at 7 nothing.
pub fn report_by_status()
    ensures { ReportsByStatus }
{}

/// The same of `show`, which makes no file: at 0 the report's text, at 2 and 6 a refusal's line
/// alone, at 5 a front of the text, at 7 nothing.
pub fn show_by_status()
    ensures { ShownByStatus }
{}

/// The same of `threads`, if it returns: at 0 all files of the scripts and a log, at 2, 3 and 4 a
/// refusal's line alone, at 5 the first of the files and the name of the next, or all files and the
/// front of a log, at 7 nothing.
pub fn threads_by_status()
    ensures { ThreadsByStatus }
{}

/// Status 1 comes exactly where the words fit no command form.
pub fn usage_by_status()
    ensures { MisusedWords }
{}
