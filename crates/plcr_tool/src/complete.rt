//! Where the desk tells its files, they are within their limits and no count of faults rises, a
//! command does all of its work or wants memory; and a status that refuses a file comes exactly
//! where it is refused.
ghost use Rattle.plcr_tool.specs.Complete.{
  ReportsAreComplete,
  CoreRefusalsAreExact,
  ScriptRefusalsAreExact,
  LongJobsAreRefused,
  WordsMake,
  WordsReport,
  ShownReportsAreComplete,
  ReportRefusalsAreExact,
  LongReportsAreRefused,
  WordsShow,
};
ghost use Rattle.plcr_tool.specs.Threads.{
  ThreadsAreComplete,
  ThreadsRefuseCores,
  ThreadsRefuseScripts,
  ThreadsRefuseLong,
  WordsLeaveAsThreads,
  WordsTellAsThreads,
  WordsThreads,
};

/// On a core and a script that can be taken, `report` has status 0 with all files and lines, or 7,
/// where no output and no line fails. Where they can be taken, status 3 comes exactly for what is
/// no core and 4 for what is no script behind a core, but for want of memory. The first file that
/// is too long is refused with status 2 and its line, but for want of memory, where the files
/// before it can be taken and no take fails.
pub fn reports_are_complete()
    ensures complete { ReportsAreComplete }
    ensures no_core { CoreRefusalsAreExact }
    ensures no_script { ScriptRefusalsAreExact }
    ensures too_long { LongJobsAreRefused }
    ensures words { WordsReport }
{}

/// On a report that can be taken, `show` has status 0 with its text, or 7, where no line fails.
/// Where the file can be taken, status 6 comes exactly for what is no report, but for want of
/// memory. One that is too long is refused with status 2 and its line, but for want of memory,
/// where its take doesn't fail.
pub fn shown_reports_are_complete()
    ensures complete { ShownReportsAreComplete }
    ensures no_report { ReportRefusalsAreExact }
    ensures too_long { LongReportsAreRefused }
    ensures words { WordsShow }
{}

/// The same of `threads`, if it returns, on a core and scripts.
pub fn threads_are_complete()
    ensures complete { ThreadsAreComplete }
    ensures no_core { ThreadsRefuseCores }
    ensures no_script { ThreadsRefuseScripts }
    ensures too_long { ThreadsRefuseLong }
    ensures words { WordsThreads }
    ensures leaves { WordsLeaveAsThreads }
    ensures tells { WordsTellAsThreads }
{}

/// Words of the form `make N CORE SCRIPT` do what `make` does. What it answers where nothing fails
/// is told by `makes_are_complete` of plcr_maker.
pub fn makes_are_chosen()
    ensures words { WordsMake }
{}
