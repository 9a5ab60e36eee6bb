//! What runs on threads come to, each as the contract of a function that does nothing.
ghost use Rattle.plcr_workers.specs.Known.{KnownJournalsRun, KnownJournalsAreTheChanges};

/// Each line of a journal is the outcome of a run after the accepted lines before it, and these are
/// the changes of the one history.
pub fn known_journals_run()
    ensures lines { KnownJournalsRun }
    ensures changes { KnownJournalsAreTheChanges }
{}
