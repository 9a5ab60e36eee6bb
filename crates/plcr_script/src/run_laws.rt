//! What the runs of all scripts have in common, each as the contract of a function that does
//! nothing.

ghost use Rattle.plcr_script.specs.RunLaws.{PassesAreWhereTheyWerePut, RunsGoOn, EndedWalksStay, WalksComeToTheirEnds, ReportsAreOfLawfulWalks, RunsKeepLawfully, RunsKeepTheirFiles, EndsFollow, StoppedRunsArePrefixes};

/// The walk of each pass that is in comes to its end, and stays there.
pub fn walks_come_to_their_ends()
    ensures ends { WalksComeToTheirEnds }
    ensures stay { EndedWalksStay }
{}

/// Each report is of the images of a lawful walk.
pub fn reports_are_of_lawful_walks()
    ensures { ReportsAreOfLawfulWalks }
{}

/// A run goes on from where it is; and one that stops made the first of the changes that the whole
/// run makes.
pub fn stopped_runs_are_prefixes()
    ensures go_on { RunsGoOn }
    ensures prefix { StoppedRunsArePrefixes }
{}

/// The passes that are in, in a run, are those that its statements put in.
pub fn passes_are_where_they_were_put()
    ensures { PassesAreWhereTheyWerePut }
{}

/// A run keeps the files that its script names. Each was written in a hold of its pass and has a
/// report of the images of that hold's lawful walk, and its line tells the hold's window. What
/// happened by then stays as the run ends.
pub fn reports_are_kept_lawfully()
    ensures lawfully { RunsKeepLawfully }
    ensures files { RunsKeepTheirFiles }
    ensures ends { EndsFollow }
{}
