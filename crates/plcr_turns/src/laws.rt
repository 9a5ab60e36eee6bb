//! What the steps of the queue come to for a chief and its workers, each as the contract of a
//! function that does nothing.
ghost use Rattle.plcr_turns.specs.Journals.{JournalIsTheChanges, EachLineDid};
ghost use Rattle.plcr_turns.specs.Gathering.{NothingHanded, HandsNext, NobodyGathered, GathersNext, HasAllAgain, EachLineOnce};

/// Each script is handed to a worker of its own.
pub fn workers_are_handed_out()
    ensures nothing { NothingHanded }
    ensures next { HandsNext }
    ensures nobody { NobodyGathered }
{}

/// Once all workers were taken in, all scripts belong to the chief again.
pub fn workers_are_taken_in()
    ensures next { GathersNext }
    ensures all { HasAllAgain }
{}

/// The journal has each line that a worker applied just once.
pub fn each_line_stands_once()
    ensures { EachLineOnce }
{}

/// The journal of a turn tells the whole history of changes.
pub fn journals_tell_the_changes()
    ensures changes { JournalIsTheChanges }
    ensures lines { EachLineDid }
{}
