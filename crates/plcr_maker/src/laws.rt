//! What `make` did, each law as the contract of a function that does nothing.
ghost use Rattle.plcr_maker.specs.Laws.{MadeByStatus, MakesAreComplete};

/// What `make` made, kept, gave up and printed, and what it left in `past`, by its status: at 0
/// all, at 5 the first of the files, at 7 nothing. No other status comes.
pub fn make_by_status()
    ensures { MadeByStatus }
{}

/// Where no output and no line fails, `make` has status 0 with all files and its line, or 7.
pub fn makes_are_complete()
    ensures { MakesAreComplete }
{}
