//! What the clauses of several calls come to, each as the contract of a function that does nothing.

ghost use Rattle.plcr_imagelist.specs.Carrying.{SeeingGoesOn, ReadingOnlySees, MetStayNamed, VisitsAreMade};
ghost use Rattle.plcr_machine.specs.Parts.{MadeHolds, MadeHoldsAndEntered};
ghost use Rattle.plcr_imagelist.specs.Listing.{RestHasLists};
ghost use Rattle.plcr_imagelist.specs.Opening.{PassesAreNumbered};

use crate::hold::{Hold, Pass};

/// What a pass or a hold sees by several calls, it sees; and so it does as images are read.
pub fn seeing_goes_on()
    ensures again { SeeingGoesOn }
    ensures reading { ReadingOnlySees }
    ensures named { MetStayNamed }
{}

/// A pass that goes in, sees and comes out has made a visit.
pub fn visits_are_made()
    ensures { VisitsAreMade }
{}

/// The changes of a writer at rest, by headers and names, leave its lists.
pub fn rest_has_lists()
    ensures { RestHasLists }
{}

/// All that a pass that is out has done are whole holds: for each enter it announced itself just
/// before, and it came out and retired.
pub fn passes_made_holds(pass: &Pass)
    ensures { MadeHolds pass.now.number pass.now.history }
{
    let _ = &pass.met;
}

/// And a pass that is in did just that before, and then announced itself and went in.
pub fn holds_were_entered(hold: &Hold)
    ensures { MadeHoldsAndEntered hold.now.walker.number hold.now.walker.history }
{
    let _ = &hold.met;
}

/// Of the passes of a list that was just opened each stands at the place of its number.
pub fn passes_are_numbered()
    ensures { PassesAreNumbered }
{}
