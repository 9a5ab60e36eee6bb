//! What legal histories imply, each as the contract of a function that does nothing.

ghost use Rattle.plcr_machine.specs.Examples.{WorkedHistory, WorkedNodes, WorkedLinks, WorkedWalk, Refused};
ghost use Rattle.plcr_machine.specs.ChangeExamples.{WorkedChanges, WorkedEvents};
ghost use Rattle.plcr_machine.specs.Laws.{LegalIsKept, ReachIsBusy, FreedInOrder, EndedWalkIsLawful, EndedWalkOfHistoryIsLawful, PacedPrefixes, RestIsCounted, FullWhenNoneIsFree, FullIsAsLong, StaleLinksLeadOn, LinksStayInReach, LinksFollow, LoadChangesOneLink, UnloadChangesOneLink, InsideIsAnnounced, CountsAreFew, ListsStay, ChangesMakeTheList};

/// No node is loaded that a pass may still reach.
pub fn legal_is_kept()
    ensures kept { LegalIsKept }
    ensures busy { ReachIsBusy }
{}

/// Removed nodes become free in the order in which they were unloaded.
pub fn freed_in_order()
    ensures { FreedInOrder }
{}

/// A walk that follows image after image and comes to its end is lawful.
pub fn ended_walk_is_lawful()
    ensures of_lists { EndedWalkIsLawful }
    ensures of_histories { EndedWalkOfHistoryIsLawful }
{}

/// Where counts and changes alternate, there are as many changes as counts, or one more.
pub fn paced_prefixes()
    ensures prefixes { PacedPrefixes }
    ensures rest { RestIsCounted }
{}

/// Where each pass was found with no stamp since the last change and no node is free, all nodes are
/// in the list.
pub fn full_when_none_is_free()
    ensures all { FullWhenNoneIsFree }
    ensures length { FullIsAsLong }
{}

/// The link of a removed node that may still be followed leads to no node that may be loaded.
pub fn stale_links_lead_on()
    ensures { StaleLinksLeadOn }
{}

/// From what a pass may reach, links lead to what it may reach, and to the image that follows.
pub fn links_follow()
    ensures reach { LinksStayInReach }
    ensures follow { LinksFollow }
{}

/// A load and an unload change the link of one place of the list each.
pub fn one_link_changes()
    ensures load { LoadChangesOneLink }
    ensures unload { UnloadChangesOneLink }
{}

/// A pass that is inside is announced. Counts and stamps stay within their words.
pub fn inside_is_announced()
    ensures inside { InsideIsAnnounced }
    ensures few { CountsAreFew }
{}

/// As a history goes on, the lists that it had stay. Its list is what its changes alone leave.
pub fn lists_stay()
    ensures stay { ListsStay }
    ensures changes { ChangesMakeTheList }
{}

/// The worked examples of the definitions.
pub fn worked_examples()
    ensures history { WorkedHistory }
    ensures nodes { WorkedNodes }
    ensures links { WorkedLinks }
    ensures walk { WorkedWalk }
    ensures refused { Refused }
    ensures changes { WorkedChanges }
    ensures events { WorkedEvents }
{}
