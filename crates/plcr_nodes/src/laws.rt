//! What entries of others leave as it was, each as the contract of a function that does nothing.

ghost use Rattle.plcr_nodes.specs.Knowing.{OwnersKnowTheJoined, OwnersKnowTheList, PassesKeepTheirReach};

/// What comes new to an owner leaves the list, the free nodes, and the numbers of loads, changes
/// and counts, and where each pass stands that it has joined.
pub fn owners_know_the_list()
    ensures list { OwnersKnowTheList }
    ensures joined { OwnersKnowTheJoined }
{}

/// What comes new to a pass leaves it in or out, announced or not, and what it may reach with its
/// images and names.
pub fn passes_keep_their_reach()
    ensures { PassesKeepTheirReach }
{}
