//! What ties histories to their changes, walks to later and named lists, and entries to those who
//! made them, each as the contract of a function that does nothing.

ghost use Rattle.plcr_machine.specs.Lists.{load_number};
ghost use Rattle.plcr_machine.specs.Changes.{load_of};
ghost use Rattle.plcr_machine.specs.ChangeLaws.{ChangesLeaveTheLists, ChangesStay, UnloadsAreLoads, WriterTakesFirst, NodesAreCounted, NoneIsFree, EachEntryHasOneMaker, NothingElse, PartsBetween, MetFindsNobody, BeforeEnterStays, BeforeEnterIsEntered, NumbersGrow, EndedWalksStay, LawfulWhenWider, MetWereListed, MetWereNamed, MeetingsStay, FollowWithoutNodes, EndedWalkOfChangesIsLawful};

/// The changes of a history, by headers and names, leave its lists, and stay as it goes on.
pub fn changes_leave_the_lists()
    ensures lists { ChangesLeaveTheLists }
    ensures stay { ChangesStay }
    ensures loads { UnloadsAreLoads }
    ensures writer { WriterTakesFirst }
{}

/// Each node is in the list, free or waiting.
pub fn nodes_are_counted()
    ensures nodes { NodesAreCounted }
    ensures free { NoneIsFree }
{}

/// Each entry is the writer's or that of one pass, so where none of them made more there is nothing
/// else.
pub fn each_entry_has_one_maker()
    ensures makers { EachEntryHasOneMaker }
    ensures nothing { NothingElse }
    ensures between { PartsBetween }
{}

/// A look at a pass that was met finds no stamp.
pub fn met_finds_nobody()
    ensures { MetFindsNobody }
{}

/// What was before a pass went in stays, and its enter stands right after it.
pub fn before_enter_stays()
    ensures stays { BeforeEnterStays }
    ensures entered { BeforeEnterIsEntered }
{}

/// As a history goes on, its numbers do not fall.
pub fn numbers_grow()
    ensures { NumbersGrow }
{}

/// A walk that has ended stays so in longer histories, and a lawful one is lawful between wider
/// windows.
pub fn ended_walks_stay()
    ensures stay { EndedWalksStay }
    ensures wider { LawfulWhenWider load_number }
    ensures named { LawfulWhenWider load_of }
{}

/// What a walk has met stood in a list so far.
pub fn met_were_listed()
    ensures listed { MetWereListed }
    ensures named { MetWereNamed }
    ensures stay { MeetingsStay }
{}

/// What follows, and which walks are lawful, is the same without the nodes.
pub fn walks_know_no_nodes()
    ensures follow { FollowWithoutNodes }
    ensures lawful { EndedWalkOfChangesIsLawful }
{}
