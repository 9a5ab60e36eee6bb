//! What the events of a history tell of it, each as the contract of a function that does nothing.

ghost use Rattle.plcr_machine.specs.EventLaws.{EventsTell, HeldIsWaiting, EventsOfALoad, EventsOfLooks};

/// Events have the changes of the history, and tell its counts and stamps.
pub fn events_tell()
    ensures { EventsTell }
{}

/// The unloads that are held back are as many as the nodes that wait.
pub fn held_is_waiting()
    ensures { HeldIsWaiting }
{}

/// What a load and a look at each pass add to the events.
pub fn events_are_added()
    ensures load { EventsOfALoad }
    ensures looks { EventsOfLooks }
{}
