//! The turn of an image list on threads: the writer of the list, the journal of what it was asked,
//! and how far each script has come. It goes from worker to worker through a queue with one place,
//! whose rule ties what the turn has to what each worker knows. `docs/threads-and-queue.md` has the
//! picture.
#![tactic(auto)]

mod handing;
mod laws;
mod lines;
mod queue;
mod rule;
#[cfg(test)]
mod tests;
mod turn;
mod view;
mod worker;

pub use handing::{hand_out, take_in};
pub use laws::{
    each_line_stands_once, journals_tell_the_changes, workers_are_handed_out, workers_are_taken_in,
};
pub use lines::{Asked, ChangeLine, Request, Said, Wanted};
pub use queue::{TurnPass, TurnQueue, give, make, start, take, take_last};
pub use turn::{Part, Turn};
pub use view::{Face, Role, Share, View};
pub use worker::{ScriptLine, apply_inside, apply_line, apply_outside};
