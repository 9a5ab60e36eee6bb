//! The list of loaded images. One writer loads and unloads, a step at a time and without waiting,
//! while passes walk the list from other threads. `docs/image-list.md` has the picture.
#![tactic(auto)]

mod books;
mod bounds;
mod change;
mod hold;
#[cfg(test)]
mod holding_tests;
mod index;
#[cfg(test)]
mod index_tests;
mod kept_hold;
mod laws;
mod list;
#[cfg(test)]
mod overlap_tests;
mod refusals;
#[cfg(test)]
mod stress_tests;
mod telling;
#[cfg(test)]
mod telling_tests;
#[cfg(test)]
mod tests;
mod walk;
mod words;
mod writer;

pub use change::{Change, Progress};
pub use hold::{Hold, Pass, Window};
pub use kept_hold::KeptHold;
pub use laws::{
    holds_were_entered, passes_are_numbered, passes_made_holds, rest_has_lists, seeing_goes_on,
    visits_are_made,
};
pub use list::{ImageList, OpenError};
pub use refusals::{LoadRefused, UnloadRefused};
pub use telling::Note;
pub use walk::Walk;
pub use writer::Writer;
