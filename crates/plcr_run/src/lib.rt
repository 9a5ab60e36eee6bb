//! The run of a script over a process on an image list: what its tokens do statement by statement,
//! each between two tellings, so that the history which the writer has seen at the end is the one
//! that the script means.
#![tactic(auto)]

mod changing;
mod ending;
mod passes;
mod reporting;
mod running;
#[cfg(test)]
mod script_tests;
mod scripts;
mod slots;
mod stepping;
#[cfg(test)]
mod using_tests;
mod walking;
mod writing;

pub use reporting::save_walk;
pub use scripts::{play, run_script};
pub use walking::{walk, walk_to_end};
