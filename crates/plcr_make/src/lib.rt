//! A core and a script that are made by rule, for runs of any size: images in their order, threads
//! whose frames lead through them, and a script that loads and unloads them and takes one report.
#![tactic(auto)]

mod constants;
mod cores;
mod images;
mod laws;
mod numbers;
mod script;
mod segments;
mod stack;
mod summary;
#[cfg(test)]
mod tests;

pub use constants::{MADE_REPORT, MOST_IMAGES, THREADS};
pub use cores::core_bytes;
pub use laws::made_scripts_are_read;
pub use script::script_bytes;
pub use summary::write_summary;
