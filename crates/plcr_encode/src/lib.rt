//! Writes crash reports without taking memory.
#![tactic(auto)]

mod answers;
mod context;
mod fields;
#[cfg(test)]
mod fixtures;
mod frame_parts;
mod frame_rows;
mod frames;
mod images;
mod limits;
mod lookups;
mod names;
mod parts;
mod report;
mod room;
#[cfg(test)]
mod symbol_tests;
#[cfg(test)]
mod tests;
mod threads;

pub use context::Context;
pub use report::capture;
