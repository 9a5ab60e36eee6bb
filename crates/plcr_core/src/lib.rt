//! Mach-O core files of x86-64 and arm64: the memory of the process and the states of its threads.
#![tactic(auto)]

mod command;
mod display;
mod fault;
mod gain;
mod gathered;
mod header;
mod laws;
mod limits;
mod read;
mod segment;
mod thread;

pub use fault::CoreFault;
pub use laws::{cores_lie, groups_lie};
pub use limits::MOST_THREADS;
pub use read::{Core, read_core};

#[cfg(test)]
mod fixtures;
#[cfg(test)]
mod tests;
#[cfg(test)]
mod thread_tests;
