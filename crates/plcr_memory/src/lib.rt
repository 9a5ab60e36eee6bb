//! The memory of a stopped process: regions of addresses over the bytes of a file.
#![tactic(auto)]

mod checks;
mod fault;
mod memory;
mod order;
mod region;
mod run;
mod search;

pub use fault::MemoryFault;
pub use memory::Memory;
pub use region::{Region, are_backed};

#[cfg(test)]
mod tests;
