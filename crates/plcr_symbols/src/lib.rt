//! The symbols of Mach-O images (nlist.h) as they lie in the memory of a process: the symbol of an
//! address, and where its name stands.
#![tactic(auto)]

mod finding;
#[cfg(test)]
mod fixtures;
mod gaps;
mod laws;
#[cfg(test)]
mod layout_tests;
mod limits;
mod names;
mod row;
mod symbol;
mod table;

pub use finding::{find, find_all};
pub use laws::symbols_lie;
pub use limits::SYMBOL_NAME_BYTES;
pub use symbol::SymbolAt;

#[cfg(test)]
mod tests;
