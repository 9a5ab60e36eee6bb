//! Thread states of x86-64 and arm64: their registers, by name, by place and by number, and the
//! frames of a thread.
#![tactic(auto)]

mod arch;
mod flavors;
mod form;
mod frame;
mod limits;
mod names;
mod outcome;
mod places;
mod registers;
mod states;

pub use arch::Arch;
pub use flavors::{x86_THREAD_STATE64, x86_THREAD_STATE64_COUNT};
pub use frame::{Frame, Step};
pub use limits::MOST_REGISTERS;
pub use names::{count, name};
pub use outcome::Outcome;
pub use places::{dwarf_place, fp_place, lr_place, pc_place, sp_place};
pub use registers::Registers;
pub use states::read_state;

#[cfg(test)]
mod tests;
