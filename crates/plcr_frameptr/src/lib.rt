//! The frame of a caller by the frame pointer that a function saved.
#![tactic(auto)]

mod bad;
mod laws;
mod saved;

pub use bad::{DOES_NOT_RISE, NO_FRAME_POINTER, NOT_MAPPED};
pub use laws::callers_rise;
pub use saved::{step, step_into};

#[cfg(test)]
mod tests;
