//! The command `make N CORE SCRIPT`: it makes a core and a script by rule, runs the script on the
//! core, and keeps the three files.
#![tactic(auto)]

mod command;
mod counts;
mod ignored;
mod laws;
mod making;
mod numerals;
mod runs;
mod saving;
#[cfg(test)]
mod tests;

pub use command::make_command;
pub use laws::{make_by_status, makes_are_complete};
pub use numerals::images_of;
