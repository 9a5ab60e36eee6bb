//! Call frame information of `__eh_frame` (DWARF 4, section 6.4; Linux Standard Base Core,
//! "Exception Frames"): the frame of a caller by the table that an image has for its code.
#![tactic(auto)]

mod augmentations;
mod augmented;
mod caller;
mod cfa;
mod common;
mod decode;
mod encodings;
mod entries;
mod fault;
#[cfg(test)]
mod fixtures;
mod front;
mod instructions;
mod known;
mod laws;
mod limits;
mod opcodes;
mod passing;
mod pointers;
mod row;
mod search;
mod sections;
mod steps;
mod table;
mod unwind;

pub use entries::{CommonInformation, Encoding, Extent, Format, FrameDescription};
pub use fault::{CallFrameFault, EXPRESSION};
pub use front::FRONT_RUNS;
pub use known::{KNOWN_DESCRIPTIONS, KNOWN_FRONTS, KnownDescriptions};
pub use laws::{instructions_are_spelled, rows_end_at_locations, the_first_is_found};
pub use limits::{LINK_REGISTER, MOST_REMEMBERED, MOST_RULES};
pub use steps::{find, step, step_from, step_into};

#[cfg(test)]
mod arm64_tests;
#[cfg(test)]
mod cases;
#[cfg(test)]
mod entry_tests;
#[cfg(test)]
mod known_tests;
#[cfg(test)]
mod tests;
