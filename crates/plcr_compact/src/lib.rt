//! The frame of a caller by an image's compact unwind information (compact_unwind_encoding.h).
#![tactic(auto)]

mod bad;
mod caller;
mod calling;
mod carrying;
mod compact;
mod decoding;
mod encoding;
mod entry_kind;
mod finding;
mod known;
mod laws;
mod layout;
mod masks;
mod permutation;
mod reading;
mod search;
mod section;
mod words;
mod zeros;

pub use bad::{
    DWARF_MODE, FALLING_OFFSETS, MISSING_WORD, NO_ENCODING, NO_ENTRY, NO_REGISTERS, NO_UNWIND_INFO,
    NOT_MAPPED, OTHER_PAGE, OTHER_VERSION, OUT_OF_RANGE, UNKNOWN_MODE,
};
pub use compact::{find, step, step_from, step_from_into};
pub use encoding::{Encoding, Permutation, SavedRegister};
pub use known::{KNOWN_INDEXES, KNOWN_PAGES, KnownSections};
pub use laws::{entries_are_chosen, permutations_are_orders};
pub use section::{Entry, Found, PageHeader, SectionHeader, Table};

#[cfg(test)]
mod caller_tests;
#[cfg(test)]
mod encoding_tests;
#[cfg(test)]
mod fixtures;
#[cfg(test)]
mod section_tests;
