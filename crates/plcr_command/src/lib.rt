//! What every command shares: taking and reading the files that its words name, what it is refused
//! for, the process that a core holds, outputs that are saved, its lines, and how it ends.
#![tactic(auto)]

mod endings;
mod files;
mod gathering;
mod jobs;
mod limits;
mod lines;
mod process;
mod refusals;
mod saving;
mod taking;
#[cfg(test)]
mod tests;

pub use endings::{Ending, status};
pub use files::{FileWord, report_file};
pub use gathering::capture_into;
pub use jobs::{Job, Modes, read_job};
pub use limits::{CORE_LIMIT, MOST_SCRIPTS, REPORT_LIMIT, SCRIPT_LIMIT};
pub use lines::{print_line, print_unwritten, refuse};
pub use process::CoreProcess;
pub use refusals::Refusal;
pub use saving::{Unsaved, save_bytes, save_report};
pub use taking::take_file;
