//! Scripts, which say what a run does, and the lines of a run's log.
#![tactic(auto)]

mod arguments;
mod drafts;
mod faults;
mod keys;
mod laws;
mod limits;
#[cfg(test)]
mod log_tests;
mod modes;
mod names;
mod numerals;
mod outcomes;
mod process;
mod reading;
mod run_laws;
mod scripts;
mod settings;
mod splitting;
mod statements;
mod stating;
#[cfg(test)]
mod telling_tests;
#[cfg(test)]
mod tests;
mod values;
mod wording;
mod worked;

pub use faults::ScriptFault;
pub use laws::scripts_are_read_line_by_line;
pub use limits::{DEFAULT_NODES, DEFAULT_PASSES};
pub use modes::Mode;
pub use outcomes::{Outcome, write_outcome};
pub use process::Process;
pub use reading::read_script;
pub use run_laws::{
    passes_are_where_they_were_put, reports_are_kept_lawfully, reports_are_of_lawful_walks,
    stopped_runs_are_prefixes, walks_come_to_their_ends,
};
pub use scripts::Script;
pub use statements::{NumberedStatement, Statement, Text};
pub use values::DescriptiveValues;
pub use worked::worked_runs;
