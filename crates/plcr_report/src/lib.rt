//! The value of a crash report of version 1: a struct for each message of PLCrashReporter's
//! crash_report.proto, the table of the messages' fields, and the spelling of a report.
#![tactic(auto)]

mod head;
mod kinds;
mod laws;
mod messages;

pub use head::{MAGIC, VERSION};
pub use kinds::{Holds, Kind};
pub use laws::constants_stand;
pub use messages::{
    Application, Frame, Image, Info, Process, Processor, Register, Report, Signal, Symbol, System,
    Thread,
};
pub use plcr_base::{Bytes, Rows};
