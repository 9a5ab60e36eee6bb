//! Reads the file of a crash report: the report that its bytes spell, or their first fault with its
//! place.
#![tactic(auto)]

mod checking;
mod display;
mod faults;
mod fields;
mod found;
mod ink;
mod laws;
mod leaves;
mod marks;
mod messages;
mod nodes;
mod numbers;
mod reader;
mod scanning;
mod table;
mod text;
mod written;

pub use faults::DecodeFault;
pub use laws::{fields_cover, reads_again, scan_by_parts, whole_by_parts};
pub use plcr_report::{
    Application, Bytes, Frame, Image, Info, Kind, Process, Processor, Register, Report, Rows,
    Signal, Symbol, System, Thread,
};
pub use reader::decode;
pub use text::write_text;

#[cfg(test)]
mod tests;
