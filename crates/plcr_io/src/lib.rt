//! Where bytes go and come from: sinks, which take bytes piece by piece, and desks, from which
//! whole files are taken and on which named outputs are made, kept or given up; and lines of text
//! on their way to a sink.
#![tactic(auto)]

mod calls;
mod counting;
mod desks;
mod gathered;
mod host_desk;
mod host_out;
mod limits;
mod lines;
mod mem_desk;
mod mem_files;
mod mem_out;
mod room;
mod sinks;

pub use desks::{Desk, MakeFailed, TakeFault};
pub use gathered::Gathered;
pub use host_desk::{HostDesk, HostFile};
pub use host_out::HostOut;
pub use limits::{DECIMAL_DIGITS, FILE_NAME_BYTES};
pub use lines::{add_bytes, add_decimal, put_parts};
pub use mem_desk::MemDesk;
pub use mem_files::MemFile;
pub use mem_out::MemOut;
pub use sinks::{NoMemory, PutFailed, Sink, put_all};

#[cfg(test)]
mod tests;
