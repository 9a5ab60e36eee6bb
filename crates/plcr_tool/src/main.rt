//! The command `plcr_tool`.
#![tactic(auto)]

mod complete;
#[cfg(test)]
mod fixtures;
#[cfg(test)]
mod frame_tests;
#[cfg(test)]
mod image_tests;
mod laws;
#[cfg(test)]
mod long_tests;
#[cfg(test)]
mod make_tests;
mod report;
#[cfg(test)]
mod run_tests;
mod show;
#[cfg(test)]
mod show_tests;
mod statuses;
#[cfg(test)]
mod tests;
#[cfg(test)]
mod threads_fault_tests;
#[cfg(test)]
mod threads_tests;
mod top;

use plcr_command::{Ending, Refusal, status};
use plcr_io::{HostDesk, HostOut};
use plcr_workers::NoGate;
use std::process::ExitCode;
use std::{env, io};

fn main(rt: HostRuntime) -> ExitCode {
    let mut desk = HostDesk::new(rt);
    let mut lines = HostOut::new(rt.stdout());
    let words = match words(&rt) {
        Ok(words) => words,
        Err(error) if error.kind() == io::ErrorKind::OutOfMemory => {
            let refusal = Refusal::OutOfMemory;
            return ExitCode::from(status(Ending::Refused { refusal }));
        }
        Err(_) => Vec::new(rt.alloc()),
    };
    let mut past = None;
    ExitCode::from(top::top(
        &rt,
        rt.alloc(),
        words.as_slice(),
        &mut desk,
        &mut lines,
        &NoGate,
        &mut past,
    ))
}

/// The words behind the program's name. An error that isn't want of memory, as for a word that
/// isn't text, stands for words that fit no form.
fn words(rt: &HostRuntime) -> io::Result<Vec<String>> {
    let mut words = Vec::new(rt.alloc());
    for word in env::args(rt)?.skip(1) {
        words.push(word)?;
    }
    Ok(words)
}
