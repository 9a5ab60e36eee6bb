//! A race of the image list: `changes NODES PLACE ROUNDS` loads at the end and unloads at a place,
//! alone, and `walks NODES READERS ROUNDS` walks on threads while a writer loads and unloads.
//! `bench/imagelist.py` runs it.
#![tactic(auto)]

mod changes;
mod list;
#[cfg(test)]
mod tests;
mod walks;
mod words;

use std::process::ExitCode;
use std::{env, io};
use words::Task;

fn main(rt: HostRuntime) -> io::Result<ExitCode> {
    let mut words = Vec::new(rt.alloc());
    for word in env::args(&rt)?.skip(1) {
        words.push(word)?;
    }
    match words::read(words.as_slice()) {
        Some(
            Task::Changes {
                nodes,
                place,
                rounds,
            },
        ) => changes::race(&rt, nodes, place, rounds)?,
        Some(
            Task::Walks {
                nodes,
                readers,
                rounds,
            },
        ) => walks::race(&rt, nodes, readers, rounds)?,
        None => {
            println!(rt; "changes NODES PLACE ROUNDS\nwalks NODES READERS ROUNDS")?;
            let good = words.is_empty();
            return Ok(if good {
                ExitCode::SUCCESS
            } else {
                ExitCode::FAILURE
            });
        }
    }
    Ok(ExitCode::SUCCESS)
}
