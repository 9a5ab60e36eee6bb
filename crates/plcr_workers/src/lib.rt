//! Loaders and reporters on threads: each script runs on a worker of its own, and all workers share
//! one image list, whose writer goes from worker to worker. `docs/threads-and-queue.md` has the
//! picture.
#![tactic(auto)]

mod acting;
mod command;
mod crew;
mod drafts;
mod gate;
mod laws;
mod lines;
mod log;
mod making;
mod opening;
mod places;
mod stage;
mod worker;

pub use command::{SIDE_BY_SIDE, threads_command};
pub use gate::{Gate, NoGate};
pub use laws::known_journals_run;
