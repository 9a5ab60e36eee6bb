//! Where a test may hold a worker up.
use std::marker::Sync;

/// What is called at two places of each worker. Scripts and lines are counted from 1.
pub trait Gate: Sync {
    /// A worker has come to a load or an unload, and has not tried to get the turn yet.
    fn before_change(&self, script: u32, line: u32);

    /// A worker's pass went in at this line, and has not met an image yet.
    fn inside_hold(&self, script: u32, line: u32);
}

/// The gate at which nobody is held up.
#[derive(Clone, Copy, Debug)]
pub struct NoGate;

impl Gate for NoGate {
    fn before_change(&self, _script: u32, _line: u32) {}

    fn inside_hold(&self, _script: u32, _line: u32) {}
}
