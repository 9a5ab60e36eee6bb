//! Limits of what a command reads.

/// A core has at most so many bytes.
pub const CORE_LIMIT: u64 = 1_073_741_824;

/// A script has at most so many bytes.
pub const SCRIPT_LIMIT: u64 = 16_777_216;

/// A report that is read has at most so many bytes.
pub const REPORT_LIMIT: u64 = 67_108_864;

/// A run has at most so many scripts.
pub const MOST_SCRIPTS: usize = 64;
