use plcr_regs::Arch;

/// What a report says beside the threads and images of the process: its values are handed in.
/// Texts are bytes, and may be empty.
#[derive(Clone, Copy)]
pub struct Context<'a> {
    /// The architecture of the process.
    pub arch: Arch,
    /// The operating system, by PLCrashReporter's number: 0 to 2.
    pub os: u32,
    /// The version of the operating system.
    pub os_version: &'a [u8],
    /// Seconds since 1970, below 2^63.
    pub timestamp: u64,
    /// The identifier of the application.
    pub identifier: &'a [u8],
    /// The version of the application.
    pub version: &'a [u8],
    /// The name of the signal.
    pub signal: &'a [u8],
    /// The signal's code.
    pub code: &'a [u8],
    /// The address of the fault.
    pub address: u64,
    /// The name of the process.
    pub process: &'a [u8],
    /// The number of the process.
    pub pid: u32,
    /// The number of its parent.
    pub ppid: u32,
    /// The number of the thread that crashed, from 0.
    pub crashed: u32,
    /// Whether a user asked for the report.
    pub user: bool,
    /// How many low bits of an address of code count on arm64, 32 to 64; the others may hold a
    /// signature.
    pub bits: u8,
}
