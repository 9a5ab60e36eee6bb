//! The messages of a crash report. Each has the numbers of its fields as constants.
use plcr_base::{Bytes, Rows};

/// A crash report: the root message.
#[derive(Drop)]
pub struct Report {
    pub system_info: System,
    pub application_info: Application,
    pub threads: Rows<Thread>,
    pub binary_images: Rows<Image>,
    pub signal: Signal,
    pub process_info: Option<Process>,
    pub report_info: Option<Info>,
}

impl Report {
    pub const SYSTEM_INFO: u32 = 1;

    pub const APPLICATION_INFO: u32 = 2;

    pub const THREADS: u32 = 3;

    pub const BINARY_IMAGES: u32 = 4;

    pub const SIGNAL: u32 = 6;

    pub const PROCESS_INFO: u32 = 7;

    pub const REPORT_INFO: u32 = 9;
}

/// The system that the process ran on. `timestamp` is in seconds since 1970.
#[derive(Drop)]
pub struct System {
    pub operating_system: u32,
    pub os_version: Bytes,
    pub architecture: u32,
    pub timestamp: i64,
    pub os_build: Option<Bytes>,
}

impl System {
    pub const OPERATING_SYSTEM: u32 = 1;

    pub const OS_VERSION: u32 = 2;

    pub const ARCHITECTURE: u32 = 3;

    pub const TIMESTAMP: u32 = 4;

    pub const OS_BUILD: u32 = 5;
}

/// The application that crashed.
#[derive(Drop)]
pub struct Application {
    pub identifier: Bytes,
    pub version: Bytes,
}

impl Application {
    pub const IDENTIFIER: u32 = 1;

    pub const VERSION: u32 = 2;
}

/// A thread as it was stopped: its frames from the innermost on, and its registers.
#[derive(Drop)]
pub struct Thread {
    pub thread_number: u32,
    pub frames: Rows<Frame>,
    pub crashed: bool,
    pub registers: Rows<Register>,
}

impl Thread {
    pub const THREAD_NUMBER: u32 = 1;

    pub const FRAMES: u32 = 2;

    pub const CRASHED: u32 = 3;

    pub const REGISTERS: u32 = 4;
}

/// A frame of a thread's stack: its program counter, and the symbol that it lies in.
#[derive(Drop)]
pub struct Frame {
    pub pc: u64,
    pub symbol: Option<Symbol>,
}

impl Frame {
    pub const PC: u32 = 3;

    pub const SYMBOL: u32 = 6;
}

/// A symbol and the addresses of its code.
#[derive(Drop)]
pub struct Symbol {
    pub name: Bytes,
    pub start_address: u64,
    pub end_address: Option<u64>,
}

impl Symbol {
    pub const NAME: u32 = 1;

    pub const START_ADDRESS: u32 = 2;

    pub const END_ADDRESS: u32 = 3;
}

/// A register and its value.
#[derive(Drop)]
pub struct Register {
    pub name: Bytes,
    pub value: u64,
}

impl Register {
    pub const NAME: u32 = 1;

    pub const VALUE: u32 = 2;
}

/// A loaded image. `size` is that of its text segment, in bytes.
#[derive(Drop)]
pub struct Image {
    pub base_address: u64,
    pub size: u64,
    pub name: Bytes,
    pub uuid: Option<Bytes>,
    pub code_type: Option<Processor>,
}

impl Image {
    pub const BASE_ADDRESS: u32 = 1;

    pub const SIZE: u32 = 2;

    pub const NAME: u32 = 3;

    pub const UUID: u32 = 4;

    pub const CODE_TYPE: u32 = 5;
}

/// A type of processor. In encoding 1, `cpu` and `subtype` are those of a Mach-O header.
#[derive(Drop)]
pub struct Processor {
    pub encoding: u32,
    pub cpu: u64,
    pub subtype: u64,
}

impl Processor {
    pub const ENCODING: u32 = 1;

    pub const CPU: u32 = 2;

    pub const SUBTYPE: u32 = 3;
}

/// The signal that ended the process, and the address of its fault.
#[derive(Drop)]
pub struct Signal {
    pub name: Bytes,
    pub code: Bytes,
    pub address: u64,
}

impl Signal {
    pub const NAME: u32 = 1;

    pub const CODE: u32 = 2;

    pub const ADDRESS: u32 = 3;
}

/// The process that crashed. `native` is false where it ran under emulation.
#[derive(Drop)]
pub struct Process {
    pub name: Option<Bytes>,
    pub id: u32,
    pub path: Option<Bytes>,
    pub parent_name: Option<Bytes>,
    pub parent_id: u32,
    pub native: bool,
}

impl Process {
    pub const NAME: u32 = 1;

    pub const ID: u32 = 2;

    pub const PATH: u32 = 3;

    pub const PARENT_NAME: u32 = 4;

    pub const PARENT_ID: u32 = 5;

    pub const NATIVE: u32 = 6;
}

/// The report itself. `user_requested` is true where no crash but a user asked for it.
#[derive(Drop)]
pub struct Info {
    pub user_requested: bool,
    pub uuid: Option<Bytes>,
}

impl Info {
    pub const USER_REQUESTED: u32 = 1;

    pub const UUID: u32 = 2;
}
