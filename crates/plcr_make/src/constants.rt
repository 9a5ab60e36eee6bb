//! The numbers of what is made.

use plcr_loader::{load_command, thread_group};
use plcr_regs::x86_THREAD_STATE64_COUNT;

/// At most so many images are made.
pub const MOST_IMAGES: u32 = 4000;

/// So many threads.
pub const THREADS: u32 = 16;

/// The name of the file that the script's one report goes into.
pub const MADE_REPORT: &str = "made.plcrash";

/// The address of the first image.
pub const FIRST_IMAGE: u64 = 0x1_0000_0000;

/// From one image to the next, and the length of each in memory.
pub const IMAGE_SIZE: u64 = 0x4000;

/// So many bytes of an image stand in the core.
pub const IMAGE_BYTES: u64 = 128;

/// The return addresses of frames stand so far behind an image's header.
pub const CODE_OFFSET: u64 = 0x100;

/// The address of the stacks, one behind the other.
pub const FIRST_STACK: u64 = 0x70_0000_0000;

/// The length of a thread's stack.
pub const STACK_SIZE: u64 = 0x1000;

/// The frames of a stack, so many bytes apart.
pub const FRAMES: u32 = 31;

pub const FRAME_SIZE: u64 = 32;

/// From one thread to the next, the image that it stands in.
pub const THREAD_STRIDE: u32 = 37;

/// Each image whose number this divides is unloaded.
pub const UNLOAD_STRIDE: u32 = 7;

/// The length of a thread command: its head, the head of its one group, and the words of a state.
pub const THREAD_COMMAND_SIZE: u32 = (load_command::LENGTH
    + thread_group::LENGTH
    + thread_group::WORD * x86_THREAD_STATE64_COUNT as usize) as u32;

/// What memory may be used for (mach/vm_prot.h): to read and write, and to read and execute.
pub const VM_PROT_READ_WRITE: u32 = 3;

pub const VM_PROT_READ_EXECUTE: u32 = 5;
