//! Thread states by their names in the Mach headers. A count tells how many words of 4 bytes a
//! state has.

/// The flavor of a state of x86-64's 64-bit registers (mach/i386/thread_status.h).
pub const x86_THREAD_STATE64: u32 = 4;

pub const x86_THREAD_STATE64_COUNT: u32 = 42;

/// The flavor of a state of an Intel processor in either width: the flavor and the count of a
/// state, and then that state (mach/i386/thread_status.h).
pub const x86_THREAD_STATE: u32 = 7;

pub const x86_THREAD_STATE_COUNT: u32 = 44;

/// The flavor of a state of arm64's registers (mach/arm/thread_status.h).
pub const ARM_THREAD_STATE64: u32 = 6;

pub const ARM_THREAD_STATE64_COUNT: u32 = 68;

/// The flavor of a state of an ARM processor in either width: the flavor and the count of a state,
/// and then that state (mach/arm/thread_status.h, which calls it ARM_THREAD_STATE too).
pub const ARM_UNIFIED_THREAD_STATE: u32 = 1;

pub const ARM_UNIFIED_THREAD_STATE_COUNT: u32 = 70;
