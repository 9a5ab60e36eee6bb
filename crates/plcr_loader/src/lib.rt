//! The constants and structures of Apple's loader.h, nlist.h and machine.h that the crates of the
//! workspace read or write, and the list of load commands that Mach-O core files and images share,
//! over any source of bytes.
#![tactic(auto)]

mod constants;
mod field;
mod file;
mod frame;
mod laws;
pub mod load_command;
pub mod mach_header_64;
pub mod nlist_64;
pub mod section_64;
pub mod segment_command_64;
mod source;
pub mod symtab_command;
pub mod thread_group;
mod trouble;
pub mod uuid_command;

pub use constants::{
    CPU_SUBTYPE_X86_64_ALL, CPU_TYPE_ARM64, CPU_TYPE_X86_64, LC_SEGMENT_64, LC_SYMTAB, LC_THREAD,
    LC_UNIXTHREAD, LC_UUID, MH_CORE, MH_DYLIB, MH_MAGIC_64, N_SECT, N_STAB, N_TYPE, SEG_LINKEDIT,
    SEG_TEXT,
};
pub use field::Field;
pub use file::FileBytes;
pub use frame::frame_at;
pub use laws::{commands_lie, structures_stand};
pub use load_command::LoadCommand;
pub use source::Source;
pub use trouble::Trouble;

#[cfg(test)]
mod tests;
