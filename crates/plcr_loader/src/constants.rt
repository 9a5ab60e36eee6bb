//! Constants of loader.h, nlist.h and machine.h, by their names there.

/// The magic of a 64-bit Mach-O file whose numbers are little-endian.
pub const MH_MAGIC_64: u32 = 0xfeed_facf;

/// The filetype of a core.
pub const MH_CORE: u32 = 4;

/// And of a library that is linked when a program starts.
pub const MH_DYLIB: u32 = 6;

/// Processors.
pub const CPU_TYPE_X86_64: u32 = 0x0100_0007;

pub const CPU_TYPE_ARM64: u32 = 0x0100_000c;

/// Every processor of x86-64.
pub const CPU_SUBTYPE_X86_64_ALL: u32 = 3;

/// Load commands.
pub const LC_SYMTAB: u32 = 0x2;

pub const LC_THREAD: u32 = 0x4;

pub const LC_UNIXTHREAD: u32 = 0x5;

pub const LC_SEGMENT_64: u32 = 0x19;

pub const LC_UUID: u32 = 0x1b;

/// Names of segments, with the zeros that follow them in their field.
pub const SEG_TEXT: [u8; 16] = *b"__TEXT\0\0\0\0\0\0\0\0\0\0";

pub const SEG_LINKEDIT: [u8; 16] = *b"__LINKEDIT\0\0\0\0\0\0";

/// Masks of the field n_type of a symbol (`nlist_64::N_TYPE`): the bits that mark a debugger's
/// entry.
pub const N_STAB: u8 = 0xe0;

/// And the bits that hold the symbol's type.
pub const N_TYPE: u8 = 0x0e;

/// The type, under that mask, of a symbol that is defined in the section that the field n_sect
/// (`nlist_64::N_SECT`) numbers.
pub const N_SECT: u8 = 0xe;
