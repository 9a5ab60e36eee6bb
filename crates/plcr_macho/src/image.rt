/// Bytes of memory, from an address on.
#[derive(Clone, Copy, Debug, PartialEq, Eq)]
pub struct Part {
    pub at: u64,
    pub size: u64,
}

/// The tables of an image's symbols: where the rows stand and how many there are, and where the
/// names stand and how many bytes they have.
#[derive(Clone, Copy, Debug, PartialEq, Eq)]
pub struct Symtab {
    pub rows_at: u64,
    pub rows: u32,
    pub strings_at: u64,
    pub strings: u32,
}

/// A Mach-O image as it lies in memory (loader.h): the address of its header, its cputype and
/// cpusubtype, by how much it was moved, the size of `__TEXT` in bytes, and where its parts lie.
#[derive(Clone, Copy, Debug, PartialEq, Eq)]
pub struct Image {
    pub header: u64,
    pub cpu: u32,
    pub subtype: u32,
    pub slide: u64,
    pub text_size: u64,
    pub uuid: Option<[u8; 16]>,
    pub symtab: Option<Symtab>,
    pub unwind: Option<Part>,
    pub eh_frame: Option<Part>,
}

/// Why there is no image at an address.
#[derive(Clone, Copy, Debug, PartialEq, Eq)]
pub enum ImageFault {
    /// The header, the front of a command or a whole command, which starts at `at`, isn't wholly
    /// mapped.
    Unreadable { at: u64 },
    /// No 64-bit little-endian Mach-O header stands there.
    NotMachO { magic: u32 },
    /// The image is for another processor.
    OtherCpu { cpu: u32 },
    /// The command at this index, from 0, passes the end of the commands or is too short for what
    /// it says.
    BadCommand { index: u32 },
    /// No segment is `__TEXT`.
    NoText,
}
