//! Headers and segments of Mach-O files.
ghost use Rattle.std.specs.Prelude.{◌≡◌, ◌+◌, ◌≤◌, ◌++◌, OnOk};
ghost use Rattle.arrayvec.specs.ArrayVec.{array_vec_len};
ghost use Rattle.plcr_loader.specs.declared.mach_header_64.TheConstants as mach_header_64;
ghost use Rattle.plcr_loader.specs.declared.segment_command_64.TheConstants as segment_command_64;
ghost use Rattle.plcr_make.specs.Segments.{header, segment_command};

use crate::numbers::{push_u32s, push_u64s};
use arrayvec::ArrayVec;
use plcr_io::add_bytes;
use plcr_loader::{
    CPU_SUBTYPE_X86_64_ALL, CPU_TYPE_X86_64, LC_SEGMENT_64, MH_MAGIC_64, mach_header_64,
    segment_command_64,
};
use std::alloc::AllocError;

/// Room for a header, and for the command of a segment.
const HEADER_ROOM: usize = mach_header_64::LENGTH;

const SEGMENT_ROOM: usize = segment_command_64::LENGTH;

/// A segment without sections: its name, where it stands in memory and in the file, and what its
/// memory may be used for, at most and at first.
#[derive(Clone, Copy)]
pub(crate) struct Segment {
    pub name: [u8; 16],
    pub address: u64,
    pub memory_size: u64,
    pub file_offset: u64,
    pub file_size: u64,
    pub protection: u32,
}

/// Adds the header of a file of a type, with so many load commands of so many bytes.
pub(crate) fn add_header(
    bytes: &mut Vec<u8>,
    filetype: u32,
    commands: u32,
    size: u32,
) -> Result<(), AllocError>
    ensures { OnOk result (bytes.new.items ≡ bytes.old.items ++ header filetype commands size) }
{
    let mut piece: ArrayVec<u8, HEADER_ROOM> = ArrayVec::new();
    push_header(&mut piece, filetype, commands, size);
    bytes.extend_from_slice(piece.as_slice())
}

/// Adds the command of a segment.
pub(crate) fn add_segment(bytes: &mut Vec<u8>, segment: &Segment) -> Result<(), AllocError>
    ensures { OnOk result (bytes.new.items ≡ bytes.old.items ++ segment_command segment.now) }
{
    let mut piece: ArrayVec<u8, SEGMENT_ROOM> = ArrayVec::new();
    push_segment(&mut piece, segment);
    bytes.extend_from_slice(piece.as_slice())
}

/// Adds the header of a file to a piece that has room for it.
pub(crate) fn push_header<const N: usize>(
    piece: &mut ArrayVec<u8, N>,
    filetype: u32,
    commands: u32,
    size: u32,
)
    requires { array_vec_len piece.old + mach_header_64.LENGTH ≤ N }
    ensures items { piece.new.items ≡ piece.old.items ++ header filetype commands size }
    ensures len { array_vec_len piece.new ≡ array_vec_len piece.old + mach_header_64.LENGTH }
{
    push_u32s(
        piece,
        &[
            MH_MAGIC_64,
            CPU_TYPE_X86_64,
            CPU_SUBTYPE_X86_64_ALL,
            filetype,
            commands,
            size,
            0,
            0,
        ],
    );
}

/// Adds the command of a segment to a piece that has room for it.
pub(crate) fn push_segment<const N: usize>(piece: &mut ArrayVec<u8, N>, segment: &Segment)
    requires { array_vec_len piece.old + segment_command_64.LENGTH ≤ N }
    ensures items { piece.new.items ≡ piece.old.items ++ segment_command segment.now }
    ensures len { array_vec_len piece.new ≡ array_vec_len piece.old + segment_command_64.LENGTH }
{
    push_u32s(piece, &[LC_SEGMENT_64, segment_command_64::LENGTH as u32]);
    add_bytes(piece, &segment.name);
    push_u64s(
        piece,
        &[
            segment.address,
            segment.memory_size,
            segment.file_offset,
            segment.file_size,
        ],
    );
    push_u32s(piece, &[segment.protection, segment.protection, 0, 0]);
}
